// Records of steps, logged runs and steps back, as definitions.
#![tactic(auto)]
