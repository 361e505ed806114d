// What each entry point answers and leaves in the memory, as definitions.
#![tactic(auto)]
