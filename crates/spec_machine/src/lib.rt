// The machine of the papers as definitions: states, rules, fitness and runs.
#![tactic(auto)]
