// Whole lists of calls on one memory.
#![tactic(auto)]
