// The memory image of a state: its layout in 16,384 words.
#![tactic(auto)]
