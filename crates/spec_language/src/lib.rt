// What the nodes of a procedure mean.
#![tactic(auto)]
