// Calls of a store in order, with what the rules say of each.
#![tactic(auto)]
