// What a card recovers to after a cut, and that working a sampler keeps it so.
#![tactic(auto)]
