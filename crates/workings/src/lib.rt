// What working a sampler does: the memory after each call, and the calls that it makes below.
#![tactic(auto)]
