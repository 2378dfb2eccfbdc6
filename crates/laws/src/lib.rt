// The law of a sampler, over every run of its calls: definitions, and that the law stands.
#![tactic(auto)]

mod stages;

pub use stages::Stage;
