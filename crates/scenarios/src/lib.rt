// Works a scenario: the commands of one reservoir, each answered by the sample of the records accepted before it.
#![tactic(auto)]

mod answers;
mod reports;
mod sessions;
mod working;

pub use answers::{Answer, Report, Row, Stopped};
pub use working::work;
