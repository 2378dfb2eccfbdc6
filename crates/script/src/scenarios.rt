use crate::cards::CardScenario;
use crate::commands::ReservoirScenario;

// What a script has one after another: each is worked by itself.
#[derive(Drop)]
pub enum Scenario {
    Reservoir(ReservoirScenario),
    Card(CardScenario),
}
