// What a scenario asks of its reservoir. An insert has the numbers that the script has, in range or not: a record
// that cannot exist is refused when the command is worked, and the script is none the worse for it.
#[derive(Clone, Copy, Debug, PartialEq, Eq)]
pub enum Command {
    Insert {
        second: u32,
        satellite: u32,
        nanoseconds: i32,
    },
    Slot(u16),
    Report,
}

// One `reservoir` line of a script, and the commands up to the next scenario.
#[derive(Drop)]
pub struct ReservoirScenario {
    pub size: u16,
    pub seed: u64,
    pub commands: Vec<Command>,
}
