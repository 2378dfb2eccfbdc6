// What stands at the bottom of a stack: memory that never fails by itself, or one that fails as it is told.
#[derive(Clone, Copy, Debug, PartialEq, Eq)]
pub enum Device {
    Image,
    Bench,
}

// The store that a scenario calls. A mirror keeps two copies of each block, so `blocks` is how many the device has,
// whatever is left of them above it.
#[derive(Clone, Copy, Debug, PartialEq, Eq)]
pub struct Stack {
    pub device: Device,
    pub mirrored: bool,
    pub blocks: u32,
}

// What a scenario asks of its store. A block has the number that the script has, inside the store or not: a call of a
// block that is not there is refused when it is made. A write fills the block with one value.
#[derive(Clone, Copy, Debug, PartialEq, Eq)]
pub enum Call {
    Restart,
    Flush,
    Read { block: u32 },
    Write { block: u32, value: u8 },
}

// One `stack` line of a script, and what follows it up to the next. An image has neither fuses nor choices.
#[derive(Drop)]
pub struct Scenario {
    pub stack: Stack,
    pub fuses: Vec<u32>,
    pub choices: Vec<u8>,
    pub calls: Vec<Call>,
}
