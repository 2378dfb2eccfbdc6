use storescript::{Call, Stack};

// What goes on with a scenario that was started.
#[derive(Drop)]
pub enum More {
    Fuses(Vec<u32>),
    Choices(Vec<u8>),
    Asks(Call),
}

// What a line that is not empty may be: the start of a scenario, or more of the one that was started.
#[derive(Drop)]
pub enum Line {
    Starts(Stack),
    Goes(More),
}
