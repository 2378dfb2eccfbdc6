use faults::Fault;
use ledgers::Call;
use records::{Event, Offset};

// The stores that a card scenario may stand on: the steady ones. A bench by itself is none, since a cut may tear its blocks.
#[derive(Clone, Copy, Debug, PartialEq, Eq)]
pub enum Steady {
    Image,
    MirroredImage,
    MirroredBench,
}

// The store of a card scenario. A mirror keeps two copies of each block, so `blocks` is how many the device has, whatever
// is left of them above it.
#[derive(Clone, Copy, Debug, PartialEq, Eq)]
pub struct Stack {
    pub steady: Steady,
    pub blocks: u32,
}

// What a night asks.
#[derive(Clone, Copy)]
pub enum Ask<K> {
    // A call of the sampler.
    Calls(Call<K>),
    // An insert of a record that cannot exist: it is refused so, and reaches no call.
    NoSuchRecord(Fault),
    // The ledger and the sample as they stand.
    Report,
}

// A format, and what is asked up to the next: one run of the sampler. A night is our word for it, since a script has many
// runs in one scenario.
#[derive(Drop)]
pub struct Night<K> {
    pub size: u16,
    pub log_blocks: u8,
    pub seed: u64,
    pub asks: Vec<Ask<K>>,
}

// The nights of a scenario, all of one kind of record.
#[derive(Drop)]
pub enum Nights {
    Offsets(Vec<Night<Offset>>),
    Events(Vec<Night<Event>>),
}

// One `stack` line of a script, and what follows it up to the next scenario. An image has neither fuses nor choices.
#[derive(Drop)]
pub struct CardScenario {
    pub stack: Stack,
    pub fuses: Vec<u32>,
    pub choices: Vec<u8>,
    pub nights: Nights,
    // Whether it ends with the device's memory.
    pub ends_with_memory: bool,
}
