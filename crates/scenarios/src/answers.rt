use failures::Failure;
use faults::Fault;
use records::Offset;

// A filled slot and the record in it.
#[derive(Clone, Copy)]
pub struct Row {
    pub slot: u16,
    pub offset: Offset,
}

// The sample: how many records are behind it, its filled slots in ascending order, and the exact sum of their
// nanoseconds.
#[derive(Drop)]
pub struct Report {
    pub count: u32,
    pub rows: Vec<Row>,
    pub sum: i64,
}

// What a command that was not refused is answered.
#[derive(Drop)]
pub enum Answer {
    // The slot that the record took, if any.
    Inserted(Option<u16>),
    // The record in the slot.
    Found(Offset),
    Told(Report),
}

// Why a scenario was not worked to its end: its reservoir was refused, or memory ran out.
pub type Stopped = Failure<Fault>;
