use faults::Fault;

// A call of a sampler, asleep or awake.
#[derive(Clone, Copy)]
pub enum Call<K> {
    Mount,
    Wake,
    Insert(K),
    Commit,
    Refresh,
    Slot(u16),
    Close,
}

// What it answered: each call has an answer of its own where it is accepted.
#[derive(Clone, Copy)]
pub enum Answer<K> {
    // How many records are counted.
    Mounted(u32),
    Woken,
    // The record's slot, if it has one.
    Inserted(Option<u16>),
    // How many records are counted.
    Committed(u32),
    // How many sample blocks were written.
    Refreshed(u32),
    // The record in the slot.
    Found(K),
    Closed,
    Refused(Fault),
    // A call that a sleeping sampler does not know, or a waking one; it changes nothing.
    OutOfTurn,
}
