use crate::disk::Disk;
use crate::supply::Supply;
use std::collections::VecDeque;
use std::marker::Model;

pub mod stored;

// What a bench is given: memory with 505 bytes for each block, the settled block and a byte that is zero unless the
// block is torn; the fuses, which the restarts use in turn; and the choices, which say what a restart keeps.
#[derive(Drop)]
pub struct Given {
    pub bytes: Vec<u8>,
    pub fuses: Vec<u32>,
    pub choices: Vec<u8>,
}

// A store in the caller's memory that holds up to 16 writes before it settles them. Its supply fails as the fuses say,
// and it keeps, loses or tears held writes as the choices say.
#[derive(Drop)]
pub struct Bench {
    disk: Disk,
    supply: Supply,
    choices: VecDeque<u8>,
}

// What a caller sees: no `Vec` and no queue, but what stands in them.
impl Model for Bench {
    ghost use Rattle.benches.specs.Views.{View, allocation_of};

    ghost Value = { View };

    ghost view = { λ s. record { mem = s.disk.bytes.items; allocation = allocation_of s.disk.bytes; held = s.disk.held.items; fuses = s.supply.fuses.items; power = s.supply.power; left = s.choices.items } };
}
