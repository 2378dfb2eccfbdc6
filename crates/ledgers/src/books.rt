ghost use Rattle.std.specs.Prelude.{◌≡◌, vec_items, IfOk, OnErr};
ghost use Rattle.ledgers.specs.Ledgers.{opened, reopened, all_settled, begun_anew, shut, all_waiting, refused, fed, is_21, Adds};

pub mod measures;

use crate::calls::{Answer, Call};
use faults::{Fault, Reason};
use std::alloc::{AllocError, Global};
use std::marker::Model;

// What the calls of a sampler and their answers say, kept as they come.
#[derive(Drop)]
pub struct Ledger<K: Copy + Drop> {
    counted: Vec<K>,
    settled: usize,
    waiting: Option<usize>,
    is_open: bool,
    // How many were counted at the last accepted format or refresh.
    since: usize,
}

impl<K: Copy + Drop> Model for Ledger<K> {
    ghost use Rattle.std.specs.Prelude.{vec_items};
    ghost use Rattle.ledgers.specs.Ledgers as ledgers;

    ghost Value = { ledgers.Ledger K };

    ghost view = { λ b. record { counted = vec_items b.counted; settled = b.settled; waiting = b.waiting; is_open = b.is_open; since = b.since } };
}

impl<K: Copy + Drop> Ledger<K> {
    // The ledger after an accepted format.
    pub fn opened(heap: Global) -> Ledger<K>
        ensures { result ≡ opened }
    {
        Ledger {
            counted: Vec::new(heap),
            settled: 0,
            waiting: None,
            is_open: true,
            since: 0,
        }
    }

    // After an accepted mount.
    fn reopen(&mut self, count: u32)
        ensures { self.new ≡ reopened count self.old }
    {
        self.counted.truncate(count as usize);
        self.settled = count as usize;
        self.waiting = None;
        self.is_open = true;
    }

    // After an accepted commit, and after a refresh.
    fn settle(&mut self)
        ensures { self.new ≡ all_settled self.old }
    {
        self.settled = self.counted.len();
        self.waiting = None;
    }

    // After an accepted refresh.
    fn begin_anew(&mut self)
        ensures { self.new ≡ begun_anew (all_settled self.old) }
    {
        self.settle();
        self.since = self.counted.len();
    }

    fn shut(&mut self)
        ensures { self.new ≡ shut self.old }
    {
        self.is_open = false;
    }

    // After a commit or a refresh that was refused since the store is off.
    fn leave_waiting(&mut self)
        ensures { self.new ≡ shut (all_waiting self.old) }
    {
        if self.is_open {
            self.waiting = Some(self.counted.len());
        }
        self.is_open = false;
    }

    // After a refusal of this call.
    fn refuse(&mut self, call: &Call<K>, fault: Fault)
        ensures { self.new ≡ refused call.now fault self.old }
    {
        let is_off = fault.reason == Reason::Off;
        match call {
            Call::Mount => self.shut(),
            Call::Commit | Call::Refresh if is_off => self.leave_waiting(),
            _ if is_off => self.shut(),
            _ => {}
        }
    }

    // What a call and its answer do to it. A want of memory leaves it as it was, and only an accepted insert may meet it.
    pub fn feed(&mut self, call: &Call<K>, answer: &Answer<K>) -> Result<(), AllocError>
        ensures done { IfOk result (λ _. self.new ≡ fed self.old call.now answer.now) }
        ensures kept { OnErr result (self.new ≡ self.old) }
        ensures short { OnErr result (Adds call.now answer.now) }
    {
        match (call, answer) {
            (Call::Mount, Answer::Mounted(count)) => self.reopen(*count),
            (Call::Insert(record), Answer::Inserted(_)) => self.counted.push(*record)?,
            (Call::Commit, Answer::Committed(_)) => self.settle(),
            (Call::Refresh, Answer::Refreshed(_)) => self.begin_anew(),
            (Call::Close, Answer::Closed) => self.shut(),
            (_, Answer::Refused(fault)) => self.refuse(call, *fault),
            _ => {}
        }
        Ok(())
    }
}
