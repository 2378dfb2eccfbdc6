use faults::{Fault, Layer, Reason};
use layouts::BLOCK_SLOTS;
use ledgers::{Answer, Call, Ledger};
use records::RecordKind;
use sampling::slot_of;
use std::alloc::{AllocError, Global};
use std::process::Abort;

// The device's supply fails.
pub(crate) const CUT: Fault = Fault {
    reason: Reason::Off,
    layer: Layer::Device,
    place: 0,
};

// A dark sampler.
const DARK: Fault = Fault {
    reason: Reason::Off,
    layer: Layer::Sampler,
    place: 0,
};

// What is known of a sampler from its calls and their answers alone.
#[derive(Drop)]
pub(crate) struct Account<K: RecordKind> {
    size: u16,
    seed: u64,
    ledger: Ledger<K>,
    records: Vec<K>,
    // How many were counted at the last refresh that was accepted, and at the last that was cut after it: that one may stand
    // on the card too.
    refreshed: usize,
    cut_at: Option<usize>,
    // A refusal that is allowed beside cuts and the dark.
    allowed: Option<Fault>,
    pub(crate) refused: u32,
    pub(crate) cuts: u32,
    // Whether all that was entered fits.
    pub(crate) fits: bool,
}

// What has to be so of the night with this cut and this choice, or these two cuts. One function says it for all, since an
// assertion costs the check some seconds wherever it stands, and a call next to nothing.
pub(crate) fn holds(rt: &impl Abort, fine: bool, cut: u32, then: u32) {
    assert!(rt; fine, "{cut} {then}");
}

// More than the records of any night here.
const MANY: u32 = 1000;

impl<K: RecordKind + PartialEq> Account<K> {
    // After an accepted format.
    pub(crate) fn opened(heap: Global, size: u16, seed: u64, allowed: Option<Fault>) -> Account<K> {
        Account {
            size,
            seed,
            ledger: Ledger::opened(heap),
            records: Vec::new(heap),
            refreshed: 0,
            cut_at: None,
            allowed,
            refused: 0,
            cuts: 0,
            fits: true,
        }
    }

    pub(crate) fn counted(&self) -> usize {
        self.records.len()
    }

    // The record in a slot, by what a sample is: of those with that slot the one whose number is greatest.
    fn kept(&self, slot: u16) -> Option<K> {
        let mut found = None;
        for (k, record) in (1..MANY).zip(self.records.iter()) { // k up to the number of records
            if slot_of(self.seed, self.size, k) == Some(slot) {
                found = Some(*record);
            }
        }
        found
    }

    // Why a slot with no record is refused.
    fn none_in(&self, slot: u16) -> Fault {
        let reason = if slot < self.size {
            Reason::EmptySlot
        } else {
            Reason::NoSuchSlot
        };
        Layer::Sampler.fault(reason, u64::from(slot))
    }

    // Whether a refresh after the first `since` records writes this sample block: whether one of the later has a slot in it.
    fn is_written(&self, block: u16, since: usize) -> bool {
        let mut found = false;
        for (k, _record) in (1..MANY).zip(self.records.iter()).skip(since) { // k up to the number of records
            if let Some(slot) = slot_of(self.seed, self.size, k) {
                found = found || slot / BLOCK_SLOTS == block;
            }
        }
        found
    }

    // How many sample blocks a refresh after the first `since` records writes.
    fn written(&self, since: usize) -> u32 {
        let mut found = 0u32;
        for block in 0..=self.size / BLOCK_SLOTS { // block up to size / 42
            if self.is_written(block, since) {
                found = found.saturating_add(1);
            }
        }
        found
    }

    // Whether a refresh may answer that it wrote so many sample blocks; it is the last.
    fn refreshes(&mut self, blocks: u32) -> bool {
        let may_be = self.cut_at.map(|since| self.written(since)) == Some(blocks);
        let is = self.written(self.refreshed) == blocks;
        self.refreshed = self.records.len();
        self.cut_at = None;
        is || may_be
    }

    // Whether an insert of this record may answer this slot; it is counted.
    fn inserts(&mut self, record: K, slot: Option<u16>) -> Result<bool, AllocError> {
        self.records.push(record)?;
        let number = u32::try_from(self.records.len()).ok();
        Ok(number.map(|k| slot_of(self.seed, self.size, k)) == Some(slot))
    }

    // Whether a mount may answer so many: as many as are settled, or as are waiting. A refresh of more does not stand.
    fn mounts(&mut self, count: u32) -> bool {
        let found = count as usize;
        self.records.truncate(found);
        self.cut_at = self.cut_at.filter(|since| *since <= found);
        found == self.ledger.settled() || Some(found) == self.ledger.waiting()
    }

    // Enters a cut of this call. A refresh that is cut may be on the card whole.
    fn loses(&mut self, call: &Call<K>) {
        self.cuts = self.cuts.saturating_add(1);
        if let Call::Refresh = call {
            self.cut_at = Some(self.records.len());
        }
    }

    // Whether a call may be refused so.
    fn refuses(&mut self, call: &Call<K>, fault: Fault) -> bool {
        if fault == CUT {
            self.loses(call);
            return true;
        }
        if fault == DARK {
            return !self.ledger.is_open();
        }
        self.refused = self.refused.saturating_add(1);
        Some(fault) == self.allowed
    }

    // Whether the call may be answered so, by all that was before. It is true of no call out of turn.
    fn admits(&mut self, call: &Call<K>, answer: &Answer<K>) -> Result<bool, AllocError> {
        Ok(match (call, answer) {
            (Call::Mount, Answer::Mounted(count)) => self.mounts(*count),
            (Call::Wake, Answer::Woken) | (Call::Close, Answer::Closed) => true,
            (Call::Slot(slot), Answer::Refused(fault)) if self.ledger.is_open() => {
                *fault == self.none_in(*slot) && self.kept(*slot).is_none()
            }
            (_, Answer::Refused(fault)) => self.refuses(call, *fault),
            _ => self.ledger.is_open() && self.serves(call, answer)?,
        })
    }

    // Whether a call that needs an open ledger may be accepted so.
    fn serves(&mut self, call: &Call<K>, answer: &Answer<K>) -> Result<bool, AllocError> {
        Ok(match (call, answer) {
            (Call::Insert(record), Answer::Inserted(slot)) => self.inserts(*record, *slot)?,
            (Call::Commit, Answer::Committed(count)) => *count as usize == self.records.len(),
            (Call::Refresh, Answer::Refreshed(blocks)) => self.refreshes(*blocks),
            (Call::Slot(slot), Answer::Found(record)) => self.kept(*slot) == Some(*record),
            _ => false,
        })
    }

    // Enters calls and their answers.
    pub(crate) fn enter(
        &mut self,
        calls: &[Call<K>],
        answers: &[Answer<K>],
    ) -> Result<(), AllocError> {
        self.fits = self.fits && calls.len() == answers.len();
        for (call, answer) in calls.iter().zip(answers) {
            let fine = self.admits(call, answer)?;
            self.ledger.feed(call, answer)?;
            self.fits = self.fits && fine && self.ledger.counted() == self.records.len();
        }
        Ok(())
    }

    // Enters the refusal of a format: that it was cut.
    pub(crate) fn cut(&mut self, fault: Fault) {
        self.cuts = 1;
        self.fits = self.fits && fault == CUT;
    }
}
