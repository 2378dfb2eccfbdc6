ghost use Rattle.std.specs.Prelude.{◌≡◌, true, false, refl};
ghost use Rattle.faults.specs.declared.faults.Layer.TheVariants.{Mirror as MirrorLayer};
ghost use Rattle.stores.specs.Calls.{reads, writes, flushes, restarts, response};
ghost use Rattle.stores.specs.Meanings.{Steadily};
ghost use Rattle.stores.specs.Outcomes.{ReadOutcome, WriteOutcome, FlushOutcome, RestartOutcome};
ghost use Rattle.mirrors.specs.Mirrors.{half, mirror_meaning, Paired};
ghost use Rattle.mirrors.specs.Views.{View, state_of};
ghost use Rattle.mirrors.specs.Below.{mirror_does};
ghost use Rattle.mirrors.specs.Laws.{mirror_lawful};

use crate::mirrors::Mirror;
use crate::mirrors::repairs::{half, mend, probe_both, put};
use faults::{Fault, Layer, Reason};
use stores::{SteadyStore, Store, admit, powered};

impl<S: Store> Mirror<S> {
    // A mirror over a store, off, with half as many blocks.
    pub fn new(below: S) -> Mirror<S>
        ensures { result ≡ record { below = below; on = false } }
    {
        Mirror { below, on: false }
    }

    // The store below, as the last call left it. A method as std's `into_inner`, of which no From can give every S.
    pub fn into_below(self) -> S
        ensures below { result ≡ self.below }
        ensures paired { self.on ≡ true → Paired (S.Store.meaning (S.Store.state result)) }
    {
        let Mirror { below, .. } = self;
        below
    }
}

// Each call turns the mirror off, works below with `?`, and turns it on. No function does that around a closure: it
// would have to say of any work what it leaves below, which is longer than the two lines.
// The trait's clauses stand again in each call, since a call that promises more has to repeat them: what is true of a
// mirror that is on is its type's own, which a caller cannot see there.
impl<S: Store> Store for Mirror<S> {
    ghost State = { View S.Store.State };

    ghost state = { state_of S.Store.state };

    ghost meaning = { λ s. mirror_meaning s.on (S.Store.meaning s.below) };

    ghost does = { mirror_does S.Store.meaning S.Store.does };

    ghost own = { MirrorLayer };

    ghost source = { S.Store.source };

    ghost steady = { true };

    ghost lawful = { λ s. mirror_lawful s.on (S.Store.meaning (S.Store.state s.below)) (S.Store.lawful s.below) };

    fn size(&self) -> u32 {
        half(&self.below)
    }

    fn read(&mut self, block: u32, buf: &mut [u8]) -> Result<(), Fault>
        ensures outcome { ReadOutcome 504 MirrorLayer S.Store.source (mirror_meaning self.old.on (S.Store.meaning (S.Store.state self.old.below))) (mirror_meaning self.new.on (S.Store.meaning (S.Store.state self.new.below))) block buf.old buf.new result }
        ensures sound { Steadily true (mirror_meaning self.old.on (S.Store.meaning (S.Store.state self.old.below))) (mirror_meaning self.new.on (S.Store.meaning (S.Store.state self.new.below))) }
        ensures exact { mirror_does S.Store.meaning S.Store.does (state_of S.Store.state self.old) (reads block buf.old) (record { answer = result; buffer = buf.new; next = state_of S.Store.state self.new }) }
        ensures paired { self.new.on ≡ true → Paired (S.Store.meaning (S.Store.state self.new.below)) }
    {
        let half = half(&self.below);
        admit(Layer::Mirror, half, self.on, block, buf.len())?;
        // Off until the copies are read, so that a fault on the way leaves the mirror off.
        self.on = false;
        let found = probe_both(&mut self.below, block, half + block)?;
        self.on = true;
        buf.copy_from_slice(&found.ok_or(Layer::Mirror.fault(Reason::Torn, u64::from(block)))?);
        Ok(())
    }

    fn write(&mut self, block: u32, bytes: &[u8]) -> Result<(), Fault>
        ensures outcome { WriteOutcome 504 MirrorLayer S.Store.source (mirror_meaning self.old.on (S.Store.meaning (S.Store.state self.old.below))) (mirror_meaning self.new.on (S.Store.meaning (S.Store.state self.new.below))) block bytes.now result }
        ensures sound { Steadily true (mirror_meaning self.old.on (S.Store.meaning (S.Store.state self.old.below))) (mirror_meaning self.new.on (S.Store.meaning (S.Store.state self.new.below))) }
        ensures exact { mirror_does S.Store.meaning S.Store.does (state_of S.Store.state self.old) (writes block bytes.now) (response result (state_of S.Store.state self.new)) }
        ensures paired { self.new.on ≡ true → Paired (S.Store.meaning (S.Store.state self.new.below)) }
    {
        let half = half(&self.below);
        admit(Layer::Mirror, half, self.on, block, bytes.len())?;
        // Off until both copies are settled, so that a fault on the way leaves the mirror off.
        self.on = false;
        put(&mut self.below, block, bytes)?;
        put(&mut self.below, half + block, bytes)?;
        self.on = true;
        Ok(())
    }

    fn flush(&mut self) -> Result<(), Fault>
        ensures outcome { FlushOutcome MirrorLayer S.Store.source (mirror_meaning self.old.on (S.Store.meaning (S.Store.state self.old.below))) (mirror_meaning self.new.on (S.Store.meaning (S.Store.state self.new.below))) result }
        ensures sound { Steadily true (mirror_meaning self.old.on (S.Store.meaning (S.Store.state self.old.below))) (mirror_meaning self.new.on (S.Store.meaning (S.Store.state self.new.below))) }
        ensures exact { mirror_does S.Store.meaning S.Store.does (state_of S.Store.state self.old) flushes (response result (state_of S.Store.state self.new)) }
        ensures paired { self.new.on ≡ true → Paired (S.Store.meaning (S.Store.state self.new.below)) }
    {
        powered(Layer::Mirror, self.on)?;
        self.on = false;
        self.below.flush()?;
        self.on = true;
        Ok(())
    }

    fn restart(&mut self) -> Result<(), Fault>
        ensures outcome { RestartOutcome S.Store.source (mirror_meaning self.old.on (S.Store.meaning (S.Store.state self.old.below))) (mirror_meaning self.new.on (S.Store.meaning (S.Store.state self.new.below))) result }
        ensures sound { Steadily true (mirror_meaning self.old.on (S.Store.meaning (S.Store.state self.old.below))) (mirror_meaning self.new.on (S.Store.meaning (S.Store.state self.new.below))) }
        ensures exact { mirror_does S.Store.meaning S.Store.does (state_of S.Store.state self.old) restarts (response result (state_of S.Store.state self.new)) }
        ensures paired { self.new.on ≡ true → Paired (S.Store.meaning (S.Store.state self.new.below)) }
    {
        self.on = false;
        self.below.restart()?;
        mend(&mut self.below)?;
        self.on = true;
        Ok(())
    }
}

impl<S: Store> SteadyStore for Mirror<S> {
    ghost is_steady = { refl };
}
