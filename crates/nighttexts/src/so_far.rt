ghost use Rattle.std.specs.Prelude.{◌≡◌, ◌++◌, string_bytes, IfOk};
ghost use Rattle.nighttexts.specs.Nights.{ask_text, after_call, after_calls, after_ask, called_text, night_begun};
ghost use Rattle.script.specs.Calls.{slot_calls};
ghost use Rattle.script.specs.declared.cards.Ask.TheVariants.{Report};

use crate::calls::write_call;
use crate::kinds::Worded;
use crate::reports::write_report;
use faults::FaultNumbers;
use ledgers::{Answer, Call, Ledger};
use script::{Ask, awake_after_call};
use std::alloc::{AllocError, Global};
use std::marker::Model;

// How far a night is printed.
#[derive(Drop)]
pub(crate) struct NightSoFar<'a, K: Copy + Drop> {
    ledger: Ledger<K>,
    is_awake: bool,
    // The answers still to come.
    rest: &'a [Answer<K>],
}

impl<'a, K: Copy + Drop> Model for NightSoFar<'a, K> {
    ghost use Rattle.nighttexts.specs.Nights as nights;

    ghost Value = { nights.NightSoFar K };

    ghost view = { λ s. record { ledger = s.ledger; is_awake = s.is_awake; rest = s.rest.now } };
}

impl<'a, K: Worded> NightSoFar<'a, K> {
    // At the beginning of a night.
    pub(crate) fn begun(heap: Global, answers: &'a [Answer<K>]) -> Self
        ensures { result ≡ night_begun answers.now }
    {
        NightSoFar {
            ledger: Ledger::opened(heap),
            is_awake: false,
            rest: answers,
        }
    }

    // A call takes the first of the answers, if there is one.
    fn take_answer(&mut self, call: &Call<K>) -> Result<(), AllocError>
        ensures { IfOk result (λ _. self.new ≡ after_call self.old call.now self.old.rest) }
    {
        if let [answer, rest @ ..] = self.rest {
            self.ledger.feed(call, answer)?;
            self.is_awake = awake_after_call(self.is_awake, call);
            self.rest = rest;
        }
        Ok(())
    }

    // The slot calls of a report take theirs.
    fn take_slots(&mut self, size: u16) -> Result<(), AllocError>
        ensures { IfOk result (λ _. self.new ≡ after_calls self.old (slot_calls size)) }
    {
        for slot in 0..size { // slot up to size - 1
            self.take_answer(&Call::Slot(slot))?;
        }
        Ok(())
    }

    // An ask takes the answers of its calls.
    fn take_answers(&mut self, size: u16, ask: &Ask<K>) -> Result<(), AllocError>
        ensures { IfOk result (λ _. self.new ≡ after_ask size self.old ask.now) }
    {
        match ask {
            Ask::Calls(call) => self.take_answer(call),
            Ask::NoSuchRecord(_) => Ok(()),
            Ask::Report => self.take_slots(size),
        }
    }

    // A call's line, if it was answered.
    fn write_called(&self, out: &mut String, call: &Call<K>) -> Result<(), AllocError>
        ensures { IfOk result (λ _. string_bytes out.new ≡ string_bytes out.old ++ called_text K.words call.now self.now.rest) }
    {
        if let [answer, ..] = self.rest {
            write_call(out, call, answer)?;
        }
        Ok(())
    }

    // The ledger and the sample as they stand.
    fn write_report(&self, heap: Global, out: &mut String, size: u16) -> Result<(), AllocError>
        ensures { IfOk result (λ _. string_bytes out.new ≡ string_bytes out.old ++ ask_text K.words K.summary size self.now Report) }
    {
        let own = usize::from(size).min(self.rest.len());
        let (answers, _) = self.rest.split_at(own);
        write_report(heap, out, &self.ledger, self.is_awake, answers)
    }

    // What an ask prints. It takes the answers of its calls.
    pub(crate) fn write_ask(
        &mut self,
        heap: Global,
        out: &mut String,
        size: u16,
        ask: &Ask<K>,
    ) -> Result<(), AllocError>
        ensures text { IfOk result (λ _. string_bytes out.new ≡ string_bytes out.old ++ ask_text K.words K.summary size self.old ask.now) }
        ensures after { IfOk result (λ _. self.new ≡ after_ask size self.old ask.now) }
    {
        match ask {
            Ask::Calls(call) => self.write_called(out, call)?,
            Ask::NoSuchRecord(fault) => writeln!(out, "insert refused {}", FaultNumbers(*fault))?,
            Ask::Report => self.write_report(heap, out, size)?,
        }
        self.take_answers(size, ask)
    }
}
