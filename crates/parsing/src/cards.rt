ghost use Rattle.std.specs.Prelude.{◌≡◌};
ghost use Rattle.failures.specs.Answers.{UnlessMemory};
ghost use Rattle.parsing.specs.Words.{read_none};
ghost use Rattle.script.specs.declared.expectations.Expected.TheVariants.{Alone};
ghost use Rattle.parsing.specs.Cards.{has_bench, none_yet, before_format, to_bench, grow_nights, kind_of, read_kind, add_fuses, add_choices, set_kind, with_memory_printed, grow};
ghost use Rattle.languages.specs.Expecting.{shown};
ghost use Rattle.script.specs.Shown.{script_nights, script_card};
ghost use Rattle.words.specs.Words.{texts};

use crate::commands::none;
use crate::nights::add;
use crate::numerals::{bytes, wides};
use failures::Failure;
use script::{CardScenario, Expected, Nights, Steady};
use std::alloc::Global;

// Whether no night has begun.
fn none_yet(nights: &Nights) -> bool
    ensures { result ≡ none_yet (script_nights nights.now) }
{
    match nights {
        Nights::Offsets(nights) => nights.is_empty(),
        Nights::Events(nights) => nights.is_empty(),
    }
}

// Only a bench fails as it is told.
fn has_bench(steady: Steady) -> bool
    ensures { result ≡ has_bench steady }
{
    match steady {
        Steady::Image | Steady::MirroredImage => false,
        Steady::MirroredBench => true,
    }
}

// A kind, fuses and choices are told before the first format.
fn before_format(scenario: &CardScenario) -> Result<(), Expected>
    ensures { result ≡ before_format (script_card scenario.now) }
{
    if !none_yet(&scenario.nights) {
        return Err(Expected::BeforeFormat);
    }
    Ok(())
}

// Fuses and choices are told to a bench.
fn to_bench(scenario: &CardScenario) -> Result<(), Expected>
    ensures { result ≡ to_bench (script_card scenario.now) }
{
    if !has_bench(scenario.stack.steady) {
        return Err(Expected::BenchOnly);
    }
    before_format(scenario)
}

// The words after `fuses`.
fn fuses(heap: Global, scenario: &mut CardScenario, words: &[&str]) -> Result<(), Failure<Expected>>
    ensures { UnlessMemory (λ done. script_card scenario.new) (add_fuses (script_card scenario.old) (texts words.now)) result }
{
    let fuses = wides(heap, words, Expected::Fuse)?;
    to_bench(scenario).map_err(Failure::Because)?;
    scenario.fuses.extend_from_slice(&fuses)?;
    Ok(())
}

// The words after `choices`.
fn choices(
    heap: Global,
    scenario: &mut CardScenario,
    words: &[&str],
) -> Result<(), Failure<Expected>>
    ensures { UnlessMemory (λ done. script_card scenario.new) (add_choices (script_card scenario.old) (texts words.now)) result }
{
    let choices = bytes(heap, words, Expected::Choice)?;
    to_bench(scenario).map_err(Failure::Because)?;
    scenario.choices.extend_from_slice(&choices)?;
    Ok(())
}

// The nights of a kind, none yet.
fn kind_of(heap: Global, word: &str) -> Result<Nights, Expected>
    ensures { shown script_nights result ≡ kind_of word.now }
{
    match word {
        "offset" => Ok(Nights::Offsets(Vec::new(heap))),
        "event" => Ok(Nights::Events(Vec::new(heap))),
        _ => Err(Expected::KindWords),
    }
}

// The word after `kind`.
fn read_kind(heap: Global, words: &[&str]) -> Result<Nights, Expected>
    ensures { shown script_nights result ≡ read_kind (texts words.now) }
{
    let [kind] = words else {
        return Err(Expected::KindWords);
    };
    kind_of(heap, kind)
}

// Says of which kind the records are.
fn set_kind(heap: Global, scenario: &mut CardScenario, words: &[&str]) -> Result<(), Expected>
    ensures { shown (λ done. script_card scenario.new) result ≡ set_kind (script_card scenario.old) (texts words.now) }
{
    let nights = read_kind(heap, words)?;
    before_format(scenario)?;
    scenario.nights = nights;
    Ok(())
}

// Ends a scenario with the device's memory.
fn end(scenario: &mut CardScenario, words: &[&str]) -> Result<(), Expected>
    ensures { shown (λ done. script_card scenario.new) result ≡ shown (λ done. with_memory_printed (script_card scenario.old)) (read_none Alone (texts words.now)) }
{
    none(words, Expected::Alone)?;
    scenario.ends_with_memory = true;
    Ok(())
}

// Adds a line to the nights, by their kind.
fn grow_nights(
    heap: Global,
    nights: &mut Nights,
    name: &str,
    words: &[&str],
) -> Result<(), Failure<Expected>>
    ensures { UnlessMemory (λ done. script_nights nights.new) (grow_nights (script_nights nights.old) name.now (texts words.now)) result }
{
    match nights {
        Nights::Offsets(nights) => add(heap, nights, name, words)?,
        Nights::Events(nights) => add(heap, nights, name, words)?,
    }
    Ok(())
}

// Goes on with a card scenario. Nothing comes after `card`.
pub(crate) fn grow(
    heap: Global,
    scenario: &mut CardScenario,
    name: &str,
    words: &[&str],
) -> Result<(), Failure<Expected>>
    ensures { UnlessMemory (λ done. script_card scenario.new) (grow (script_card scenario.old) name.now (texts words.now)) result }
{
    if scenario.ends_with_memory {
        return Err(Failure::Because(Expected::CardLast));
    }
    match name {
        "fuses" => fuses(heap, scenario, words),
        "choices" => choices(heap, scenario, words),
        "kind" => set_kind(heap, scenario, words).map_err(Failure::Because),
        "card" => end(scenario, words).map_err(Failure::Because),
        _ => grow_nights(heap, &mut scenario.nights, name, words),
    }
}
