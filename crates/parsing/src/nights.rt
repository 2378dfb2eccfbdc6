ghost use Rattle.std.specs.Prelude.{◌≡◌, map};
ghost use Rattle.languages.specs.Scripts.{Added};
ghost use Rattle.parsing.specs.Cards.{format_numbers, read_format, sleeps, begin_night, ask_in_last, add_night};
ghost use Rattle.parsing.specs.Words.{and_then};
ghost use Rattle.script.specs.Plans.{night_plan};
ghost use Rattle.script.specs.Shown.{ask_shown, night_shown};
ghost use Rattle.words.specs.Words.{texts};

use crate::asks::{ask, awake_at_end};
use crate::inserts::FromWords;
use crate::numerals::{byte, half, seed};
use failures::Failure;
use script::{Ask, Expected, Night};
use std::alloc::Global;

// M, LOG and SEED.
fn format_numbers(size: &str, log_blocks: &str, seed_word: &str) -> Result<(u16, u8, u64), Expected>
    ensures { result ≡ format_numbers size.now log_blocks.now seed_word.now }
{
    let size = half(size).ok_or(Expected::Size)?;
    let log_blocks = byte(log_blocks).ok_or(Expected::LogBlocks)?;
    let seed = seed(seed_word).ok_or(Expected::Seed)?;
    Ok((size, log_blocks, seed))
}

// The words after `format`.
fn format(words: &[&str]) -> Result<(u16, u8, u64), Expected>
    ensures { result ≡ read_format (texts words.now) }
{
    let [size, log_blocks, seed] = words else {
        return Err(Expected::FormatWords);
    };
    format_numbers(size, log_blocks, seed)
}

// Whether the sampler of the last night, if there is one, sleeps at its end.
fn sleeps<K>(nights: &[Night<K>]) -> bool
    ensures { result ≡ sleeps (map night_plan nights.now) }
{
    match nights.last() {
        Some(night) => !awake_at_end(&night.asks),
        None => true,
    }
}

// Begins a further night.
fn begin<K: FromWords>(
    heap: Global,
    nights: &mut Vec<Night<K>>,
    words: &[&str],
) -> Result<(), Failure<Expected>>
    ensures { Added (λ n. night_shown K.fields (night_plan n)) (and_then (read_format (texts words.now)) (begin_night (map (λ n. night_shown K.fields (night_plan n)) nights.old.items))) nights.new.items result }
{
    let (size, log_blocks, seed) = format(words).map_err(Failure::Because)?;
    if !sleeps(nights) {
        return Err(Failure::Because(Expected::CloseFirst));
    }
    nights.push(Night {
        size,
        log_blocks,
        seed,
        asks: Vec::new(heap),
    })?;
    Ok(())
}

// Asks something more in the last night.
fn ask_more<K: FromWords>(
    nights: &mut Vec<Night<K>>,
    asked: Ask<K>,
) -> Result<(), Failure<Expected>>
    ensures { Added (λ n. night_shown K.fields (night_plan n)) (ask_in_last (map (λ n. night_shown K.fields (night_plan n)) nights.old.items) (ask_shown K.fields asked)) nights.new.items result }
{
    let last = nights
        .last_mut()
        .ok_or(Failure::Because(Expected::FormatFirst))?;
    last.asks.push(asked)?;
    Ok(())
}

// Adds a line to the nights.
pub(crate) fn add<K: FromWords>(
    heap: Global,
    nights: &mut Vec<Night<K>>,
    name: &str,
    words: &[&str],
) -> Result<(), Failure<Expected>>
    ensures { Added (λ n. night_shown K.fields (night_plan n)) (add_night K.read (map (λ n. night_shown K.fields (night_plan n)) nights.old.items) name.now (texts words.now)) nights.new.items result }
{
    if name == "format" {
        return begin(heap, nights, words);
    }
    let asked = ask::<K>(name, words).map_err(Failure::Because)?;
    ask_more(nights, asked)
}
