ghost use Rattle.std.specs.Prelude.{◌≡◌};
ghost use Rattle.parsing.specs.Words.{reservoir_numbers, read_reservoir, of_blocks, plain_stack, mirrored_stack, read_stack};
ghost use Rattle.words.specs.Words.{texts};

use crate::numerals::{half, seed};
use script::{Expected, Stack, Steady};
use stores::BLOCK_LIMIT;
use words::number_within;

// M and SEED.
fn reservoir_numbers(size: &str, seed_word: &str) -> Result<(u16, u64), Expected>
    ensures { result ≡ reservoir_numbers size.now seed_word.now }
{
    let size = half(size).ok_or(Expected::Size)?;
    let seed = seed(seed_word).ok_or(Expected::Seed)?;
    Ok((size, seed))
}

// The words after `reservoir`.
pub(crate) fn reservoir(words: &[&str]) -> Result<(u16, u64), Expected>
    ensures { result ≡ read_reservoir (texts words.now) }
{
    let [size, seed] = words else {
        return Err(Expected::ReservoirWords);
    };
    reservoir_numbers(size, seed)
}

// A stack of so many blocks of the device.
fn of_blocks(steady: Steady, blocks: &str) -> Result<Stack, Expected>
    ensures { result ≡ of_blocks steady blocks.now }
{
    let blocks = number_within(blocks, BLOCK_LIMIT).ok_or(Expected::Blocks)?;
    Ok(Stack { steady, blocks })
}

// An image by itself; a bench by itself is not steady.
fn plain_stack(device: &str, blocks: &str) -> Result<Stack, Expected>
    ensures { result ≡ plain_stack device.now blocks.now }
{
    match device {
        "image" => of_blocks(Steady::Image, blocks),
        _ => Err(Expected::StackWords),
    }
}

// A mirror over a device.
fn mirrored_stack(mirror: &str, device: &str, blocks: &str) -> Result<Stack, Expected>
    ensures { result ≡ mirrored_stack mirror.now device.now blocks.now }
{
    if mirror != "mirror" {
        return Err(Expected::StackWords);
    }
    match device {
        "image" => of_blocks(Steady::MirroredImage, blocks),
        "bench" => of_blocks(Steady::MirroredBench, blocks),
        _ => Err(Expected::StackWords),
    }
}

// The words after `stack`.
pub(crate) fn stack(words: &[&str]) -> Result<Stack, Expected>
    ensures { result ≡ read_stack (texts words.now) }
{
    match words {
        [device, blocks] => plain_stack(device, blocks),
        [mirror, device, blocks] => mirrored_stack(mirror, device, blocks),
        _ => Err(Expected::StackWords),
    }
}
