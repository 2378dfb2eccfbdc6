ghost use Rattle.std.specs.Prelude.{◌≡◌};
ghost use Rattle.storeparsing.specs.Stacks.{device_named, stack_of, read_stack};
ghost use Rattle.words.specs.Words.{texts};

use stores::BLOCK_LIMIT;
use storescript::{Device, Expected, Stack};
use words::number_within;

// The device that a word names.
fn device(word: &str) -> Option<Device>
    ensures { result ≡ device_named word.now }
{
    match word {
        "image" => Some(Device::Image),
        "bench" => Some(Device::Bench),
        _ => None,
    }
}

// A device's name and BLOCKS.
fn on_device(mirrored: bool, name: &str, size: &str) -> Result<Stack, Expected>
    ensures { result ≡ stack_of mirrored name.now size.now }
{
    let device = device(name).ok_or(Expected::StackWords)?;
    let blocks = number_within(size, BLOCK_LIMIT).ok_or(Expected::Blocks)?;
    Ok(Stack {
        device,
        mirrored,
        blocks,
    })
}

// The words after `stack`.
#[tactic(auto, using(crate::proofs::Shapes::not_mirrored))]
pub(crate) fn stack(words: &[&str]) -> Result<Stack, Expected>
    ensures { result ≡ read_stack (texts words.now) }
{
    match words {
        [device, blocks] => on_device(false, device, blocks),
        ["mirror", device, blocks] => on_device(true, device, blocks),
        _ => Err(Expected::StackWords),
    }
}
