ghost use Rattle.std.specs.Prelude.{◌≡◌, ℕ, cond, List, [], ◌++◌, string_bytes, IfOk};
ghost use Rattle.nighttexts.specs.Memories.{memory_text};
ghost use Rattle.script.specs.Plans.{night_plans, card_plan};
ghost use Rattle.transcripts.specs.Cards.{span, NightLines, CardLines};

use nights::{Played, play};
use nighttexts::{event_nights, memory, offset_nights};
use script::{CardScenario, Nights, Stack, Steady};
use std::alloc::{AllocError, Global};
use stores::BLOCK_BYTES;

// How many bytes a device has for a block: a bench has one more, which says whether the block is torn.
fn span(steady: Steady) -> usize
    ensures { result ≡ span steady }
{
    match steady {
        Steady::Image | Steady::MirroredImage => BLOCK_BYTES,
        Steady::MirroredBench => BLOCK_BYTES + 1,
    }
}

// Plays nights and writes their lines. The device's memory is what they leave.
fn write_nights(
    heap: Global,
    out: &mut String,
    stack: Stack,
    fuses: Vec<u32>,
    choices: Vec<u8>,
    nights: Nights,
) -> Result<Vec<u8>, AllocError>
    ensures { IfOk result (λ left. (here : List ℕ) × NightLines stack fuses.items choices.items (night_plans nights) here left.items × (string_bytes out.new ≡ string_bytes out.old ++ here)) }
{
    match nights {
        Nights::Offsets(nights) => {
            let Played { outcomes, memory } = play(heap, stack, fuses, choices, &nights)?;
            offset_nights(heap, out, &nights, &outcomes)?;
            Ok(memory)
        }
        Nights::Events(nights) => {
            let Played { outcomes, memory } = play(heap, stack, fuses, choices, &nights)?;
            event_nights(heap, out, &nights, &outcomes)?;
            Ok(memory)
        }
    }
}

// Writes the device's memory, where the script asks for it.
fn write_left(
    out: &mut String,
    is_asked: bool,
    steady: Steady,
    left: &[u8],
) -> Result<(), AllocError>
    ensures { IfOk result (λ done. string_bytes out.new ≡ string_bytes out.old ++ cond is_asked (memory_text (span steady) left.now) []) }
{
    if is_asked {
        memory(out, span(steady), left)?;
    }
    Ok(())
}

// Plays a card scenario and writes its lines.
pub(crate) fn card(heap: Global, out: &mut String, scenario: CardScenario) -> Result<(), AllocError>
    ensures { IfOk result (λ done. (here : List ℕ) × CardLines (card_plan scenario) here × (string_bytes out.new ≡ string_bytes out.old ++ here)) }
{
    let CardScenario {
        stack,
        fuses,
        choices,
        nights,
        ends_with_memory,
    } = scenario;
    let left = write_nights(heap, out, stack, fuses, choices, nights)?;
    write_left(out, ends_with_memory, stack.steady, &left)
}
