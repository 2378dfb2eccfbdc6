ghost use Rattle.std.specs.Prelude.{◌≡◌, ◌++◌, string_bytes, IfOk};
ghost use Rattle.nighttexts.specs.Memories.{ends_block, placed_text, memory_text};

use std::alloc::AllocError;

// Whether a block of so many bytes ends with the byte at this place.
fn ends_block(span: usize, place: usize) -> bool
    ensures { result ≡ ends_block span place }
{
    span > 0 && place % span == span - 1
}

// A byte, and a line feed behind the last of a block.
#[tactic(auto, using(crate::proofs::TwoDigits::two_digits))]
fn write_byte(out: &mut String, span: usize, place: usize, byte: u8) -> Result<(), AllocError>
    ensures { IfOk result (λ _. string_bytes out.new ≡ string_bytes out.old ++ placed_text span place byte) }
{
    let end = if ends_block(span, place) { "\n" } else { "" };
    write!(out, "{byte:02x}{end}")
}

// The memory of a device, each block of so many bytes a line.
// After a want of memory nothing is said of what `out` holds.
pub fn memory(out: &mut String, span: usize, bytes: &[u8]) -> Result<(), AllocError>
    ensures { IfOk result (λ _. string_bytes out.new ≡ string_bytes out.old ++ memory_text span bytes.now) }
{
    for (place, byte) in bytes.iter().enumerate() { // place up to bytes.len() - 1
        write_byte(out, span, place, *byte)?;
    }
    Ok(())
}
