ghost use Rattle.std.specs.Prelude.{◌≡◌};
ghost use Rattle.stores.specs.Admission.{powered, admission};

use crate::stores::BLOCK_BYTES;
use faults::{Fault, Layer, Reason};

// What a store's own layer asks before it serves a call: that the store is on.
pub fn powered(own: Layer, on: bool) -> Result<(), Fault>
    ensures { result ≡ powered own on }
{
    if on {
        Ok(())
    } else {
        Err(own.fault(Reason::Off, 0))
    }
}

// What it asks before it reads or writes a block, in this order: a block in range, a buffer of a block's length, and
// that the store is on. Plain arguments: a struct of own, size and on would be made for each call.
pub fn admit(own: Layer, size: u32, on: bool, block: u32, length: usize) -> Result<(), Fault>
    ensures { result ≡ admission own size on block length }
{
    if block >= size {
        return Err(own.fault(Reason::NoSuchBlock, u64::from(block)));
    }
    if length != BLOCK_BYTES {
        return Err(own.fault(Reason::WrongLength, length as u64));
    }
    powered(own, on)
}
