ghost use Rattle.std.specs.Prelude.{◌≡◌, ◌++◌, IfOk};
ghost use Rattle.script.specs.Calls.{slot_calls, calls_asked, calls_of, awake_after_call};

use crate::cards::{Ask, Night};
use ledgers::Call;
use std::alloc::{AllocError, Global};

// Whether a sampler is awake after a call, whatever else comes of it.
pub fn awake_after_call<K>(is_awake: bool, call: &Call<K>) -> bool
    ensures { result ≡ awake_after_call is_awake call.now }
{
    match call {
        Call::Wake => true,
        Call::Close => false,
        _ => is_awake,
    }
}

// Adds a look into every slot.
fn add_slots<K: Copy + Drop>(size: u16, calls: &mut Vec<Call<K>>) -> Result<(), AllocError>
    ensures { IfOk result (λ _. calls.new.items ≡ calls.old.items ++ slot_calls size) }
{
    for slot in 0..size { // slot up to size - 1
        calls.push(Call::Slot(slot))?;
    }
    Ok(())
}

// Adds what an ask calls.
fn add_asked<K: Copy + Drop>(
    ask: &Ask<K>,
    size: u16,
    calls: &mut Vec<Call<K>>,
) -> Result<(), AllocError>
    ensures { IfOk result (λ _. calls.new.items ≡ calls.old.items ++ calls_asked size ask.now) }
{
    match ask {
        Ask::Calls(call) => calls.push(*call)?,
        Ask::NoSuchRecord(_) => (),
        Ask::Report => add_slots(size, calls)?,
    }
    Ok(())
}

impl<K: Copy + Drop> Night<K> {
    // The calls that a night makes of the sampler after its format.
    pub fn calls(&self, heap: Global) -> Result<Vec<Call<K>>, AllocError>
        ensures { IfOk result (λ v. v.items ≡ calls_of self.now.size self.now.asks.items) }
    {
        let mut calls = Vec::new(heap);
        for ask in &self.asks {
            add_asked(ask, self.size, &mut calls)?;
        }
        Ok(calls)
    }
}
