ghost use Rattle.std.specs.Prelude.{◌≡◌, [], drop};
ghost use Rattle.faults.specs.declared.faults.Layer.TheVariants.{Device};
ghost use Rattle.stores.specs.Admission.{powered};
ghost use Rattle.benches.specs.declared.power.Power.TheVariants.{Off, Lasting};
ghost use Rattle.benches.specs.Supplies.{is_on, started, spent, goes};

use crate::power::Power;
use faults::{Fault, Layer};
use std::collections::VecDeque;
use stores::powered;

// What a bench runs on, and the fuses that are left. Each restart lights the next fuse; past the last the power lasts.
#[derive(Drop)]
pub struct Supply {
    fuses: VecDeque<u32>,
    power: Power,
    ghost past_the_last: { power ≡ Lasting → fuses.items ≡ [] },
}

impl Supply {
    // A supply that is off.
    pub(crate) fn new(fuses: Vec<u32>) -> Supply
        ensures fuses { result.fuses.items ≡ fuses.items }
        ensures off { result.power ≡ Off }
    {
        Supply {
            fuses: VecDeque::from_vec(fuses),
            power: Power::Off,
        }
    }

    pub(crate) fn is_on(&self) -> bool
        ensures { result ≡ is_on self.now.power }
    {
        self.power.is_on()
    }

    // Lights the next fuse.
    pub(crate) fn start(&mut self)
        ensures power { self.new.power ≡ started self.old.fuses.items }
        ensures fuses { self.new.fuses.items ≡ drop 1 self.old.fuses.items }
    {
        self.power = match self.fuses.pop_front() {
            Some(writes) => Power::Fuse(writes),
            None => Power::Lasting,
        };
    }

    // Lets one write or flush through, or cuts it.
    pub(crate) fn spend(&mut self) -> Result<(), Fault>
        ensures value { result ≡ powered Device (goes self.old.power) }
        ensures power { self.new.power ≡ spent self.old.power }
        ensures fuses { self.new.fuses ≡ self.old.fuses }
    {
        self.power = self.power.spent();
        powered(Layer::Device, self.is_on())
    }
}
