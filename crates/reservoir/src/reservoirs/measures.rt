ghost use Rattle.std.specs.Prelude.{◌≡◌, ◌≤◌, length};
ghost use Rattle.reservoir.specs.Keeps.{OfKept};

use crate::reservoirs::Reservoir;
use records::RecordKind;

impl<K: RecordKind> Reservoir<K> {
    // How many records were counted.
    pub fn count(&self) -> u32
        ensures { OfKept self.now (λ seed size rs. result ≡ length rs) }
    {
        self.count
    }

    // How many slots there are, filled or not.
    pub fn size(&self) -> u16
        ensures value { OfKept self.now (λ seed size rs. result ≡ size) }
        ensures bound { result ≤ 672 }
    {
        self.size
    }
}
