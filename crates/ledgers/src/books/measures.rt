ghost use Rattle.std.specs.Prelude.{◌≡◌, length};

use crate::books::Ledger;

impl<K: Copy + Drop> Ledger<K> {
    // The number of records counted.
    pub fn counted(&self) -> usize
        ensures { result ≡ length self.now.counted }
    {
        self.counted.len()
    }

    // How many of them are settled.
    pub fn settled(&self) -> usize
        ensures { result ≡ self.now.settled }
    {
        self.settled
    }

    // How many are waiting to be settled, where a commit or a refresh met a store that went off.
    pub fn waiting(&self) -> Option<usize>
        ensures { result ≡ self.now.waiting }
    {
        self.waiting
    }

    pub fn is_open(&self) -> bool
        ensures { result ≡ self.now.is_open }
    {
        self.is_open
    }
}
