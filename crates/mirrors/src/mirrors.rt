use std::marker::Model;
use stores::Store;

pub mod repairs;
pub mod stored;

// A store over another one by value, with half as many blocks. Block b has its first copy at block b below and its
// second at half + b. While a mirror is on, both copies of each block read the same. It is on or off by a flag and not
// by its type, since a fault turns the same value off.
#[derive(Drop)]
pub struct Mirror<S: Store> {
    below: S,
    on: bool,
}

impl<S: Store> Model for Mirror<S> {
    ghost use Rattle.std.specs.Prelude.{◌≡◌, true};
    ghost use Rattle.mirrors.specs.Mirrors.{Paired};
    ghost use Rattle.mirrors.specs.Views.{View};

    ghost Value = { View S };

    ghost view = { λ m. record { below = m.below; on = m.on } };

    ghost invariant = { λ m. m.on ≡ true → Paired (S.Store.meaning (S.Store.state m.below)) };
}
