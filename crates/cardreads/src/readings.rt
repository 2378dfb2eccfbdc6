ghost use Rattle.std.specs.Prelude.{◌≡◌, vec_len};
ghost use Rattle.layouts.specs.Heads.{head_fields};
ghost use Rattle.cards.specs.Cards.{filled};

use layouts::Head;
use records::RecordKind;

// A card that was read: its head, and the record of each filled slot, slot 0 first.
#[derive(Drop)]
pub struct Reading<K: RecordKind> {
    pub head: Head,
    pub records: Vec<K>,
    ghost kind: { head.kind ≡ K.CODE },
    ghost slots: { vec_len records ≡ filled (head_fields head) },
}
