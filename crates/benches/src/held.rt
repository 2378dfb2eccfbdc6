ghost use Rattle.std.specs.Prelude.{◌≡◌, length};

use stores::BLOCK_BYTES;

// A write that is not settled yet. A clause sees the bytes as a list, and the invariant says that they are a block's.
#[derive(Clone, Copy)]
pub struct Held {
    pub block: u32,
    pub bytes: [u8; BLOCK_BYTES],
    ghost long: { length bytes ≡ 504 },
}
