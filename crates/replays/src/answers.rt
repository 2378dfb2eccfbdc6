ghost use Rattle.std.specs.Prelude.{◌≡◌};
ghost use Rattle.replays.specs.Answers.{value_of};

use stores::BLOCK_BYTES;

// What an accepted call answers. A block whose bytes are all the same is filled with that value, as the writes of a
// script leave it; one whose bytes are not, which only other writers leave, is mixed.
#[derive(Clone, Copy, Debug, PartialEq, Eq)]
pub enum Answer {
    Done,
    Filled(u8),
    Mixed,
}

impl Answer {
    // What a block reads.
    pub(crate) fn of_block(block: &[u8; BLOCK_BYTES]) -> Answer
        ensures { result ≡ value_of block.now }
    {
        let first = block[0];
        if block.iter().all(|byte| *byte == first) {
            Answer::Filled(first)
        } else {
            Answer::Mixed
        }
    }
}
