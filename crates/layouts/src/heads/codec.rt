ghost use Rattle.std.specs.Prelude.{◌≡◌};
ghost use Rattle.std.specs.Option.{option_map};
ghost use Rattle.records.specs.Reading.{shown_as};
ghost use Rattle.layouts.specs.Heads.{front, head_fields, head_bytes, fields_at, fills, made_head, head_read, IsHeadOf, own_read};

use crate::entries::BLOCK_ENTRIES;
use crate::heads::Head;
use crate::shapes::Shape;
use faults::Fault;
use faults::Layer::Sampler;
use faults::Reason::BadHead;
use sampling::COUNT_LIMIT;
use stores::BLOCK_BYTES;

// The layout's version.
const VERSION: u8 = 1;

// How many bytes a head's fields take, as the head itself says in two bytes.
const LENGTH: u8 = 18;

// How many bytes of a head's block are not always zero: the version, the length and the fields.
const FRONT_BYTES: usize = 3 + LENGTH as usize;

impl Head {
    // The head with these fields, if they keep the limits.
    pub fn new(kind: u8, shape: Shape, seed: u64, count: u32, entries: u16) -> Option<Head>
        ensures { option_map head_fields result ≡ made_head (record { kind = kind; log_blocks = shape.log_blocks; size = shape.size; seed = seed; count = count; entries = entries }) }
    {
        let room = BLOCK_ENTRIES * u16::from(shape.log_blocks);
        if kind == 0 || count > COUNT_LIMIT || entries > room || u32::from(entries) > count {
            return None;
        }
        Some(Head {
            kind,
            shape,
            seed,
            count,
            entries,
        })
    }

    // The head that the fields at their places in a block make, whatever else stands there.
    fn at(block: &[u8; BLOCK_BYTES]) -> Option<Head>
        ensures { option_map head_fields result ≡ made_head (fields_at block.now) }
    {
        let size = u16::from_be_bytes([block[5], block[6]]);
        let shape = Shape::new(size, block[4]).ok()?;
        let seed = u64::from_be_bytes([
            block[7], block[8], block[9], block[10], block[11], block[12], block[13], block[14],
        ]);
        let count = u32::from_be_bytes([block[15], block[16], block[17], block[18]]);
        let entries = u16::from_be_bytes([block[19], block[20]]);
        Head::new(block[3], shape, seed, count, entries)
    }

    // The head's block.
    #[tactic(auto, unfolding(crate::specs::Heads::fields_bytes))]
    pub fn encode(&self) -> [u8; BLOCK_BYTES]
        ensures { result ≡ head_bytes self.now }
    {
        let mut block = [0; BLOCK_BYTES];
        block[..FRONT_BYTES].copy_from_slice(&self.front());
        block
    }

    // The first bytes of the block, those that are not always zero.
    fn front(&self) -> [u8; FRONT_BYTES]
        ensures { result ≡ front (head_fields self.now) }
    {
        let [a, b] = self.shape.size.to_be_bytes();
        let [c, d, e, f, g, h, i, j] = self.seed.to_be_bytes();
        let [k, l, m, n] = self.count.to_be_bytes();
        let [o, p] = self.entries.to_be_bytes();
        let logs = self.shape.log_blocks;
        [
            VERSION, 0, LENGTH, self.kind, logs, a, b, c, d, e, f, g, h, i, j, k, l, m, n, o, p,
        ]
    }

    // Whether a block is just this head's, in a store with room for its sample.
    fn fills(&self, block: &[u8; BLOCK_BYTES], store_size: u32) -> bool
        ensures { result ≡ fills store_size block.now (head_fields self.now) }
    {
        self.encode() == *block && self.shape.blocks() <= store_size
    }

    // The head that a block has in a store of so many blocks, or the refusal. A block is compared whole with the bytes of
    // the head that its fields make, so that the version, the length and the zeros stand in one place, where it is
    // encoded.
    pub fn decode(block: &[u8; BLOCK_BYTES], store_size: u32) -> Result<Head, Fault>
        ensures value { shown_as head_fields result ≡ head_read store_size block.now }
        ensures head { IsHeadOf store_size block.now result }
    {
        Head::at(block)
            .filter(|head| head.fills(block, store_size))
            .ok_or(Sampler.fault(BadHead, 0))
    }
}

// A head, read back from its own block, in a store of so many blocks.
pub fn reread(kept: &Head, store_size: u32) -> Result<Head, Fault>
    ensures { result ≡ own_read store_size kept.now }
{
    Head::decode(&kept.encode(), store_size)
}
