ghost use Rattle.std.specs.Prelude.{◌≡◌};
ghost use Rattle.records.specs.Reading.{shown_as};
ghost use Rattle.layouts.specs.Shapes.{sample_blocks, blocks, shape_fields, shape_of};

use crate::shapes::{LOG_LIMIT, Shape};
use crate::slots::BLOCK_SLOTS;
use faults::Fault;
use faults::Layer::Sampler;
use faults::Reason::OutOfLimits;
use sampling::SLOT_LIMIT;

impl Shape {
    // A sample of this size with a log of so many blocks, or the refusal of the first that is out of its limits.
    pub fn new(size: u16, log_blocks: u8) -> Result<Shape, Fault>
        ensures { shown_as shape_fields result ≡ shape_of size log_blocks }
    {
        if size == 0 || size > SLOT_LIMIT {
            return Err(Sampler.fault(OutOfLimits, u64::from(size)));
        }
        if log_blocks == 0 || log_blocks > LOG_LIMIT {
            return Err(Sampler.fault(OutOfLimits, u64::from(log_blocks)));
        }
        Ok(Shape { size, log_blocks })
    }

    // How many blocks the slots take.
    pub fn sample_blocks(self) -> u32
        ensures { result ≡ sample_blocks self.size }
    {
        u32::from(self.size.div_ceil(BLOCK_SLOTS))
    }

    // How many blocks the sample takes: its head, its sample blocks and its log.
    pub fn blocks(self) -> u32
        ensures { result ≡ blocks self.size self.log_blocks }
    {
        1 + self.sample_blocks() + u32::from(self.log_blocks)
    }
}
