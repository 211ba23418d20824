//! A partition is a guest memory.
ghost use Rattle.memory.specs.Partition.{Built, parted};
ghost use Rattle.std.proofs.Common.{rules};

use super::Partition;
use crate::guest::{Cause, FRAME_LIMIT, Frame, GuestMemory, Word};
use crate::refusal::{Refusal, Refused};

/// The cause of a frame that a partition has not.
const OUTSIDE: Cause = Cause { number: 2 };

impl<M> Partition<M> {
    /// A partition of a memory. Refused where it would have no frame, or one that no memory has.
    pub fn new(memory: M, first: Frame, count: Frame) -> Result<Partition<M>, Refused<M>>
        ensures { Built memory first count result }
    {
        if count == 0 || first.checked_add(count).is_none_or(|end| end > FRAME_LIMIT) {
            return Err(Refused {
                refusal: Refusal::PartitionRange,
                back: memory,
            });
        }
        Ok(Partition {
            under: memory,
            first,
            count,
        })
    }
}

impl<M: GuestMemory> GuestMemory for Partition<M> {
    ghost frames = { λ p. parted (M.GuestMemory.frames p.under) p.first p.count };

    ghost bounded = { Prim.search rules };

    ghost wraps = { Prim.search rules };

    // A form that the project fixes: a memory's cause passes by `?`, here as in the walk above.
    fn read(&self, frame: Frame, index: u32) -> Result<Word, Cause> {
        if frame < self.count {
            let word = self.under.read(self.first + frame, index)?;
            Ok(word)
        } else {
            Err(OUTSIDE)
        }
    }

    fn write(&mut self, frame: Frame, index: u32, word: Word) -> Result<(), Cause> {
        if frame < self.count {
            self.under.write(self.first + frame, index, word)?;
            Ok(())
        } else {
            Err(OUTSIDE)
        }
    }
}
