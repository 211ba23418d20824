//! Flat memory.
ghost use Rattle.std.specs.Prelude.{◌≡◌, ◌*◌, IfOk, replicate};
ghost use Rattle.memory.specs.Flat.{ToldWhole, flat, position_of};
ghost use Rattle.std.proofs.Common.{rules};

use crate::guest::{Cause, FRAME_LIMIT, FRAME_WORDS, Frame, GuestMemory, Word};
use std::alloc::{AllocError, Global};

/// The cause of a frame that is not whole.
const NOT_WHOLE: Cause = Cause { number: 1 };

/// The whole frames of a store of words, at most 4,096 of them. A rest that fills no frame is never read or written.
#[derive(Drop)]
pub struct Flat {
    pub store: Vec<Word>,
}

impl Flat {
    /// So many frames, with all words 0.
    pub fn zeroed(heap: Global, frames: Frame) -> Result<Flat, AllocError>
        ensures { IfOk result (λ memory. memory.store.items ≡ replicate (frames * 1024) 0) }
    {
        let store = vec![in heap; 0u32; frames as usize * FRAME_WORDS]?;
        Ok(Flat { store })
    }

    /// Is the frame whole in the store? Where it is not, its cause is told.
    // An `if` and not `then_some(()).ok_or(..)`, which says the same less plainly.
    fn whole(&self, frame: Frame) -> Result<(), Cause>
        ensures { ToldWhole self.now.store.items frame result }
    {
        if frame < FRAME_LIMIT && (frame as usize) < self.store.len() / FRAME_WORDS {
            Ok(())
        } else {
            Err(NOT_WHOLE)
        }
    }
}

/// Where the word at an index of a frame stands in the store.
fn position(frame: Frame, index: u32) -> usize
    ensures { result ≡ position_of frame index }
{
    frame as usize * FRAME_WORDS + index as usize % FRAME_WORDS
}

impl GuestMemory for Flat {
    ghost frames = { λ m. flat m.store.items };

    ghost bounded = { Prim.search rules };

    ghost wraps = { Prim.search rules };

    fn read(&self, frame: Frame, index: u32) -> Result<Word, Cause> {
        self.whole(frame)?;
        Ok(self.store[position(frame, index)])
    }

    fn write(&mut self, frame: Frame, index: u32, word: Word) -> Result<(), Cause> {
        self.whole(frame)?;
        self.store[position(frame, index)] = word;
        Ok(())
    }
}
