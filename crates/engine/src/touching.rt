//! The load or store itself.
ghost use Rattle.std.specs.Prelude.{◌≡◌};
ghost use Rattle.engine.specs.Steps.{store_at};
ghost use Rattle.runs.specs.Unit.{value_of};
ghost use Rattle.walk.specs.Marking.{put_all};
ghost use Rattle.walk.specs.Numbers.{asked};

use memory::guest::{Frame, GuestMemory, Word};
use mmu::words::word_or_zero;
use paging::access::Kind;
use walk::fault::Access;
use walk::path::word_index;

/// Reads the word of a load or a fetch, or writes that of a store, in the frame that the access reaches.
pub fn touch<M: GuestMemory>(memory: &mut M, access: Access, word: Word, frame: Frame) -> Word
    ensures value { result ≡ value_of (asked access) word (M.GuestMemory.frames memory.old) frame }
    ensures after { M.GuestMemory.frames memory.new ≡ put_all (M.GuestMemory.frames memory.old) (store_at (asked access) word frame) }
{
    let index = word_index(access.address);
    match access.kind {
        Kind::Store => {
            let _ = memory.write(frame, index, word);
            word
        }
        Kind::Load | Kind::Fetch => word_or_zero(memory, frame, index),
    }
}
