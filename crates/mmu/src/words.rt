//! The words of a frame, all at once.
ghost use Rattle.std.specs.Prelude.{◌≡◌, ◌<◌};
ghost use Rattle.runs.specs.Laws.{word_at};
ghost use Rattle.runs.specs.Unit.{frame_list};

use memory::guest::{FRAME_WORDS, Frame, GuestMemory, Word};
use std::array;

/// The word at an index of a frame: 0 where the frame has none.
pub fn word_or_zero<M: GuestMemory>(memory: &M, frame: Frame, index: u32) -> Word
    ensures { result ≡ word_at (M.GuestMemory.frames memory.now) frame index }
{
    memory.read(frame, index).unwrap_or(0)
}

/// The words of a frame: all 0 where the frame has none.
pub fn frame_words<M: GuestMemory>(memory: &M, frame: Frame) -> [Word; FRAME_WORDS]
    ensures { result ≡ frame_list (M.GuestMemory.frames memory.now) frame }
{
    array::from_fn(
        |index| -> Word
            requires { index < 1024 }
            ensures { result ≡ word_at (M.GuestMemory.frames memory.entry.now) frame index }
        { word_or_zero(memory, frame, index as u32) },
    )
}
