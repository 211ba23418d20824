//! What a guest memory is.
ghost use Rattle.std.specs.Prelude.{◌≡◌, ℕ, ◌≤◌, false};
ghost use Rattle.memory.specs.Memory.{Memory, Wraps, frame_limit, has_words, read_at, stored, write_at};
ghost use Rattle.memory.specs.Numbers.{read_answer, write_answer};

/// A word of guest memory.
pub type Word = u32;

/// The number of a frame.
pub type Frame = u32;

/// The words of a frame.
pub const FRAME_WORDS: usize = 1024;

/// No frame from this number up has words.
pub const FRAME_LIMIT: Frame = 4096;

/// Why a frame has no words: a number that the memory gives.
// Not an enum: the trait is open, and each memory gives causes of its own, so there is no list of kinds.
#[derive(Clone, Copy, PartialEq, Eq, Debug)]
pub struct Cause {
    pub number: u32,
}

/// A memory by frame and index. Each frame has 1,024 words, or a cause for having none; an index counts modulo 1,024.
pub trait GuestMemory {
    ghost frames: { Self → Memory };

    /// The word at an index of a frame, or the frame's cause.
    fn read(&self, frame: Frame, index: u32) -> Result<Word, Cause>
        ensures { read_answer result ≡ read_at (frames self.now frame) index };

    /// Changes one word; where the frame has a cause, answers that and changes nothing.
    fn write(&mut self, frame: Frame, index: u32, word: Word) -> Result<(), Cause>
        ensures answer { write_answer result ≡ write_at (frames self.old frame) }
        ensures after { frames self.new ≡ stored (frames self.old) frame index word };

    ghost bounded: { (m : Self) (f : ℕ) → frame_limit ≤ f → has_words (frames m f) ≡ false };

    ghost wraps: { (m : Self) (f : ℕ) → Wraps (frames m f) };
}
