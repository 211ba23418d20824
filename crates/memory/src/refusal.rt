//! Refusals.
ghost use Rattle.std.specs.Prelude.{◌≡◌, Some, decimal};
ghost use Rattle.memory.specs.Numbers.{refusal_number};

use std::error::Error;
use std::fmt;

/// Why something was refused.
#[derive(Clone, Copy, PartialEq, Eq, Debug)]
pub enum Refusal {
    /// A poke or an opening while a run is open.
    RunOpen,
    /// A call of a run while none is open.
    NoRun,
    /// A root, or a frame to poke, that has no words.
    NoWords,
    /// Fewer than 2 slots, or more than 8.
    SlotCount,
    /// An access to an address that is no multiple of 4.
    Unaligned,
    /// A fault waits to be settled.
    FaultPending,
    /// As many calls are counted as may be.
    CallLimit,
    /// A poke past the last word of a frame.
    WordIndex,
    /// A partition of no frame, or of one that no memory has.
    PartitionRange,
    /// A fault to be settled that is not the pending one.
    OtherFault,
}

/// The number that users know a refusal by.
impl From<Refusal> for u8 {
    ghost from_gives = { λ r n. n ≡ refusal_number r };

    fn from(refusal: Refusal) -> u8 {
        match refusal {
            Refusal::RunOpen => 1,
            Refusal::NoRun => 2,
            Refusal::NoWords => 3,
            Refusal::SlotCount => 4,
            Refusal::Unaligned => 5,
            Refusal::FaultPending => 6,
            Refusal::CallLimit => 7,
            Refusal::WordIndex => 8,
            Refusal::PartitionRange => 9,
            Refusal::OtherFault => 10,
        }
    }
}

/// A refusal is printed as its number.
impl fmt::Display for Refusal {
    ghost output = { λ r. Some (decimal (refusal_number r)) };

    fn fmt<W: fmt::Write>(&self, f: &mut fmt::Formatter<W>) -> fmt::Result {
        write!(f, "{}", u8::from(*self))
    }
}

impl Error for Refusal {}

/// A refusal, with what was handed in.
#[derive(Drop)]
pub struct Refused<T> {
    pub refusal: Refusal,
    pub back: T,
}
