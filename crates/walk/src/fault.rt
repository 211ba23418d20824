//! What a walk is asked, and how it fails.
ghost use Rattle.std.specs.Prelude.{◌≡◌, ◌≢◌, MatchResult, Some};
ghost use Rattle.walk.specs.Names.{depth_name};
ghost use Rattle.walk.specs.Numbers.{depth_number};
ghost use Rattle.walk.specs.declared.fault.Depth.{Depth};

use memory::guest::{Cause, Frame};
use paging::access::{Address, Kind, Privilege};
use paging::format::{Level, Reason};
use std::error::Error;
use std::fmt;

/// An access to an address of the guest.
#[derive(Clone, Copy)]
pub struct Access {
    pub address: Address,
    pub kind: Kind,
    pub privilege: Privilege,
}

/// How far a walk has come: to an entry of a level, or to the frame that it was after.
#[derive(Clone, Copy, PartialEq, Eq, Debug)]
pub enum Depth {
    Entry(Level),
    Target,
}

/// A number that is no depth's.
#[derive(Clone, Copy, PartialEq, Eq, Debug)]
pub struct UnknownDepth(pub u32);

/// A word on the way of a walk, by its frame and its index there.
#[derive(Clone, Copy)]
pub struct Place {
    pub depth: Depth,
    pub frame: Frame,
    pub index: u32,
}

/// A place whose frame has no words.
#[derive(Clone, Copy)]
pub struct Gap {
    pub place: Place,
    pub cause: Cause,
}

/// Why and where a walk stopped, and the cause of a frame that had no words, if that was why.
#[derive(Clone, Copy)]
pub struct Stop {
    pub reason: Reason,
    pub place: Place,
    pub cause: Option<Cause>,
}

/// A fault: the address, why, the depth, frame and index of the word that decided it, the format's code, and the
/// memory's cause, which is 0 unless a frame had no words.
// The cause is a number, 0 for none: a fault to be settled is compared by its numbers, where a cause 0 and none are one.
#[derive(Clone, Copy, PartialEq, Eq, Debug)]
pub struct Fault {
    pub address: Address,
    pub reason: Reason,
    pub depth: Depth,
    pub frame: Frame,
    pub index: u32,
    pub code: u32,
    pub cause: u32,
}

/// How far above the target: 0 for the target itself.
impl From<Depth> for u32 {
    ghost from_gives = { λ d n. n ≡ depth_number d };

    fn from(depth: Depth) -> u32 {
        match depth {
            Depth::Entry(level) => u32::from(level),
            Depth::Target => 0,
        }
    }
}

impl TryFrom<u32> for Depth {
    type Error = UnknownDepth;

    ghost try_from_gives = { λ n r. MatchResult r (λ d. depth_number d ≡ n) (λ e. (e.0 ≡ n) × ((d : Depth) → depth_number d ≢ n)) };

    fn try_from(number: u32) -> Result<Depth, UnknownDepth> {
        match number {
            0 => Ok(Depth::Target),
            1 => Ok(Depth::Entry(Level::Table)),
            2 => Ok(Depth::Entry(Level::Directory)),
            _ => Err(UnknownDepth(number)),
        }
    }
}

impl fmt::Display for Depth {
    ghost output = { λ d. Some (depth_name d) };

    fn fmt<W: fmt::Write>(&self, f: &mut fmt::Formatter<W>) -> fmt::Result {
        match self {
            Depth::Entry(level) => write!(f, "{level}'s word (level {})", u32::from(*level)),
            Depth::Target => f.write_str("target (level 0)"),
        }
    }
}

impl fmt::Display for UnknownDepth {
    fn fmt<W: fmt::Write>(&self, f: &mut fmt::Formatter<W>) -> fmt::Result {
        write!(f, "no depth has number {}", self.0)
    }
}

impl Error for UnknownDepth {}
