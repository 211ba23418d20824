//! The figures of a run.
ghost use Rattle.std.specs.Prelude.{◌≡◌, ◌+◌, ◌≤◌};

/// No run counts more calls.
pub const CALL_LIMIT: u32 = 16_777_216;

/// The figures of a run.
#[derive(Clone, Copy, Default, PartialEq, Eq, Debug)]
pub struct Tallies {
    /// Accesses, flushes and switches.
    pub calls: u32,
    /// Accesses that the slots answered.
    pub hits: u32,
    /// Exits of each kind.
    pub hidden: u32,
    pub true_exits: u32,
    pub trace: u32,
    pub flush: u32,
    pub switch: u32,
    /// Slots that were emptied for another thing.
    pub evictions: u32,
}

/// Figures that have been counted up from nothing: each call is a hit or has one exit, and evicts at most once.
#[derive(Clone, Copy, Drop)]
pub struct Tally {
    figures: Tallies,
    ghost few: { figures.calls ≤ 16777216 },
    ghost sum: { figures.calls ≡ figures.hits + figures.hidden + figures.true_exits + figures.trace + figures.flush + figures.switch },
    ghost evicted: { figures.evictions ≤ figures.calls },
}

pub mod counting;
