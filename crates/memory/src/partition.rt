//! A part of a guest memory.
ghost use Rattle.std.specs.Prelude.{◌+◌, ◌≤◌};

use crate::guest::Frame;

/// The frames from `first` on, `count` of them, of the memory under it.
#[derive(Drop)]
pub struct Partition<M> {
    under: M,
    first: Frame,
    count: Frame,
    ghost within: { first + count ≤ 4096 },
}

pub mod reach;
