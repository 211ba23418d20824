//! Walks as text.
use memory::guest::Frame;
use paging::format::Level;
use std::fmt;
use walk::fault::{Access, Fault};
use walk::marking::{Mark, Marks};

/// An access, and what came of it.
#[derive(Drop)]
pub struct Line {
    pub access: Access,
    pub came: Result<Reached, Fault>,
}

/// The frame that an access reached, and the marks that it left.
#[derive(Clone, Copy)]
pub struct Reached {
    pub target: Frame,
    pub marks: Marks,
}

// Functions and no wrappers, here and for faults: each is called by one impl. The programs print marks and faults in forms of their
// own, so `Mark` and `Fault` have none.
fn show_mark<W: fmt::Write>(
    mark: Option<Mark>,
    level: Level,
    f: &mut fmt::Formatter<W>,
) -> fmt::Result {
    let Some(Mark { frame, index, word }) = mark else {
        return Ok(());
    };
    write!(
        f,
        ", marks the {level}'s word {index} of frame {frame} as {word:08x}"
    )
}

impl fmt::Display for Reached {
    fn fmt<W: fmt::Write>(&self, f: &mut fmt::Formatter<W>) -> fmt::Result {
        write!(f, "frame {}", self.target)?;
        show_mark(self.marks.directory, Level::Directory, f)?;
        show_mark(self.marks.table, Level::Table, f)
    }
}

fn show_fault<W: fmt::Write>(fault: Fault, f: &mut fmt::Formatter<W>) -> fmt::Result {
    let Fault {
        address,
        reason,
        depth,
        frame,
        index,
        code,
        cause,
    } = fault;
    write!(
        f,
        "fault {code} at {address:08x}, {reason} by the {depth}, frame {frame}, index {index}, cause {cause}"
    )
}

impl fmt::Display for Line {
    fn fmt<W: fmt::Write>(&self, f: &mut fmt::Formatter<W>) -> fmt::Result {
        let Access {
            address,
            kind,
            privilege,
        } = self.access;
        write!(f, "  {kind} {address:08x} as {privilege}: ")?;
        match self.came {
            Ok(reached) => write!(f, "{reached}"),
            Err(fault) => show_fault(fault, f),
        }
    }
}
