//! Theorems about formats, each the contract of a function.
ghost use Rattle.paging.specs.Entries.{EightEntries};
ghost use Rattle.paging.specs.Formats.{LawsOfMarking};

use crate::format::PageFormat;

/// Every format keeps both laws of marking.
pub fn marking_lawful<F: PageFormat>()
    ensures { LawsOfMarking F.PageFormat.format }
{}

/// Eight worked entries come out as they should.
pub fn eight_entries()
    ensures { EightEntries }
{}
