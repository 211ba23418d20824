//! Exits.
ghost use Rattle.std.specs.Prelude.{Some};
ghost use Rattle.mmu.specs.Names.{exit_name};

use std::fmt;

/// Why the guest was interrupted for a call, if it was.
#[derive(Clone, Copy, PartialEq, Eq, Debug)]
pub enum Exit {
    /// The slots answered.
    None,
    /// The slots were brought up to the guest's tables, and the guest need not know.
    Hidden,
    /// The guest's own tables do not allow the access.
    True,
    /// A store to a directory or a table that is shadowed.
    Trace,
    /// The guest asked that copies be forgotten.
    Flush,
    /// The guest changed its root.
    Switch,
}

impl fmt::Display for Exit {
    ghost output = { λ x. Some (exit_name x) };

    fn fmt<W: fmt::Write>(&self, f: &mut fmt::Formatter<W>) -> fmt::Result {
        f.write_str(match self {
            Exit::None => "none",
            Exit::Hidden => "hidden",
            Exit::True => "true",
            Exit::Trace => "trace",
            Exit::Flush => "flush",
            Exit::Switch => "switch",
        })
    }
}
