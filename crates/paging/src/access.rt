//! What an access is.
ghost use Rattle.std.specs.Prelude.{◌≡◌, ◌≢◌, MatchResult, Some};
ghost use Rattle.paging.specs.Names.{kind_name, privilege_name};
ghost use Rattle.paging.specs.declared.access.Privilege.{Privilege};

use std::error::Error;
use std::fmt;
use std::str::FromStr;

/// An address of the guest.
pub type Address = u32;

/// What an access does.
#[derive(Clone, Copy, PartialEq, Eq, Debug)]
pub enum Kind {
    Load,
    Store,
    Fetch,
}

/// On whose behalf an access is made.
#[derive(Clone, Copy, PartialEq, Eq, Debug)]
pub enum Privilege {
    User,
    Supervisor,
}

/// A text that names no privilege.
#[derive(Clone, Copy, PartialEq, Eq, Debug)]
pub struct UnknownPrivilege;

impl fmt::Display for Kind {
    ghost output = { λ k. Some (kind_name k) };

    fn fmt<W: fmt::Write>(&self, f: &mut fmt::Formatter<W>) -> fmt::Result {
        f.write_str(match self {
            Kind::Load => "load",
            Kind::Store => "store",
            Kind::Fetch => "fetch",
        })
    }
}

impl fmt::Display for Privilege {
    ghost output = { λ p. Some (privilege_name p) };

    fn fmt<W: fmt::Write>(&self, f: &mut fmt::Formatter<W>) -> fmt::Result {
        f.write_str(match self {
            Privilege::User => "user",
            Privilege::Supervisor => "supervisor",
        })
    }
}

impl FromStr for Privilege {
    type Err = UnknownPrivilege;

    ghost from_str_gives = { λ text r. MatchResult r (λ p. privilege_name p ≡ text) (λ _. (p : Privilege) → privilege_name p ≢ text) };

    fn from_str(text: &str) -> Result<Privilege, UnknownPrivilege> {
        match text {
            "user" => Ok(Privilege::User),
            "supervisor" => Ok(Privilege::Supervisor),
            _ => Err(UnknownPrivilege),
        }
    }
}

impl fmt::Display for UnknownPrivilege {
    fn fmt<W: fmt::Write>(&self, f: &mut fmt::Formatter<W>) -> fmt::Result {
        f.write_str("neither user nor supervisor")
    }
}

impl Error for UnknownPrivilege {}
