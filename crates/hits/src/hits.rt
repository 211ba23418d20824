//! The rule of hits: which access the copied words answer without a walk.
ghost use Rattle.std.specs.Prelude.{◌≡◌};
ghost use Rattle.paging.specs.Numbers.{kind_number, privilege_number};
ghost use Rattle.paging.specs.Terms.{directory_level};
ghost use Rattle.hits.specs.Hits.{copied_words, hit_of, marked, passes};

use memory::guest::{Frame, Word};
use paging::access::{Kind, Privilege};
use paging::format::{Level, PageFormat};

/// What a link and the place below it hold together.
#[derive(Clone, Copy, PartialEq)]
pub struct Copied {
    /// The directory's word.
    pub link: Word,
    /// The table's word, which a large page has not.
    pub leaf: Option<Word>,
    /// The frame aimed at.
    pub aim: Frame,
    /// May a store go through?
    pub writable: bool,
}

impl Copied {
    /// Do the copied words allow the access?
    fn is_allowed<F: PageFormat>(self, kind: Kind, privilege: Privilege) -> bool
        ensures { result ≡ F.PageFormat.format.allows (copied_words self) (kind_number kind) (privilege_number privilege) }
    {
        match self.leaf {
            Some(leaf) => F::allows(&[self.link, leaf], kind, privilege),
            None => F::allows(&[self.link], kind, privilege),
        }
    }

    /// Does marking the copied words for the access change none?
    fn is_marked<F: PageFormat>(self, kind: Kind) -> bool
        ensures { result ≡ marked F.PageFormat.format (kind_number kind) directory_level (copied_words self) }
    {
        F::mark(Level::Directory, kind, self.link) == self.link
            && self
                .leaf
                .is_none_or(|leaf| F::mark(Level::Table, kind, leaf) == leaf)
    }

    /// Has the access the flag that it needs? Only a store needs it.
    fn passes(self, kind: Kind) -> bool
        ensures { result ≡ passes (kind_number kind) self.writable }
    {
        kind != Kind::Store || self.writable
    }

    /// The frame aimed at, where the access needs no walk: the copied words allow it, their marks for it are all set, and a
    /// store has the flag.
    pub fn hit<F: PageFormat>(self, kind: Kind, privilege: Privilege) -> Option<Frame>
        ensures { result ≡ hit_of F.PageFormat.format (kind_number kind) (privilege_number privilege) (copied_words self) self.aim self.writable }
    {
        let hits = self.is_allowed::<F>(kind, privilege)
            && self.is_marked::<F>(kind)
            && self.passes(kind);
        hits.then_some(self.aim)
    }
}
