//! The marks of an access, written to guest memory.
ghost use Rattle.std.specs.Prelude.{◌≡◌};
ghost use Rattle.paging.specs.Numbers.{kind_number};
ghost use Rattle.walk.specs.Marking.{due, mark_at, mark_writes, marks_writes, put_all};
ghost use Rattle.walk.specs.Numbers.{entries, entry_seen};

use crate::path::{EntryRead, Walked};
use memory::guest::{Frame, GuestMemory, Word};
use paging::access::Kind;
use paging::format::PageFormat;

/// An entry that was marked: where it stands, and the word that it now is.
#[derive(Clone, Copy, PartialEq, Eq, Debug)]
pub struct Mark {
    pub frame: Frame,
    pub index: u32,
    pub word: Word,
}

/// What was marked of the entries of a walk.
#[derive(Clone, Copy, PartialEq, Eq, Debug)]
pub struct Marks {
    pub directory: Option<Mark>,
    pub table: Option<Mark>,
}

/// Marks the word that now stands where an entry was read, if that changes it.
fn mark_entry<F: PageFormat, M: GuestMemory>(
    memory: &mut M,
    kind: Kind,
    entry: EntryRead,
) -> Option<Mark>
    ensures answer { mark_writes result ≡ mark_at F.PageFormat.format (kind_number kind) (M.GuestMemory.frames memory.old) (entry_seen entry).spot }
    ensures after { M.GuestMemory.frames memory.new ≡ put_all (M.GuestMemory.frames memory.old) (mark_at F.PageFormat.format (kind_number kind) (M.GuestMemory.frames memory.old) (entry_seen entry).spot) }
{
    let word = memory.read(entry.frame, entry.index).ok()?;
    let marked = F::mark(entry.level, kind, word);
    if marked == word {
        return None;
    }
    // The frame has words, as the read has shown, so that the write has no cause to answer.
    let _ = memory.write(entry.frame, entry.index, marked);
    Some(Mark {
        frame: entry.frame,
        index: entry.index,
        word: marked,
    })
}

/// Marks the entries of a walk for an access of this kind: the directory's, then the table's as it then stands.
pub fn mark_entries<F: PageFormat, M: GuestMemory>(
    memory: &mut M,
    kind: Kind,
    walked: Walked,
) -> Marks
    ensures answer { marks_writes result ≡ due F.PageFormat.format (kind_number kind) (M.GuestMemory.frames memory.old) (entries walked.directory walked.table) }
    ensures after { M.GuestMemory.frames memory.new ≡ put_all (M.GuestMemory.frames memory.old) (due F.PageFormat.format (kind_number kind) (M.GuestMemory.frames memory.old) (entries walked.directory walked.table)) }
{
    let directory = mark_entry::<F, M>(memory, kind, walked.directory);
    // Not `and_then`: where there is no table, a proof would know nothing of the memory that the closure borrows.
    let table = match walked.table {
        Some(entry) => mark_entry::<F, M>(memory, kind, entry),
        None => None,
    };
    Marks { directory, table }
}
