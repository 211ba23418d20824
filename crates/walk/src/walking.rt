//! The walk.
ghost use Rattle.std.specs.Prelude.{◌≡◌};
ghost use Rattle.walk.specs.Gaps.{entry_or_gap, gap_stop, word_or_gap};
ghost use Rattle.walk.specs.Numbers.{asked, entry_seen, fault_numbers, outcome, stop_failure, stopped};
ghost use Rattle.walk.specs.Rules.{ByRules};
ghost use Rattle.walk.specs.Walk.{at_table, walk_from};

use crate::fault::{Access, Fault, Gap, Place, Stop};
use crate::path::{EntryRead, Walked, directory_index, table_index};
use memory::guest::{Frame, GuestMemory, Word};
use paging::format::{Entry, Level, PageFormat, Reason};

impl From<Gap> for Stop {
    ghost from_gives = { λ g s. s ≡ gap_stop g };

    fn from(gap: Gap) -> Stop {
        Stop {
            reason: Reason::Outside,
            place: gap.place,
            cause: Some(gap.cause),
        }
    }
}

/// The fault of an access whose walk stopped.
fn fault<F: PageFormat>(access: Access, stop: Stop) -> Fault
    ensures { fault_numbers result ≡ stop_failure F.PageFormat.format (asked access) stop }
{
    Fault {
        address: access.address,
        reason: stop.reason,
        depth: stop.place.depth,
        frame: stop.place.frame,
        index: stop.place.index,
        code: F::code(stop.reason, access.kind, access.privilege),
        cause: stop.cause.map_or(0, |cause| cause.number),
    }
}

/// The word at a place, or the gap that is there.
fn word_at<M: GuestMemory>(memory: &M, place: Place) -> Result<Word, Gap>
    ensures { result ≡ word_or_gap place (M.GuestMemory.frames memory.now place.frame) }
{
    memory
        .read(place.frame, place.index)
        .map_err(|cause| Gap { place, cause })
}

/// The entry of a level at an index of a frame, or the gap that is there.
fn entry_at<M: GuestMemory>(
    memory: &M,
    level: Level,
    frame: Frame,
    index: u32,
) -> Result<EntryRead, Gap>
    ensures { result ≡ entry_or_gap level index frame (M.GuestMemory.frames memory.now frame) }
{
    let word = word_at(memory, Place::entry(level, frame, index))?;
    Ok(EntryRead {
        level,
        frame,
        index,
        word,
    })
}

/// From the directory's entry through a table.
// Its end and that of `descend` stay two: they deny at entries of two levels, and have one word and two.
fn through_table<F: PageFormat, M: GuestMemory>(
    memory: &M,
    access: Access,
    directory: EntryRead,
    frame: Frame,
) -> Result<Walked, Stop>
    ensures { stopped F.PageFormat.format (asked access) result ≡ at_table F.PageFormat.format (asked access) (M.GuestMemory.frames memory.now) (entry_seen directory) frame }
{
    let table = entry_at(memory, Level::Table, frame, table_index(access.address))?;
    match F::read(Level::Table, table.word) {
        Entry::Absent => Err(table.stop(Reason::Absent)),
        Entry::Malformed | Entry::Table(_) => Err(table.stop(Reason::Malformed)),
        Entry::Page(target) => {
            if !F::allows(&[directory.word, table.word], access.kind, access.privilege) {
                return Err(table.stop(Reason::Denied));
            }
            word_at(memory, Place::target(target, access.address))?;
            Ok(Walked {
                target,
                directory,
                table: Some(table),
            })
        }
    }
}

/// From a root frame to the target.
fn descend<F: PageFormat, M: GuestMemory>(
    memory: &M,
    root: Frame,
    access: Access,
) -> Result<Walked, Stop>
    ensures { stopped F.PageFormat.format (asked access) result ≡ walk_from F.PageFormat.format (asked access) (M.GuestMemory.frames memory.now) root }
{
    let directory = entry_at(
        memory,
        Level::Directory,
        root,
        directory_index(access.address),
    )?;
    match F::read(Level::Directory, directory.word) {
        Entry::Absent => Err(directory.stop(Reason::Absent)),
        Entry::Malformed => Err(directory.stop(Reason::Malformed)),
        Entry::Table(frame) => through_table::<F, M>(memory, access, directory, frame),
        Entry::Page(first) => {
            if !F::allows(&[directory.word], access.kind, access.privilege) {
                return Err(directory.stop(Reason::Denied));
            }
            let target = first + table_index(access.address);
            word_at(memory, Place::target(target, access.address))?;
            Ok(Walked {
                target,
                directory,
                table: None,
            })
        }
    }
}

/// The walk of an access from a root frame: the frame it reaches and the entries that it read, or a fault. Reads memory
/// alone. A root without words is a fault too.
pub fn walk<F: PageFormat, M: GuestMemory>(
    memory: &M,
    root: Frame,
    access: Access,
) -> Result<Walked, Fault>
    ensures is { outcome result ≡ walk_from F.PageFormat.format (asked access) (M.GuestMemory.frames memory.now) root }
    ensures rules { ByRules F.PageFormat.format (asked access) (M.GuestMemory.frames memory.now) root (outcome result) }
{
    descend::<F, M>(memory, root, access).map_err(|stop| fault::<F>(access, stop))
}
