//! Calls and answers as text. Words and addresses are hexadecimal.
use engine::engine::Through;
use engine::tallies::Tallies;
use mmu::exits::Exit;
use std::fmt;
use unit::requests::{Call, Reply};
use walk::fault::Fault;

/// A call with its answer.
#[derive(Drop)]
pub struct Line {
    pub call: Call,
    pub reply: Reply,
}

/// A call as it is printed.
#[derive(Drop)]
struct Asked(Call);

/// What is printed of an answer.
#[derive(Drop)]
struct Told(Reply);

/// An exit as a part of a sentence.
#[derive(Drop)]
struct Interruption(Exit);

impl fmt::Display for Interruption {
    fn fmt<W: fmt::Write>(&self, f: &mut fmt::Formatter<W>) -> fmt::Result {
        match self.0 {
            Exit::None => f.write_str("no exit"),
            exit => write!(f, "{exit} exit"),
        }
    }
}

impl fmt::Display for Asked {
    fn fmt<W: fmt::Write>(&self, f: &mut fmt::Formatter<W>) -> fmt::Result {
        match self.0 {
            Call::FlushAll => f.write_str("flush all"),
            Call::Load(address) => write!(f, "load {address:08x}"),
            Call::Store(address, word) => write!(f, "store {word:08x} at {address:08x}"),
            Call::Fetch(address) => write!(f, "fetch {address:08x}"),
            Call::FlushPage(address) => write!(f, "flush page {address:08x}"),
            Call::Switch(root) => write!(f, "switch to root {root:x}"),
            Call::SetMode(mode) => write!(f, "mode {mode}"),
            Call::Deliver(_) => f.write_str("deliver"),
            Call::GiveUp(_) => f.write_str("give up"),
            Call::Close => f.write_str("close"),
            Call::Open(root, slots) => write!(f, "open at root {root:x} with {slots} slots"),
            Call::Poke(frame, index, word) => {
                write!(f, "poke {word:08x} at word {index:x} of frame {frame:x}")
            }
        }
    }
}

// The programs print tallies in forms of their own, so `Tallies` has none.
fn show_tallies<W: fmt::Write>(tallies: Tallies, f: &mut fmt::Formatter<W>) -> fmt::Result {
    let Tallies {
        calls,
        hits,
        hidden,
        true_exits,
        trace,
        flush,
        switch,
        evictions,
    } = tallies;
    write!(
        f,
        "calls {calls}, hits {hits}, hidden {hidden}, true {true_exits}, "
    )?;
    write!(
        f,
        "trace {trace}, flush {flush}, switch {switch}, evictions {evictions}"
    )
}

impl fmt::Display for Told {
    fn fmt<W: fmt::Write>(&self, f: &mut fmt::Formatter<W>) -> fmt::Result {
        match self.0 {
            Reply::Refused(refusal) => write!(f, "refused, {refusal}"),
            Reply::Through(
                Through {
                    value,
                    frame,
                    exit,
                    ..
                },
            ) => write!(f, "{value:08x} in frame {frame:x}, {}", Interruption(exit)),
            Reply::Faulted(Fault { reason, code, .. }) => {
                let exit = Interruption(Exit::True);
                write!(f, "fault, {reason}, code {code:x}, {exit}")
            }
            Reply::Done(exit) => write!(f, "done, {}", Interruption(exit)),
            Reply::Closed(tallies) => show_tallies(tallies, f),
        }
    }
}

impl fmt::Display for Line {
    fn fmt<W: fmt::Write>(&self, f: &mut fmt::Formatter<W>) -> fmt::Result {
        write!(f, "  {}: {}", Asked(self.call), Told(self.reply))
    }
}
