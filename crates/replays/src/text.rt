//! Answers as text. Numbers are hexadecimal.
use engine::engine::{FaultRecord, Through};
use engine::tallies::Tallies;
use memory::refusal::Refusal;
use std::fmt;
use unit::requests::Reply;
use walk::fault::Fault;
use walk::marking::Mark;

/// What is printed of an answer.
#[derive(Drop)]
pub enum Text {
    Answer(Reply),
    Record(Result<Option<FaultRecord>, Refusal>),
}

/// What is printed of a mark, if it was made.
#[derive(Drop)]
struct Marked(Option<Mark>);

impl fmt::Display for Marked {
    fn fmt<W: fmt::Write>(&self, f: &mut fmt::Formatter<W>) -> fmt::Result {
        match self.0 {
            Some(Mark { frame, index, word }) => write!(f, " {frame:x}:{index:x}={word:x}"),
            None => f.write_str(" -"),
        }
    }
}

// Functions and no wrappers: each is called by one impl. The programs print accesses, faults and tallies in forms of their own, so
// these types have none.
fn show_through<W: fmt::Write>(through: Through, f: &mut fmt::Formatter<W>) -> fmt::Result {
    let Through {
        value,
        frame,
        exit,
        marks,
    } = through;
    write!(f, "{value:x} in {frame:x} {exit}")?;
    write!(f, "{}{}", Marked(marks.directory), Marked(marks.table))
}

fn show_fault<W: fmt::Write>(fault: Fault, f: &mut fmt::Formatter<W>) -> fmt::Result {
    let Fault {
        address,
        reason,
        depth,
        frame,
        index,
        code,
        cause,
    } = fault;
    let level = u32::from(depth);
    write!(
        f,
        "fault {address:x} {reason} {level} {frame:x}:{index:x} {code:x} {cause:x}"
    )
}

fn show_tallies<W: fmt::Write>(tallies: Tallies, f: &mut fmt::Formatter<W>) -> fmt::Result {
    let Tallies {
        calls,
        hits,
        hidden,
        true_exits,
        trace,
        flush,
        switch,
        evictions,
    } = tallies;
    write!(
        f,
        "closed {calls:x} {hits:x} {hidden:x} {true_exits:x} {trace:x} {flush:x} {switch:x} {evictions:x}"
    )
}

impl fmt::Display for Text {
    fn fmt<W: fmt::Write>(&self, f: &mut fmt::Formatter<W>) -> fmt::Result {
        match *self {
            Text::Answer(Reply::Refused(refusal)) | Text::Record(Err(refusal)) => {
                write!(f, "refused {refusal}")
            }
            Text::Answer(Reply::Through(through)) => show_through(through, f),
            Text::Answer(Reply::Faulted(fault)) => show_fault(fault, f),
            Text::Answer(Reply::Done(exit)) => write!(f, "done {exit}"),
            Text::Answer(Reply::Closed(tallies)) => show_tallies(tallies, f),
            Text::Record(Ok(Some(FaultRecord { address, code }))) => {
                write!(f, "record {address:x} {code:x}")
            }
            Text::Record(Ok(None)) => f.write_str("record none"),
        }
    }
}
