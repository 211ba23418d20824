//! Scripts, read line by line.
use memory::guest::{FRAME_LIMIT, Frame};
use paging::format::Reason;
use settled::Settlement;
use std::str::{FromStr, SplitWhitespace};
use unit::requests::Call;
use walk::fault::{Depth, Fault};

#[derive(Clone, Copy)]
pub enum FormatName {
    Sv32,
    X86,
}

impl FromStr for FormatName {
    type Err = UnknownName;

    fn from_str(text: &str) -> Result<FormatName, UnknownName> {
        match text {
            "sv32" => Ok(FormatName::Sv32),
            "x86" => Ok(FormatName::X86),
            _ => Err(UnknownName),
        }
    }
}

#[derive(Clone, Copy)]
pub enum PolicyName {
    Hand,
    Old,
}

impl FromStr for PolicyName {
    type Err = UnknownName;

    fn from_str(text: &str) -> Result<PolicyName, UnknownName> {
        match text {
            "hand" => Ok(PolicyName::Hand),
            "old" => Ok(PolicyName::Old),
            _ => Err(UnknownName),
        }
    }
}

/// A text that names no format, or no policy.
#[derive(Clone, Copy, Debug)]
pub struct UnknownName;

/// What a script runs on: a flat memory of so many frames, or the part of it with a first frame and a count.
#[derive(Clone, Copy)]
pub struct Setup {
    pub format: FormatName,
    pub policy: PolicyName,
    pub frames: u32,
    pub part: Option<(Frame, Frame)>,
}

#[derive(Clone, Copy)]
pub enum Line {
    Machine(Setup),
    Call(Call),
    Settle(Settlement),
    Record,
    Peek(Frame, u32),
    Sum,
    Run(Frame, usize),
    Ran,
    End,
}

/// The words of a line that are not read yet.
#[derive(Drop)]
struct Words<'a> {
    rest: SplitWhitespace<'a>,
}

impl Words<'_> {
    fn number(&mut self) -> Option<u32> {
        let word = self.rest.next()?;
        u32::from_str_radix(word, 16).ok()
    }

    /// The next word as a name.
    fn name<T: FromStr>(&mut self) -> Option<T>
    where
        T::Err: Drop,
    {
        self.rest.next()?.parse().ok()
    }

    fn setup(&mut self) -> Option<Setup> {
        Some(Setup {
            format: self.name()?,
            policy: self.name()?,
            frames: self.number().filter(|frames| *frames <= FRAME_LIMIT)?,
            part: self.number().zip(self.number()),
        })
    }

    fn fault(&mut self) -> Option<Fault> {
        Some(Fault {
            address: self.number()?,
            reason: Reason::try_from(self.number()?).ok()?,
            depth: Depth::try_from(self.number()?).ok()?,
            frame: self.number()?,
            index: self.number()?,
            code: self.number()?,
            cause: self.number()?,
        })
    }

    fn call(&mut self, name: &str) -> Option<Call> {
        match name {
            "open" => Some(Call::Open(self.number()?, self.number()? as usize)),
            "load" => Some(Call::Load(self.number()?)),
            "store" => Some(Call::Store(self.number()?, self.number()?)),
            "fetch" => Some(Call::Fetch(self.number()?)),
            "flush" => Some(Call::FlushAll),
            "page" => Some(Call::FlushPage(self.number()?)),
            "switch" => Some(Call::Switch(self.number()?)),
            "mode" => Some(Call::SetMode(self.name()?)),
            "deliver" => Some(Call::Deliver(self.fault()?)),
            "give" => Some(Call::GiveUp(self.fault()?)),
            "close" => Some(Call::Close),
            "poke" => Some(Call::Poke(self.number()?, self.number()?, self.number()?)),
            _ => None,
        }
    }
}

/// What a line says, if it can be read.
pub fn read_line(text: &str) -> Option<Line> {
    let mut words = Words {
        rest: text.split_whitespace(),
    };
    let name = words.rest.next()?;
    match name {
        "machine" => Some(Line::Machine(words.setup()?)),
        "delivered" => Some(Line::Settle(Settlement::Deliver)),
        "given" => Some(Line::Settle(Settlement::GiveUp)),
        "record" => Some(Line::Record),
        "peek" => Some(Line::Peek(words.number()?, words.number()?)),
        "sum" => Some(Line::Sum),
        "run" => Some(Line::Run(words.number()?, words.number()? as usize)),
        "ran" => Some(Line::Ran),
        "end" => Some(Line::End),
        _ => Some(Line::Call(words.call(name)?)),
    }
}
