//! The workloads. Each is a number of rounds after a start that fills the slots.
ghost use Rattle.std.specs.Prelude.{◌<◌};
ghost use Rattle.unit.specs.Faults.{Waits};
ghost use Rattle.unit.specs.Promises.{view};
ghost use Rattle.unit.specs.Replies.{access_reply};

use crate::figures::Figures;
use crate::guest::{PAGES, entry_address, page_address, page_entry};
use calls::plain::AccessError;
use engine::engine::Through;
use memory::flat::Flat;
use memory::guest::{GuestMemory, Word};
use memory::refusal::Refusal;
use paging::access::Address;
use paging::format::PageFormat;
use paging::x86::X86;
use policies::policy::EvictionPolicy;
use settled::{Settlement, settle};
use std::str::FromStr;
use std::{array, fmt};
use thiserror::Error;
use unit::machine::Machine;
use unit::tokens::PendingFault;

#[derive(Clone, Copy, PartialEq, Eq)]
pub enum Workload {
    /// Loads and stores of 64 pages that are all linked.
    Hits,
    /// A page flush before each access.
    Misses,
    /// A table edited through its own mapping, a flush of all, and a load by the new entry.
    Edits,
    /// The root goes round three directories with tables of their own. With 2 slots each step evicts.
    Switches,
    /// Six tables edited, a flush of all, and loads by the new entries. With 8 slots all are full.
    Guards,
}

pub const ALL: [Workload; 5] = [
    Workload::Hits,
    Workload::Misses,
    Workload::Edits,
    Workload::Switches,
    Workload::Guards,
];

/// Why a workload was not carried out.
#[derive(Debug, Drop, Error)]
pub enum Trouble {
    #[error("refused {0}")]
    Refused(#[from] Refusal),
    /// An access to the address faulted. The fault is given up.
    #[error("fault at {0:08x}")]
    Faulted(Address),
}

/// A text that is no workload's letter.
#[derive(Clone, Copy, Debug, Error)]
#[error("the workloads are a, b, c, d and e")]
pub struct UnknownWorkload;

impl fmt::Display for Workload {
    fn fmt<W: fmt::Write>(&self, f: &mut fmt::Formatter<W>) -> fmt::Result {
        f.write_str(self.letter())
    }
}

impl FromStr for Workload {
    type Err = UnknownWorkload;

    fn from_str(text: &str) -> Result<Workload, UnknownWorkload> {
        ALL.iter()
            .copied()
            .find(|workload| workload.letter() == text)
            .ok_or(UnknownWorkload)
    }
}

impl Workload {
    fn letter(self) -> &'static str {
        match self {
            Workload::Hits => "a",
            Workload::Misses => "b",
            Workload::Edits => "c",
            Workload::Switches => "d",
            Workload::Guards => "e",
        }
    }

    /// The slots that the workload is meant for.
    pub fn slots(self) -> usize {
        match self {
            Workload::Hits | Workload::Misses | Workload::Guards => 8,
            Workload::Edits => 4,
            Workload::Switches => 2,
        }
    }

    /// As many rounds as one run surely counts the calls of.
    fn rounds_in_run(self) -> u32
        ensures { 0 < result }
    {
        match self {
            Workload::Hits | Workload::Misses => 131_000,
            Workload::Edits => 5_500_000,
            Workload::Switches => 2_700_000,
            Workload::Guards => 1_200_000,
        }
    }
}

/// A machine for the workloads.
pub type Guest<P> = Machine<Flat, X86, P>;

/// The word of an access that came through.
fn came_through<M: GuestMemory, F: PageFormat, P: EvictionPolicy>(
    machine: &mut Machine<M, F, P>,
    res: Result<Through, AccessError<PendingFault>>,
) -> Result<Word, Trouble>
    requires { Waits (view M.GuestMemory F.PageFormat P.EvictionPolicy machine.old) (access_reply res) }
{
    match res {
        Ok(through) => Ok(through.value),
        Err(AccessError::Refused(refusal)) => Err(refusal.into()),
        Err(AccessError::Faulted(fault)) => {
            let address = fault.fault().address;
            settle(machine, fault, Settlement::GiveUp);
            Err(Trouble::Faulted(address))
        }
    }
}

fn load<P: EvictionPolicy>(machine: &mut Guest<P>, address: Address) -> Result<Word, Trouble> {
    let res = machine.load(address);
    came_through(machine, res)
}

fn store<P: EvictionPolicy>(
    machine: &mut Guest<P>,
    address: Address,
    word: Word,
) -> Result<Word, Trouble> {
    let res = machine.store(address, word);
    came_through(machine, res)
}

/// The addresses of all pages, dealt out to so many tables.
fn dealt(tables: u32) -> [Address; 64] {
    array::from_fn(|page| page_address(page as u32 % tables.max(1), page as u32)
        | (page as u32) << 6)
}

/// Stores to each address that was dealt, and then takes a step at each in every round. Adds up the words that come of it.
fn over_dealt<P: EvictionPolicy, F: FnMut(&mut Guest<P>, Address, u32) -> Result<Word, Trouble>>(
    machine: &mut Guest<P>,
    tables: u32,
    rounds: u32,
    mut step: F,
) -> Result<Word, Trouble>
    requires { F.IsAlwaysCallable step }
{
    let addresses = dealt(tables);
    let mut sum: Word = 0;
    for address in addresses {
        store(machine, address, 1)?;
    }
    for round in 0..rounds {
        for address in addresses {
            sum = sum.wrapping_add(step(machine, address, round)?);
        }
    }
    Ok(sum)
}

fn hits<P: EvictionPolicy>(
    machine: &mut Guest<P>,
    tables: u32,
    rounds: u32,
) -> Result<Word, Trouble> {
    over_dealt(machine, tables, rounds, |machine, address, round| {
        let word = load(machine, address)?;
        store(machine, address, round)?;
        Ok(word)
    })
}

fn misses<P: EvictionPolicy>(
    machine: &mut Guest<P>,
    tables: u32,
    rounds: u32,
) -> Result<Word, Trouble> {
    over_dealt(machine, tables, rounds, |machine, address, round| {
        machine.flush_page(address)?;
        if round % 2 == 0 {
            return load(machine, address);
        }
        store(machine, address, round)?;
        Ok(0)
    })
}

fn edits<P: EvictionPolicy>(
    machine: &mut Guest<P>,
    tables: u32,
    rounds: u32,
) -> Result<Word, Trouble> {
    let mut sum: Word = 0;
    for page in 0..PAGES {
        load(machine, page_address(0, page))?;
    }
    for table in 1..tables {
        load(machine, page_address(table, 0))?;
    }
    for round in 0..rounds {
        let page = round % PAGES;
        store(
            machine,
            entry_address(0, page),
            page_entry(page + round / PAGES + 1),
        )?;
        machine.flush_all()?;
        sum = sum.wrapping_add(load(machine, page_address(0, page))?);
    }
    Ok(sum)
}

fn switches<P: EvictionPolicy>(machine: &mut Guest<P>, rounds: u32) -> Result<Word, Trouble> {
    let mut sum: Word = 0;
    load(machine, 0)?;
    for _ in 0..rounds {
        for root in [1, 2, 0] {
            machine.switch(root)?;
            sum = sum.wrapping_add(load(machine, 0)?);
        }
    }
    Ok(sum)
}

fn guards<P: EvictionPolicy>(
    machine: &mut Guest<P>,
    tables: u32,
    rounds: u32,
) -> Result<Word, Trouble> {
    let mut sum: Word = 0;
    for table in 0..tables {
        for page in 0..PAGES {
            load(machine, page_address(table, page))?;
        }
    }
    for round in 0..rounds {
        let page = round % PAGES;
        let entry = page_entry(page + round / PAGES + 1);
        for table in 1..tables {
            store(machine, entry_address(table, page), entry)?;
        }
        machine.flush_all()?;
        for table in 1..tables {
            sum = sum.wrapping_add(load(machine, page_address(table, page))?);
        }
    }
    Ok(sum)
}

/// One run of so many rounds. All slots but the directory's are for tables.
fn one_run<P: EvictionPolicy>(
    machine: &mut Guest<P>,
    workload: Workload,
    slots: usize,
    rounds: u32,
    figures: &mut Figures,
) -> Result<(), Trouble> {
    let token = machine.open(0, slots)?;
    let tables = slots.saturating_sub(1).min(7) as u32;
    // A match: the five do not take the same arguments, and a table of them would be no plainer.
    let sum = match workload {
        Workload::Hits => hits(machine, tables, rounds)?,
        Workload::Misses => misses(machine, tables, rounds)?,
        Workload::Edits => edits(machine, tables, rounds)?,
        Workload::Switches => switches(machine, rounds)?,
        Workload::Guards => guards(machine, tables, rounds)?,
    };
    let closed = machine.close(token).map_err(|still| still.refusal)?;
    figures.add(closed.report(), sum);
    Ok(())
}

/// So many rounds, in as many runs as they need.
pub fn in_runs<P: EvictionPolicy>(
    machine: &mut Guest<P>,
    workload: Workload,
    slots: usize,
    rounds: u32,
    figures: &mut Figures,
) -> Result<(), Trouble> {
    let most = workload.rounds_in_run();
    for _ in 0..rounds / most {
        one_run(machine, workload, slots, most, figures)?;
    }
    one_run(machine, workload, slots, rounds % most, figures)
}
