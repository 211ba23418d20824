//! Runs fixed workloads over the machine and prints the figures of each: `bench ROUNDS [WORKLOAD [SLOTS [TIMES]]]`.
#![tactic(auto)]

mod figures;
mod guest;
mod workloads;

use anyhow::Context;
use figures::Figures;
use guest::guest_memory;
use memory::flat::Flat;
use policies::hand::Hand;
use policies::old::Old;
use policies::policy::EvictionPolicy;
use std::env;
use std::env::Args;
use std::iter::Skip;
use std::str::FromStr;
use unit::machine::Machine;
use workloads::{Trouble, Workload, in_runs};

/// What the command line asks for.
#[derive(Drop)]
struct Asked {
    rounds: u32,
    /// One workload, or all.
    only: Option<Workload>,
    /// The slots, where they are not those that the workload is meant for.
    slots: Option<usize>,
    /// How often all is to be run.
    times: u32,
}

/// The next argument, read as what is wanted there.
fn next<T: FromStr>(arguments: &mut Skip<Args>) -> Result<Option<T>, T::Err> {
    arguments.next().map(|text| text.parse()).transpose()
}

fn command_line(rt: &HostRuntime) -> anyhow::Result<Asked> {
    let mut arguments = env::args(rt)?.skip(1);
    Ok(Asked {
        rounds: next(&mut arguments)?.context("usage: bench ROUNDS [a|b|c|d|e [SLOTS [TIMES]]]")?,
        only: next(&mut arguments)?,
        slots: next(&mut arguments)?,
        times: next(&mut arguments)?.unwrap_or(1),
    })
}

/// The figures of one workload on a machine of its own, as often as is asked for.
fn repeated<P: EvictionPolicy + Drop>(
    memory: Flat,
    policy: P,
    workload: Workload,
    asked: &Asked,
) -> Result<Figures, Trouble> {
    let mut machine = Machine::new(memory, policy);
    let slots = asked.slots.unwrap_or(workload.slots());
    let mut figures = Figures::default();
    for _ in 0..asked.times {
        in_runs(&mut machine, workload, slots, asked.rounds, &mut figures)?;
    }
    Ok(figures)
}

/// The figures of one workload, by the policy that it is meant for.
fn measured(rt: &HostRuntime, workload: Workload, asked: &Asked) -> anyhow::Result<Figures> {
    let memory = guest_memory(rt.alloc())?;
    let figures = match workload {
        Workload::Switches => repeated(memory, Old::new(), workload, asked),
        Workload::Hits | Workload::Misses | Workload::Edits | Workload::Guards => {
            repeated(memory, Hand::new(), workload, asked)
        }
    };
    Ok(figures?)
}

fn main(rt: HostRuntime) -> anyhow::Result<()> {
    let asked = command_line(&rt)?;
    for workload in workloads::ALL {
        if asked.only.is_none_or(|only| only == workload) {
            let figures = measured(&rt, workload, &asked)?;
            println!(rt; "{workload} {figures}")?;
        }
    }
    Ok(())
}
