//! Runs small guests over shadow page tables, and prints each call with its answer and its exit, and the report of each run.
#![tactic(auto)]

mod scenes;
mod text;

use memory::flat::Flat;
use memory::guest::{Frame, Word};
use paging::format::PageFormat;
use paging::sv32::Sv32;
use paging::x86::X86;
use policies::hand::Hand;
use policies::old::Old;
use policies::policy::EvictionPolicy;
use scenes::Guest;
use text::Line;
use unit::machine::Machine;
use unit::requests::{Call, RunError};

/// The frames of each guest's memory.
const FRAMES: Frame = 4;

/// The root of every run.
const ROOT: Frame = 0;

/// Builds a machine over a flat memory that is zero but for some words, each by its frame, its index and itself; runs the
/// calls with two slots; and prints what each was answered.
fn show<F: PageFormat, P: EvictionPolicy + Drop>(
    rt: &HostRuntime,
    policy: P,
    words: &[(Frame, u32, Word)],
    calls: &[Call],
) -> anyhow::Result<()> {
    let flat = Flat::zeroed(rt.alloc(), FRAMES)?;
    let mut machine: Machine<Flat, F, P> = Machine::new(flat, policy);
    for (frame, index, word) in words {
        if let Err(refusal) = machine.poke(*frame, *index, *word) {
            println!(rt; "  poke refused, {refusal}")?;
        }
    }
    match machine.run(rt.alloc(), ROOT, 2, calls) {
        Ok(replies) => {
            for (call, reply) in calls.iter().zip(replies.iter()) {
                println!(rt;
                    "{}",
                    Line {
                        call: *call,
                        reply: *reply
                    }
                )?;
            }
            Ok(())
        }
        Err(RunError::Refused(refusal)) => {
            println!(rt; "  opening refused, {refusal}")?;
            Ok(())
        }
        Err(RunError::NoMemory) => {
            println!(rt; "  no memory for the answers")?;
            Ok(())
        }
    }
}

/// The three scenes that are checked at each site, by one format and one policy.
fn show_scenes<F: PageFormat, P: EvictionPolicy + Copy + Drop>(
    rt: &HostRuntime,
    guest: &Guest,
    name: &str,
    policy: P,
) -> anyhow::Result<()> {
    let Guest {
        format,
        words,
        entry,
    } = guest;
    println!(rt;
        "{format}, {name}: a table's entry is stored to, all is flushed, and the page is loaded"
    )?;
    show::<F, P>(rt, policy, words, &scenes::stored_and_flushed(*entry))?;
    println!(rt; "{format}, {name}: an edited table hangs under a second entry of the directory")?;
    show::<F, P>(rt, policy, words, &scenes::hung_twice(*entry))?;
    println!(rt; "{format}, {name}: a page is loaded twice")?;
    show::<F, P>(rt, policy, words, &scenes::LOADED_TWICE)
}

/// The same by each policy.
fn show_policies<F: PageFormat>(rt: &HostRuntime, guest: &Guest) -> anyhow::Result<()> {
    show_scenes::<F, Hand>(rt, guest, "hand", Hand::new())?;
    show_scenes::<F, Old>(rt, guest, "old", Old::new())
}

fn run(rt: &HostRuntime) -> anyhow::Result<()> {
    println!(rt; "worked run: x86, hand, 2 slots, 4 frames")?;
    show::<X86, Hand>(
        rt,
        Hand::new(),
        &scenes::WORKED_WORDS,
        &scenes::WORKED_CALLS,
    )?;
    show_policies::<Sv32>(rt, &scenes::SV32)?;
    show_policies::<X86>(rt, &scenes::X86)
}

fn main(rt: HostRuntime) -> anyhow::Result<()> {
    run(&rt)
}
