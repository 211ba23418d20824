//! Replays scripts from standard input on machines, and prints what each call is answered.
//!
//! A script begins with `machine FORMAT POLICY FRAMES`, or `machine FORMAT POLICY FRAMES FIRST COUNT` for a partition of
//! a flat memory, and ends with `end`. FORMAT is `sv32` or `x86`, POLICY is `hand` or `old`, and all numbers are
//! hexadecimal. Between the two stand, one to a line:
//!
//! - `open ROOT SLOTS`, `load ADDRESS`, `store ADDRESS WORD`, `fetch ADDRESS`, `flush`, `page ADDRESS`, `switch ROOT`,
//!   `mode user`, `mode supervisor`, `close`, `poke FRAME INDEX WORD`: a call, made by tokens;
//! - `delivered`, `given`: how faults are settled from here on, each right after its access;
//! - `record`, `peek FRAME INDEX`, `sum`: print the fault record, a word, a sum over all words of memory;
//! - `run ROOT SLOTS`: the calls up to `ran` are one whole run, made as a list. In there also stand `deliver FAULT` and
//!   `give FAULT`, where a fault is ADDRESS REASON LEVEL FRAME INDEX CODE CAUSE.
#![tactic(auto)]

mod replay;
mod script;
mod text;

use memory::flat::Flat;
use memory::guest::GuestMemory;
use memory::partition::Partition;
use paging::format::PageFormat;
use paging::sv32::Sv32;
use paging::x86::X86;
use policies::hand::Hand;
use policies::old::Old;
use policies::policy::EvictionPolicy;
use replay::Replay;
use script::{FormatName, Line, PolicyName, Setup, read_line};
use std::io::{BufRead, BufReader};

fn play_over<M: GuestMemory + Drop, F: PageFormat + Drop, P: EvictionPolicy + Drop>(
    rt: &HostRuntime,
    memory: M,
    frames: u32,
    policy: P,
    lines: &[Line],
) -> anyhow::Result<()> {
    let mut replay = Replay::<M, F, P>::new(memory, frames, policy, rt.alloc());
    for line in lines {
        replay.follow(rt, *line)?;
    }
    Ok(())
}

fn play_by<F: PageFormat + Drop, P: EvictionPolicy + Drop>(
    rt: &HostRuntime,
    setup: Setup,
    policy: P,
    lines: &[Line],
) -> anyhow::Result<()> {
    let flat = Flat::zeroed(rt.alloc(), setup.frames)?;
    let Some((first, count)) = setup.part else {
        return play_over::<Flat, F, P>(rt, flat, setup.frames, policy, lines);
    };
    match Partition::new(flat, first, count) {
        Ok(part) => play_over::<Partition<Flat>, F, P>(rt, part, count, policy, lines),
        Err(refused) => {
            println!(rt; "refused {}", refused.refusal)?;
            Ok(())
        }
    }
}

fn play<F: PageFormat + Drop>(
    rt: &HostRuntime,
    setup: Setup,
    lines: &[Line],
) -> anyhow::Result<()> {
    match setup.policy {
        PolicyName::Hand => play_by::<F, Hand>(rt, setup, Hand::new(), lines),
        PolicyName::Old => play_by::<F, Old>(rt, setup, Old::new(), lines),
    }
}

fn play_script(rt: &HostRuntime, setup: Setup, lines: &[Line]) -> anyhow::Result<()> {
    match setup.format {
        FormatName::Sv32 => play::<Sv32>(rt, setup, lines),
        FormatName::X86 => play::<X86>(rt, setup, lines),
    }
}

/// Collects the lines of each script, and plays it at its end.
fn run(rt: &HostRuntime) -> anyhow::Result<()> {
    let heap = rt.alloc();
    let mut begun: Option<Setup> = None;
    let mut lines = Vec::new(heap);
    for text in BufReader::new(heap, rt.stdin())?.lines(heap) {
        let text = text?;
        match (read_line(text.as_str()), begun) {
            (Some(Line::Machine(setup)), None) => {
                println!(rt; "{}", text.as_str())?;
                begun = Some(setup);
            }
            (Some(Line::End), Some(setup)) => {
                play_script(rt, setup, lines.as_slice())?;
                lines.clear();
                begun = None;
            }
            (Some(line), Some(_)) => lines.push(line)?,
            _ => println!(rt; "unreadable: {}", text.as_str())?,
        }
    }
    println!(rt; "{} lines left over", lines.len())?;
    Ok(())
}

fn main(rt: HostRuntime) -> anyhow::Result<()> {
    run(&rt)
}
