//! Long sequences, against each policy said in another way.
ghost use Rattle.std.specs.Prelude.{◌<◌};

use policies::hand::Hand;
use policies::old::Old;
use policies::policy::{EvictionPolicy, SlotNumber};
use std::array;
use std::process::Abort;

/// Numbers that look random, below 2^16.
#[derive(Drop)]
struct Random {
    state: u32,
}

impl Random {
    fn draw(&mut self) -> u32 {
        self.state = self
            .state
            .wrapping_mul(1_664_525)
            .wrapping_add(1_013_904_223);
        self.state >> 16
    }

    fn slot(&mut self) -> SlotNumber
        ensures { result < 8 }
    {
        self.draw() as usize % 8
    }

    fn permitted(&mut self) -> [bool; 8] {
        let bits = self.draw();
        array::from_fn(|slot| (bits >> slot) % 2 == 1)
    }
}

/// The lowest permitted slot of those from one on.
fn lowest(permitted: &[bool; 8], from: SlotNumber, count: usize) -> Option<SlotNumber> {
    (from..count.min(8)).find(|slot| permitted[*slot])
}

/// A hand: the lowest permitted slot that it has not passed, or else the lowest of all.
fn hand_agrees(rt: &impl Abort, count: usize, random: &mut Random) {
    let mut policy = Hand::new();
    policy.start(count);
    let mut hand = 0;
    for _ in 0..500 {
        policy.tell(random.slot());
        let permitted = random.permitted();
        let expected = lowest(&permitted, hand, count)
            .or(lowest(&permitted, 0, count))
            .unwrap_or(0);
        assert_eq!(rt; policy.name(&permitted), expected);
        hand = expected.wrapping_add(1);
    }
}

/// The permitted slot that was told of the longest ago.
fn oldest(stamps: &[u32; 8], permitted: &[bool; 8], count: usize) -> SlotNumber {
    (0..count.min(8))
        .filter(|slot| permitted[*slot])
        .min_by_key(|slot| stamps[*slot])
        .unwrap_or(0)
}

/// The oldest: each slot has the time at which it was told of last, and its number at the start.
fn old_agrees(rt: &impl Abort, count: usize, random: &mut Random) {
    let mut policy = Old::new();
    policy.start(count);
    let mut stamps = array::from_fn(|slot| slot as u32);
    for time in 8..508 {
        let slot = random.slot();
        policy.tell(slot);
        stamps[slot] = time;
        let permitted = random.permitted();
        assert_eq!(rt; policy.name(&permitted), oldest(&stamps, &permitted, count));
    }
}

#[test]
fn policies_agree(rt: HostRuntime) {
    let mut random = Random { state: 7 };
    for count in 2..9 {
        hand_agrees(&rt, count, &mut random);
        old_agrees(&rt, count, &mut random);
    }
}
