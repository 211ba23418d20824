//! Worked scenes.
use policies::hand::Hand;
use policies::old::Old;
use policies::policy::{EvictionPolicy, SlotNumber};
use std::process::Abort;

enum Step {
    Start(usize),
    Tell(SlotNumber),
    /// The permitted slots, slot 0 first, and the slot that is named.
    Name([bool; 8], SlotNumber),
}

const ALL: [bool; 8] = [true; 8];

const NONE: [bool; 8] = [false; 8];

const FIRST: [bool; 8] = [true, false, false, false, false, false, false, false];

const ODD: [bool; 8] = [false, true, false, true, false, true, false, true];

const UPPER: [bool; 8] = [false, false, false, false, true, true, true, true];

const HAND_STEPS: [Step; 22] = [
    Step::Name(UPPER, 4),
    Step::Name(ALL, 5),
    Step::Start(4),
    Step::Name(ALL, 0),
    Step::Name(ALL, 1),
    Step::Tell(2),
    Step::Name(ALL, 2),
    Step::Name(ALL, 3),
    Step::Name(ALL, 0),
    Step::Name(ODD, 1),
    Step::Name(ODD, 3),
    Step::Name(ODD, 1),
    Step::Name(FIRST, 0),
    Step::Name(FIRST, 0),
    Step::Name(ALL, 1),
    Step::Name(UPPER, 0),
    Step::Name(ALL, 1),
    Step::Start(9),
    Step::Name(UPPER, 4),
    Step::Start(0),
    Step::Name(ALL, 0),
    Step::Name(NONE, 0),
];

const OLD_STEPS: [Step; 22] = [
    Step::Name(UPPER, 4),
    Step::Tell(4),
    Step::Name(UPPER, 5),
    Step::Start(3),
    Step::Name(ALL, 0),
    Step::Name(ALL, 0),
    Step::Tell(0),
    Step::Name(ALL, 1),
    Step::Tell(7),
    Step::Name(ALL, 1),
    Step::Tell(1),
    Step::Name(ALL, 2),
    Step::Name(ODD, 1),
    Step::Tell(2),
    Step::Tell(0),
    Step::Name(ALL, 1),
    Step::Name(UPPER, 0),
    Step::Start(9),
    Step::Tell(0),
    Step::Name(ALL, 1),
    Step::Start(0),
    Step::Name(ALL, 0),
];

fn plays<P: EvictionPolicy>(rt: &impl Abort, policy: &mut P, steps: &[Step]) {
    for step in steps {
        match step {
            Step::Start(count) => policy.start(*count),
            Step::Tell(slot) => policy.tell(*slot),
            Step::Name(permitted, slot) => assert_eq!(rt; policy.name(permitted), *slot),
        }
    }
}

#[test]
fn hand_goes_round(rt: HostRuntime) {
    plays(&rt, &mut Hand::new(), &HAND_STEPS);
}

#[test]
fn oldest_goes_first(rt: HostRuntime) {
    plays(&rt, &mut Old::new(), &OLD_STEPS);
}
