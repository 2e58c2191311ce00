// A show of a desk gives the plan that the planner has posted by then, in the same round.
use crate::played::play;
use bt_centre::Gate;
use std::sync::atomic::{AtomicU64, Ordering};
use std::test;
use std::thread::yield_now;

// Two terminals, each in a beam of its own, and four slots.
const NETWORK: &str =
    "{\"beams\": [\"N\", \"S\"], \"terminals\": [{\"name\": \"A\", \"beam\": \"N\"}, {\"name\": \"B\", \"beam\": \"S\"}], \"slots\": 4, \"frames\": 4, \"lead\": 2, \"patience\": 3}";

// An edit that is done, one that is refused, and a show; and two lines of the planner.
const SCRIPT: &str = "round\ndesk 1 add A B 1\ndesk 1 add A A 1\ndesk 1 show A\nplan\nplan\n";

// What must be printed: the show gives the plan that was installed in its round.
const PRINTED: &[u8] = b"start edition 0 plan 0 mark 0
round 1
desk 1 done 1 1
desk 1 refused E1
desk 1 shows 1 length 1 modes 1
burst 0 1 A B
plan 1 length 1 modes 1 bursts 1
plan nothing new
total done 1 refused 1 store 0
";

// How often a worker looks for the other before it goes on alone.
const MOST_LOOKS: u32 = 10_000_000;

// Something that a worker has come to.
#[derive(Drop)]
struct Milestone {
    reached: AtomicU64,
}

impl Milestone {
    fn new() -> Milestone {
        Milestone {
            reached: AtomicU64::new(0),
        }
    }

    fn reach(&self) {
        self.reached.store(1, Ordering::SeqCst);
    }

    // Whether it is reached while it is looked for.
    fn comes(&self) -> bool {
        for _ in 0..MOST_LOOKS {
            if self.reached.load(Ordering::SeqCst) != 0 {
                return true;
            }
            yield_now();
        }
        false
    }
}

// The gate at which the planner waits for desk 1's first edit, and desk 1, before its second, for the planner's second
// line. By then the plan of the first one is posted. It counts how often one of them waited in vain.
#[derive(Drop)]
struct Posting {
    edited: Milestone,
    posted: Milestone,
    missed: AtomicU64,
}

impl Posting {
    fn new() -> Posting {
        Posting {
            edited: Milestone::new(),
            posted: Milestone::new(),
            missed: AtomicU64::new(0),
        }
    }

    fn wait_for(&self, milestone: &Milestone) {
        if !milestone.comes() {
            self.missed.fetch_add(1, Ordering::SeqCst);
        }
    }
}

// The planner is caller 1, and its first line makes two calls; desk 1 is caller 2.
impl Gate for Posting {
    fn before(&self, caller: u32, call: u32) {
        match (caller, call) {
            (1, 0) => self.wait_for(&self.edited),
            (1, 2) => self.posted.reach(),
            (2, 1) => self.wait_for(&self.posted),
            _ => {}
        }
    }

    fn after(&self, caller: u32, call: u32) {
        if let (2, 0) = (caller, call) {
            self.edited.reach();
        }
    }
}

#[test]
fn a_show_gives_a_plan_that_was_posted_in_its_round(rt: HostRuntime) -> Result<(), test::Fail> {
    let gate = Posting::new();
    let Some((status, printed)) = play(&rt, rt.alloc(), NETWORK, SCRIPT, &gate) else {
        assert!(rt; false, "out of memory");
        return Ok(());
    };
    assert_eq!(rt; status, 0);
    assert_eq!(rt; gate.missed.load(Ordering::SeqCst), 0);
    assert_eq!(rt; printed.as_slice(), PRINTED);
    Ok(())
}
