// Two desks of one round are at work at once: each waits, before its second call, until the other has come to its own.
use crate::played::play;
use bt_centre::Gate;
use std::sync::atomic::{AtomicU64, Ordering};
use std::test;
use std::thread::yield_now;

// Two beams, two terminals in each, and four slots.
const NETWORK: &str =
    "{\"beams\": [\"N\", \"S\"], \"terminals\": [{\"name\": \"A\", \"beam\": \"N\"}, {\"name\": \"B\", \"beam\": \"S\"}, {\"name\": \"C\", \"beam\": \"N\"}, {\"name\": \"D\", \"beam\": \"S\"}], \"slots\": 4, \"frames\": 4, \"lead\": 2, \"patience\": 3}";

// Two edits by each of two desks.
const SCRIPT: &str =
    "round\ndesk 1 add A B 1\ndesk 1 add A B 1\ndesk 2 add A B 1\ndesk 2 add A B 1\n";

// How often a desk looks for the other before it goes on alone.
const MOST_LOOKS: u32 = 10_000_000;

// What a desk shows to the other, and how many of its calls were answered.
#[derive(Drop)]
struct Desk {
    has_come: AtomicU64,
    answered: AtomicU64,
}

impl Desk {
    fn new() -> Desk {
        Desk {
            has_come: AtomicU64::new(0),
            answered: AtomicU64::new(0),
        }
    }

    // Whether the desk comes while it is looked for.
    fn comes(&self) -> bool {
        for _ in 0..MOST_LOOKS {
            if self.has_come.load(Ordering::SeqCst) != 0 {
                return true;
            }
            yield_now();
        }
        false
    }
}

// The gate at which desks 1 and 2 meet, and how often one of them waited in vain.
#[derive(Drop)]
struct Meeting {
    first: Desk,
    second: Desk,
    missed: AtomicU64,
}

impl Meeting {
    fn new() -> Meeting {
        Meeting {
            first: Desk::new(),
            second: Desk::new(),
            missed: AtomicU64::new(0),
        }
    }

    // The desk that calls, and the other. Desk `d` is caller `d + 1`.
    fn desks(&self, caller: u32) -> Option<(&Desk, &Desk)> {
        match caller {
            2 => Some((&self.first, &self.second)),
            3 => Some((&self.second, &self.first)),
            _ => None,
        }
    }
}

impl Gate for Meeting {
    fn before(&self, caller: u32, call: u32) {
        if call != 1 {
            return;
        }
        if let Some((own, other)) = self.desks(caller) {
            own.has_come.store(1, Ordering::SeqCst);
            if !other.comes() {
                self.missed.fetch_add(1, Ordering::SeqCst);
            }
        }
    }

    fn after(&self, caller: u32, _: u32) {
        if let Some((own, _)) = self.desks(caller) {
            own.answered.fetch_add(1, Ordering::SeqCst);
        }
    }
}

#[test]
fn two_desks_of_a_round_are_at_work_at_once(rt: HostRuntime) -> Result<(), test::Fail> {
    let gate = Meeting::new();
    let Some((status, _)) = play(&rt, rt.alloc(), NETWORK, SCRIPT, &gate) else {
        assert!(rt; false, "out of memory");
        return Ok(());
    };
    assert_eq!(rt; status, 0);
    assert_eq!(rt; gate.missed.load(Ordering::SeqCst), 0);
    assert_eq!(rt; gate.first.answered.load(Ordering::SeqCst), 2);
    assert_eq!(rt; gate.second.answered.load(Ordering::SeqCst), 2);
    Ok(())
}
