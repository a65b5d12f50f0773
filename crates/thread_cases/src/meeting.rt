// Threads that wait for each other, for so long.
use search_thread::Gate;
use std::hint;
use std::sync::atomic::{AtomicBool, Ordering};

// How often a thread looks for a sign before it gives up: for half a second of processor time and more. A sign that comes at all comes
// sooner.
const MOST_TURNS: u32 = 100_000_000;

// What one thread puts up and others wait for.
#[derive(Drop)]
pub struct Sign {
    is_up: AtomicBool,
    was_missed: AtomicBool,
}

impl Sign {
    pub fn new() -> Sign {
        Sign {
            is_up: AtomicBool::new(false),
            was_missed: AtomicBool::new(false),
        }
    }

    pub fn put_up(&self) {
        self.is_up.store(true, Ordering::SeqCst);
    }

    // Waits until it is up. Who gives up says so, and nobody waits for it any more.
    pub fn wait(&self) {
        for _ in 0..MOST_TURNS {
            if self.is_up.load(Ordering::SeqCst) {
                return;
            }
            hint::spin_loop();
        }
        self.was_missed.store(true, Ordering::SeqCst);
        self.put_up();
    }

    // Whether it was put up in time for all who waited.
    pub fn was_in_time(&self) -> bool {
        self.is_up.load(Ordering::SeqCst) && !self.was_missed.load(Ordering::SeqCst)
    }
}

// A gate that holds who has a leaf out, until it is let go.
#[derive(Drop)]
pub struct HeldGate {
    pub entered: Sign,
    pub let_go: Sign,
}

impl HeldGate {
    pub fn new() -> HeldGate {
        HeldGate {
            entered: Sign::new(),
            let_go: Sign::new(),
        }
    }

    // Whether nobody waited in vain.
    pub fn was_passed(&self) -> bool {
        self.entered.was_in_time() && self.let_go.was_in_time()
    }
}

impl Gate for HeldGate {
    fn between(&self, _actor: u32) {
        self.entered.put_up();
        self.let_go.wait();
    }
}
