use std::sync::atomic::{AtomicBool, AtomicU64, Ordering};
use std::thread;
use vc_ports::Gate;

// How often one that waits asks before it gives up. Each turn yields the processor.
const TURNS: u64 = 10_000_000;

/// Holds the first worker that comes, until it is opened, and lets all others pass.
#[derive(Drop)]
pub struct Doorkeeper {
    // The slice of the worker that is held, and the one that passed last, each plus 1.
    held: AtomicU64,
    passed: AtomicU64,
    is_open: AtomicBool,
}

impl Doorkeeper {
    /// Nobody came yet.
    pub fn new() -> Doorkeeper {
        Doorkeeper {
            held: AtomicU64::new(0),
            passed: AtomicU64::new(0),
            is_open: AtomicBool::new(false),
        }
    }

    /// Whether the worker that is held comes with this slice.
    pub fn comes_to_hold(&self, slice: u32) -> bool {
        comes(&self.held, slice)
    }

    /// Whether another one comes to pass with this slice.
    pub fn comes_to_let_pass(&self, slice: u32) -> bool {
        comes(&self.passed, slice)
    }

    /// Lets the worker go that is held.
    pub fn open(&self) {
        self.is_open.store(true, Ordering::SeqCst);
    }
}

// Whether the word comes to have this slice, plus 1.
fn comes(word: &AtomicU64, slice: u32) -> bool {
    for _turn in 0..TURNS {
        if word.load(Ordering::SeqCst) == slice as u64 + 1 {
            return true;
        }
        thread::yield_now();
    }
    false
}

impl Gate for Doorkeeper {
    fn pass(&self, _worker: u32, slice: u32) {
        let slice = slice as u64 + 1;
        let first = self
            .held
            .compare_exchange(0, slice, Ordering::SeqCst, Ordering::SeqCst);
        if first.is_err() {
            self.passed.store(slice, Ordering::SeqCst);
            return;
        }
        for _turn in 0..TURNS {
            if self.is_open.load(Ordering::SeqCst) {
                return;
            }
            thread::yield_now();
        }
    }
}
