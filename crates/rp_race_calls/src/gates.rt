//! Gates that hold threads of a race until others have come so far.
use rp_clients::Gate;
use std::sync::atomic::{AtomicBool, Ordering};
use std::thread::yield_now;

/// So many turns a hold takes at most.
const MOST_TURNS: u64 = 10_000_000;

/// A door, shut at first, at which threads wait.
#[derive(Drop)]
struct Door {
    is_open: AtomicBool,
    is_worn: AtomicBool,
}

impl Door {
    fn new() -> Door {
        Door {
            is_open: AtomicBool::new(false),
            is_worn: AtomicBool::new(false),
        }
    }

    fn open(&self) {
        self.is_open.store(true, Ordering::SeqCst);
    }

    /// Waits until the door is open. It is worn where that takes all turns.
    fn wait(&self) {
        for _ in 0..MOST_TURNS {
            if self.is_open.load(Ordering::SeqCst) {
                return;
            }
            yield_now();
        }
        self.is_worn.store(true, Ordering::SeqCst);
    }

    /// Whether it was opened, and before the last turn of each that waited.
    fn was_opened(&self) -> bool {
        self.is_open.load(Ordering::SeqCst) && !self.is_worn.load(Ordering::SeqCst)
    }
}

/// Opens one door and waits at another.
fn meet(mine: &Door, other: &Door) {
    mine.open();
    other.wait();
}

/// Holds the first admission of client 1 until a command of client 2 has ended.
#[derive(Drop)]
pub struct SecondFirst {
    ended: Door,
}

impl SecondFirst {
    pub fn new() -> SecondFirst {
        SecondFirst { ended: Door::new() }
    }

    /// Whether no hold came to its last turn.
    pub fn was_opened(&self) -> bool {
        self.ended.was_opened()
    }
}

impl Gate for SecondFirst {
    fn before(&self, client: u16, _seq: u32) {
        if client == 1 {
            self.ended.wait();
        }
    }

    fn after(&self, client: u16, _seq: u32) {
        if client == 2 {
            self.ended.open();
        }
    }

    fn round(&self, _worker: u8) {}
}

/// Holds the first admissions of the clients 1 and 2, each until the other is reached, and likewise
/// the first rounds of the workers 0 and 1.
#[derive(Drop)]
pub struct Pairs {
    clients: (Door, Door),
    workers: (Door, Door),
}

impl Pairs {
    pub fn new() -> Pairs {
        Pairs {
            clients: (Door::new(), Door::new()),
            workers: (Door::new(), Door::new()),
        }
    }

    /// Whether no hold came to its last turn.
    pub fn were_opened(&self) -> bool {
        let clients = self.clients.0.was_opened() && self.clients.1.was_opened();
        clients && self.workers.0.was_opened() && self.workers.1.was_opened()
    }
}

impl Gate for Pairs {
    fn before(&self, client: u16, _seq: u32) {
        match client {
            1 => meet(&self.clients.0, &self.clients.1),
            2 => meet(&self.clients.1, &self.clients.0),
            _ => {}
        }
    }

    fn after(&self, _client: u16, _seq: u32) {}

    fn round(&self, worker: u8) {
        match worker {
            0 => meet(&self.workers.0, &self.workers.1),
            1 => meet(&self.workers.1, &self.workers.0),
            _ => {}
        }
    }
}
