//! What the threads of a race tell one another of its end.
ghost use Rattle.std.specs.Prelude.{◌≡◌, ◌≤◌, true};

use std::sync::atomic::{AtomicBool, AtomicU64, Ordering};

/// Which clients of a race have ended, and whether the race is to stop. All threads share it; none
/// waits at it.
#[derive(Drop)]
pub struct Board {
    clients: u16,
    /// The bit of a client that has ended is 1; that of client 1 is the lowest.
    ended: AtomicU64,
    stopped: AtomicBool,
    ghost few: { clients ≤ 64 },
}

impl Board {
    /// No client of so many has ended, and the race goes on.
    pub fn new(clients: u16) -> Board
        requires { clients ≤ 64 }
        ensures { result.clients ≡ clients }
    {
        Board {
            clients,
            ended: AtomicU64::new(0),
            stopped: AtomicBool::new(false),
        }
    }

    /// How many clients there are.
    pub fn clients(&self) -> u16
        ensures { result ≡ self.now.clients }
    {
        self.clients
    }

    /// A client has ended: nothing more is posted for it.
    pub fn end(&self, client: u16)
        requires { (1 ≤ client) × (client ≤ self.now.clients) }
    {
        self.ended.fetch_or(1 << (client - 1), Ordering::SeqCst);
    }

    /// Whether there is such a client and it has not ended.
    pub fn goes_on(&self, client: u16) -> bool
        ensures { result ≡ true → (1 ≤ client) × (client ≤ self.now.clients) }
    {
        if client == 0 || client > self.clients {
            return false;
        }
        let ended = self.ended.load(Ordering::SeqCst);
        ended & (1 << (client - 1)) == 0
    }

    /// Whether all clients have ended.
    pub fn is_over(&self) -> bool {
        let ended = self.ended.load(Ordering::SeqCst);
        ended.count_ones() >= u32::from(self.clients)
    }

    /// The race is to stop: memory was refused somewhere.
    pub fn stop(&self) {
        self.stopped.store(true, Ordering::SeqCst);
    }

    /// Whether the race is to stop.
    pub fn is_stopped(&self) -> bool {
        self.stopped.load(Ordering::SeqCst)
    }
}
