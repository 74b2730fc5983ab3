//! How many commands each client has.
ghost use Rattle.std.specs.Prelude.{◌≡◌, ◌+◌, ◌<◌, ◌≤◌, ◌^◌, length};
ghost use Rattle.rp_base.specs.ClientCounts.{no_counts, count_of, one_more_of};

use std::marker::Model;

/// How many commands each of the clients 1 to 64 has. Contracts see the 64 numbers in order.
#[derive(Drop)]
pub struct ClientCounts {
    counts: [u32; 64],
}

impl Model for ClientCounts {
    ghost use Rattle.std.specs.Prelude.{◌≡◌, List, ℕ, length};

    ghost Value = { List ℕ };

    ghost view = { λ c. c.counts };

    ghost invariant = { λ c. length c.counts ≡ 64 };
}

impl ClientCounts {
    /// No client has any.
    pub fn new() -> ClientCounts
        ensures counts { result ≡ no_counts }
        ensures clients { length result ≡ 64 }
    {
        ClientCounts { counts: [0; 64] }
    }

    /// How many the client has.
    pub fn get(&self, client: u16) -> u32
        requires from_one { 1 ≤ client }
        requires to_limit { client ≤ 64 }
        ensures number { result ≡ count_of self.now client }
        ensures clients { length self.now ≡ 64 }
    {
        self.counts[usize::from(client) - 1]
    }

    /// Gives the client one more, and answers how many it has then.
    pub fn add_one(&mut self, client: u16) -> u32
        requires from_one { 1 ≤ client }
        requires to_limit { client ≤ 64 }
        requires below_end { count_of self.old client + 1 < 2 ^ 32 }
        ensures number { result ≡ count_of self.old client + 1 }
        ensures counts { self.new ≡ one_more_of self.old client }
        ensures clients { length self.new ≡ 64 }
    {
        let place = usize::from(client) - 1;
        self.counts[place] += 1;
        self.counts[place]
    }
}
