//! A worker's seat at a switch, with what it keeps of each node.
ghost use Rattle.std.specs.Prelude.{◌≡◌, ◌≢◌, ℕ, ◌+◌, ◌≤◌, true, Some, IfOk, OnOk};
ghost use Rattle.rp_race.specs.Ends.{IsWaitedOutForGood, patience};
ghost use Rattle.rp_serving.specs.Playing.{HandsWithin, GivesFew};
ghost use Rattle.rp_switch.specs.Rules.{clients_of, IsTrueOf};
ghost use Rattle.rp_switch.specs.Seats.{known_by};
ghost use Rattle.rp_bench.specs.Dues.{IsPulled};
ghost use Rattle.rp_bench.specs.Stations.{IsAtWork, MayPlay, AreTrue};
ghost use Rattle.rp_bench.specs.Whence.{IsSeated};
ghost use Rattle.rp_bench.specs.Props.{at_work_prop};

use crate::asks::Asks;
use crate::boards::Board;
use crate::origins::Origin;
use crate::patience::{all_had, some_waited};
use crate::rows::is_due;
use crate::stations::Station;
use crate::visits::{copy, new_outcomes, play_round};
use rp_base::{NoMemory, NodeId};
use rp_bufcore::BufferEnd;
use rp_clients::Answer;
use rp_events::{Ended, Outcomes};
use rp_switch::{Seat, Switch};
use std::alloc::Global;
use std::sync::Wait;
use std::thread::yield_now;

/// A worker's seat at a switch, and what the worker keeps of each node. The seat has no node between
/// two calls.
#[derive(Drop)]
pub struct WorkerSeat<'a, R: Wait, E: BufferEnd + Drop, K: Origin> {
    pub(crate) rt: &'a R,
    pub(crate) alloc: Global,
    pub(crate) switch: &'a Switch<E>,
    pub(crate) board: &'a Board,
    pub(crate) seat: Seat<E>,
    pub(crate) asks: Asks<'a, R, K>,
    pub(crate) stations: [Station; 5],
    pub(crate) most: Option<u64>,
    pub ghost seated: { IsSeated K.from switch.now seat },
    pub ghost board_is: { board.now.clients ≡ clients_of K.from.known.terms },
    pub ghost most_is: { (rounds : ℕ) → most ≡ Some rounds → rounds ≡ patience K.from.known.terms.rules },
    pub ghost hands: { HandsWithin K.from.known.terms.nodes K.from.known.terms.rules },
    pub ghost few: { GivesFew E.gives },
    pub ghost at_work: { IsAtWork (known_by seat) stations } by { at_work_prop (known_by seat) stations },
}

impl<'a, R: Wait, E: BufferEnd + Drop, K: Origin> WorkerSeat<'a, R, E, K> {
    /// Takes a node, copies for another one what it has sent since the last time, and gives it back.
    pub(crate) fn copy(&mut self, from: NodeId, to: NodeId) -> Result<(), NoMemory>
        requires from { from ≤ K.from.known.terms.nodes }
        requires to { to ≤ K.from.known.terms.nodes }
        requires apart { from ≢ to }
        requires pulled { IsPulled (known_by self.old.seat).seen self.old.stations to from }
        ensures pulled { OnOk result (IsPulled (known_by self.new.seat).seen self.new.stations to (from + 1)) }
    {
        copy(
            self.rt,
            self.switch,
            &mut self.seat,
            &mut self.stations,
            from,
            to,
        )
    }

    /// Whether a round of the node is to be played now.
    pub(crate) fn is_due(&self, node: NodeId) -> bool
        requires node { node ≤ K.from.known.terms.nodes }
        requires pulled { IsPulled (known_by self.now.seat).seen self.now.stations node (K.from.known.terms.nodes + 1) }
        ensures { result ≡ true → MayPlay (known_by self.now.seat) self.now.stations node }
    {
        is_due(&self.stations, self.switch.nodes(), node)
    }

    /// Takes the node, plays a round, and gives it back, whole or broken off. `NoMemory` where memory
    /// was refused.
    pub(crate) fn play(&mut self, node: NodeId) -> Result<(), NoMemory>
        requires node { node ≤ K.from.known.terms.nodes }
        requires may { MayPlay (known_by self.old.seat) self.old.stations node }
    {
        play_round(
            self.rt,
            self.switch,
            &mut self.seat,
            &mut self.stations,
            &mut self.asks,
            node,
        )
    }

    /// Takes a node, copies its outcomes that came since the last time, and gives it back.
    fn new_outcomes(&mut self, node: NodeId) -> Result<Outcomes, NoMemory>
        requires { node ≤ K.from.known.terms.nodes }
        ensures { IfOk result (λ ends. AreTrue K.from.known.terms (known_by self.new.seat).seen ends) }
    {
        new_outcomes(
            self.rt,
            self.alloc,
            self.switch,
            &mut self.seat,
            &mut self.stations,
            node,
        )
    }

    /// Posts an answer once: whether the client's cell was empty.
    fn is_posted(&mut self, client: u16, answer: &Answer) -> bool
        requires client { (1 ≤ client) × (client ≤ clients_of K.from.known.terms) }
        requires is { IsTrueOf K.from.known.terms (known_by self.old.seat).seen client answer.now }
        ensures { (known_by self.new.seat).seen ≡ (known_by self.old.seat).seen }
    {
        self.switch
            .try_post(&mut self.seat, client, *answer)
            .is_ok()
    }

    /// Offers a client an answer once: whether it was posted, or the client does not go on.
    pub(crate) fn is_settled(&mut self, client: u16, answer: &Answer) -> bool
        requires { IsTrueOf K.from.known.terms (known_by self.old.seat).seen client answer.now }
        ensures { (known_by self.new.seat).seen ≡ (known_by self.old.seat).seen }
    {
        if self.board.goes_on(client) {
            self.is_posted(client, answer)
        } else {
            true
        }
    }

    /// Posts an answer, tried until the client's cell is empty, the client does not go on, or the race
    /// is to stop.
    fn tell(&mut self, client: u16, answer: &Answer)
        requires { IsTrueOf K.from.known.terms (known_by self.old.seat).seen client answer.now }
        ensures { (known_by self.new.seat).seen ≡ (known_by self.old.seat).seen }
    {
        for _ in self.rt.forever() {
            if self.board.is_stopped() || self.is_settled(client, answer) {
                return;
            }
            yield_now();
        }
    }

    /// Posts each of these ends to its client.
    fn tell_all(&mut self, ends: &[Ended])
        requires { AreTrue K.from.known.terms (known_by self.old.seat).seen ends.now }
        ensures { (known_by self.new.seat).seen ≡ (known_by self.old.seat).seen }
    {
        for ended in ends {
            let Ended { id, outcome } = *ended;
            self.tell(id.client, &Answer::Ended { id, outcome });
        }
    }

    /// Offers each client an answer once.
    pub(crate) fn offer(&mut self, answer: &Answer)
        requires { (client : ℕ) → IsTrueOf K.from.known.terms (known_by self.old.seat).seen client answer.now }
        ensures { (known_by self.new.seat).seen ≡ (known_by self.old.seat).seen }
    {
        for place in 0..self.board.clients() {
            self.is_settled(place + 1, answer);
        }
    }

    /// Whether the seat has seen that no more is to be waited for.
    fn is_waited_out(&self) -> bool
        ensures { result ≡ true
            → IsWaitedOutForGood (patience K.from.known.terms.rules) (known_by self.now.seat).seen }
    {
        let nodes = self.switch.nodes();
        match self.most {
            Some(rounds) => {
                all_had(&self.stations, nodes, rounds) && some_waited(&self.stations, nodes, rounds)
            }
            None => false,
        }
    }

    /// Posts the node's new outcomes; and that all is over, where no more is to be waited for.
    pub(crate) fn post(&mut self, node: NodeId) -> Result<(), NoMemory>
        requires { node ≤ K.from.known.terms.nodes }
    {
        let ends = self.new_outcomes(node)?;
        self.tell_all(ends.as_slice());
        if self.is_waited_out() {
            self.offer(&Answer::Over);
        }
        Ok(())
    }

    /// Tells each client that goes on that memory was refused, until all have ended.
    pub(crate) fn dismiss(&mut self) {
        for _ in self.rt.forever() {
            if self.board.is_over() {
                return;
            }
            self.offer(&Answer::NoMemory);
            yield_now();
        }
    }
}
