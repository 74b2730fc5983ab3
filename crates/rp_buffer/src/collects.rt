//! Collecting items from a node's buffers.
ghost use Rattle.std.specs.Prelude.{◌≡◌, ◌+◌, ◌*◌, ◌/◌, ◌<◌, ◌≤◌, ◌++◌, [], length, Option};
ghost use Rattle.std.specs.Option.{option_to_list};
ghost use Rattle.rp_base.specs.declared.items.Item.{Item};
ghost use Rattle.rp_buffer.specs.Hands.{right_at, IsCarried};
ghost use Rattle.rp_buffer.specs.Passes.{known_by, IsPassOf, IsSame};
ghost use Rattle.rp_buffer.specs.Collects.{Sweeping, Takings, Takes, Shuts, Sweeps, Swept, Reopens, Collects, Appends};

use crate::flush::FlushPass;
use crate::keeps::{all_gone, gone_too, is_due, keep, kept, sixteen};
use crate::plays::{Open, Return, Shut, Take};
use crate::rights::Keep;
use crate::table::{BUFFERS, Pass, SlotTable};
use rp_base::{Item, Items};

impl SlotTable {
    /// Closes a buffer, unless it was closed before.
    fn shut(&self, pass: &mut Pass, buffer: usize)
        requires of { IsPassOf self.now pass.old }
        requires buffer { buffer < 40 }
        requires carried { IsCarried (right_at (known_by pass.old).rights (buffer / 8)) }
        ensures same { IsSame pass.old pass.new }
        ensures told { Shuts (known_by pass.old) buffer (known_by pass.new) }
        ensures sweeping { Sweeping (known_by pass.new) buffer }
        ensures none { Takings (known_by pass.old) buffer [] (known_by pass.new) }
    {
        let before = kept(&pass.rights, buffer);
        if let Keep::Open = before {
            let count = self.table.shared.swap::<Shut>(&mut pass.seat, buffer, 16);
            let gone = [false; 16];
            keep(&mut pass.rights, buffer, Keep::Closed { count, gone });
        }
    }

    /// Takes what is published at a place of a closed buffer.
    fn take_place(&self, pass: &mut Pass, buffer: usize, place: usize) -> Option<Item>
        requires of { IsPassOf self.now pass.old }
        requires place { place < 16 }
        requires sweeping { Sweeping (known_by pass.old) buffer }
        ensures same { IsSame pass.old pass.new }
        ensures told { Takes (known_by pass.old) (16 * buffer + place) result (known_by pass.new) }
        ensures sweeping { Sweeping (known_by pass.new) buffer }
    {
        let shared = &self.table.shared;
        let slot = 16 * buffer + place;
        let seen = shared.compare_exchange::<Take>(&mut pass.seat, BUFFERS + slot, 1, 0);
        if seen != 1 {
            return None;
        }
        let item = shared.exchange(&mut pass.seat, slot, None);
        shared.load::<Return>(&mut pass.seat, BUFFERS + slot);
        gone_too(&mut pass.rights, buffer, place);
        item
    }

    /// Looks at a place of a closed buffer, where it was drawn and not taken before.
    fn sweep(&self, pass: &mut Pass, buffer: usize, place: usize) -> Option<Item>
        requires of { IsPassOf self.now pass.old }
        requires place { place < 16 }
        requires sweeping { Sweeping (known_by pass.old) buffer }
        ensures same { IsSame pass.old pass.new }
        ensures told { Sweeps (known_by pass.old) buffer place result (known_by pass.new) }
        ensures sweeping { Sweeping (known_by pass.new) buffer }
    {
        let Keep::Closed { count, gone } = kept(&pass.rights, buffer) else {
            return None;
        };
        if is_due(count, &gone, place) {
            self.take_place(pass, buffer, place)
        } else {
            None
        }
    }

    /// Appends what is found at a place of a closed buffer.
    fn sweep_into(&self, pass: &mut Pass, buffer: usize, place: usize, out: &mut Items)
        requires of { IsPassOf self.now pass.old }
        requires place { place < 16 }
        requires sweeping { Sweeping (known_by pass.old) buffer }
        requires room { 1 ≤ out.old.spare }
        ensures same { IsSame pass.old pass.new }
        ensures told { (found : Option Item) × (out.new.list ≡ out.old.list ++ option_to_list found)
            × (out.old.spare ≤ out.new.spare + length (option_to_list found))
            × Sweeps (known_by pass.old) buffer place found (known_by pass.new) }
        ensures sweeping { Sweeping (known_by pass.new) buffer }
    {
        if let Some(item) = self.sweep(pass, buffer, place) {
            out.push(item);
        }
    }

    /// Opens a closed buffer again, where each place that was drawn is taken.
    fn reopen(&self, pass: &mut Pass, buffer: usize)
        requires of { IsPassOf self.now pass.old }
        requires sweeping { Sweeping (known_by pass.old) buffer }
        ensures same { IsSame pass.old pass.new }
        ensures told { Reopens (known_by pass.old) buffer (known_by pass.new) }
        ensures carried { IsCarried (right_at (known_by pass.new).rights (buffer / 8)) }
    {
        let Keep::Closed { count, gone } = kept(&pass.rights, buffer) else {
            return;
        };
        sixteen(&gone);
        let all = all_gone(count, &gone);
        if all {
            self.table.shared.swap::<Open>(&mut pass.seat, buffer, 0);
            keep(&mut pass.rights, buffer, Keep::Open);
        }
    }

    /// Appends what is found at the sixteen places of a closed buffer, in order.
    fn sweep_all(&self, pass: &mut Pass, buffer: usize, out: &mut Items)
        requires of { IsPassOf self.now pass.old }
        requires sweeping { Sweeping (known_by pass.old) buffer }
        requires room { 16 ≤ out.old.spare }
        ensures same { IsSame pass.old pass.new }
        ensures told { Appends (Swept buffer 16 (known_by pass.old)) out.old out.new (known_by pass.new) }
        ensures sweeping { Sweeping (known_by pass.new) buffer }
    {
        for place in 0..16 {
            self.sweep_into(pass, buffer, place, out);
        }
    }

    /// Closes a buffer of the flush's node, unless it is closed, takes what is published at the
    /// places that were drawn, in order, and opens it again where all of these are taken. A drawn
    /// place is passed over only where its word was not 1 when this call looked at it. It takes no
    /// memory and does not wait.
    pub fn collect(&self, pass: &mut FlushPass, buffer: u8, out: &mut Items)
        requires of { IsPassOf self.now pass.old.pass }
        requires node { buffer / 8 + 1 ≡ pass.old.node }
        requires room { 16 ≤ out.old.spare }
        ensures same { IsSame pass.old.pass pass.new.pass }
        ensures node { pass.new.node ≡ pass.old.node }
        ensures parts { (known_by pass.new.pass).parts ≡ (known_by pass.old.pass).parts }
        ensures told { Appends (Collects (known_by pass.old.pass) buffer) out.old out.new
            (known_by pass.new.pass) }
    {
        let buffer = usize::from(buffer);
        self.shut(&mut pass.pass, buffer);
        self.sweep_all(&mut pass.pass, buffer, out);
        self.reopen(&mut pass.pass, buffer);
    }
}
