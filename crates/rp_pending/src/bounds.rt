//! Bounds on what is proposed in blocks of slots: a refresh passes over blocks in which nothing can
//! be due.
ghost use Rattle.std.specs.Prelude.{◌≡◌, ◌≢◌, ◌⊎◌, ℕ, ◌+◌, ◌*◌, ◌<◌, ◌≤◌, ◌^◌, None, Some, List, length, slice_get};
ghost use Rattle.std.specs.Option.{option_and_then};
ghost use Rattle.rp_pending.specs.Bounds.{bound_at, lowest, may_hold, wanted_of, Below, Covers, CoversBut, IsBelow, Spans};
ghost use Rattle.rp_pending.specs.Slots.{Slot};

use crate::proposals::Proposal;
use crate::refreshes::REFRESH_TICKS;
use crate::slots::Slots;
use rp_base::{LeaseIndex, NoMemory, Tick};
use std::alloc::Global;

/// How many slots a block has, and how many blocks a row.
const BLOCK: usize = 32;

/// How many slots a row has.
const ROW: usize = 1024;

/// No proposed one of these slots has a lesser maximum, nor was proposed at an earlier tick.
#[derive(Clone, Copy)]
pub(crate) struct Bound {
    pub max: u64,
    pub since: u64,
}

/// A bound on each block of slots, and on each row of blocks. Where one is missing, nothing is
/// passed over.
#[derive(Drop)]
pub(crate) struct Bounds {
    pub narrow: Vec<Bound>,
    pub wide: Vec<Bound>,
}

/// What a refresh looks for where it does not concern all.
#[derive(Clone, Copy)]
pub(crate) enum Wanted {
    /// What goes back to wait.
    Back { lai: LeaseIndex },
    /// What was proposed so long ago that it is proposed again.
    Again { lai: LeaseIndex, now: Tick },
}

/// The bound on slots in which nothing is proposed.
const HIGHEST: Bound = Bound {
    max: u64::MAX,
    since: u64::MAX,
};

/// The bound on any slots.
const LOWEST: Bound = Bound { max: 0, since: 0 };

impl Bound {
    /// The bound on what either bounds.
    fn least(self, other: Bound) -> Bound
        ensures own { Below result self }
        ensures other { Below result other }
    {
        Bound {
            max: self.max.min(other.max),
            since: self.since.min(other.since),
        }
    }

    /// The bound on one slot.
    fn of_slot(slot: &Option<Proposal>) -> Bound
        ensures { IsBelow result slot.now }
    {
        match slot {
            Some(proposal) if proposal.stage.is_proposed() => Bound {
                max: proposal.max.get(),
                since: proposal.since.get(),
            },
            _ => HIGHEST,
        }
    }

    /// Whether something that is wanted may be there.
    fn may_hold(self, wanted: &Wanted) -> bool
        ensures { result ≡ may_hold wanted.now self }
    {
        match *wanted {
            Wanted::Back { lai } => self.max <= lai.get(),
            Wanted::Again { now, .. } => { now.get().saturating_sub(self.since) >= REFRESH_TICKS }
        }
    }
}

/// The bound with this number.
fn bound_at(bounds: &[Bound], number: usize) -> Bound
    ensures { result ≡ bound_at bounds.now number }
{
    match bounds.get(number) {
        None => LOWEST,
        Some(bound) => *bound,
    }
}

/// The bound on the block that begins at this slot.
fn of_block(slots: &Slots, from: usize) -> Bound
    requires { from + 32 < 2 ^ 64 }
    ensures { (j : ℕ) (s : Slot) → j < 32 → slice_get slots.now.entries (from + j) ≡ Some s
        → IsBelow result s.1 }
{
    let mut bound = HIGHEST;
    for place in 0..BLOCK {
        if let Some((_, slot)) = slots.get_index(from + place) {
            bound = bound.least(Bound::of_slot(slot));
        }
    }
    bound
}

/// The bound on the row that begins with this block.
fn of_row(narrow: &[Bound], from: usize) -> Bound
    requires { from + 32 < 2 ^ 64 }
    ensures { (k : ℕ) → k < 32 → Below result (bound_at narrow.now (from + k)) }
{
    let mut bound = HIGHEST;
    for place in 0..BLOCK {
        bound = bound.least(bound_at(narrow, from + place));
    }
    bound
}

/// Sets the bound with this number, where there is one.
fn set(bounds: &mut Vec<Bound>, number: usize, bound: Bound)
    ensures own { bound_at bounds.new.items number ≡ bound
        ⊎ bound_at bounds.new.items number ≡ lowest }
    ensures others { (k : ℕ) → k ≢ number
        → bound_at bounds.new.items k ≡ bound_at bounds.old.items k }
    ensures length { length bounds.new.items ≡ length bounds.old.items }
{
    if number < bounds.len() {
        bounds[number] = bound;
    }
}

/// Bounds the block of this slot, and its row, as the slot stands now.
pub(crate) fn note(bounds: &mut Bounds, slots: &Slots, place: usize)
    requires covers { CoversBut place bounds.old.narrow.items slots.now.entries }
    requires spans { Spans bounds.old.wide.items bounds.old.narrow.items }
    requires there { place < length slots.now.entries }
    ensures covers { Covers bounds.new.narrow.items slots.now.entries }
    ensures spans { Spans bounds.new.wide.items bounds.new.narrow.items }
{
    // There are fewer slots than 2^63.
    let _ = slots.len();
    let block = place / BLOCK;
    let row = block / BLOCK;
    set(&mut bounds.narrow, block, of_block(slots, block * BLOCK));
    let bound = of_row(&bounds.narrow, row * BLOCK);
    set(&mut bounds.wide, row, bound);
}

/// Bounds each block.
fn fill_narrow(narrow: &mut Vec<Bound>, slots: &Slots)
    ensures { Covers narrow.new.items slots.now.entries }
{
    let blocks = narrow.len().min(slots.len() / BLOCK + 1);
    for block in 0..blocks {
        set(narrow, block, of_block(slots, block * BLOCK));
    }
}

/// Bounds each row of blocks.
fn fill_wide(wide: &mut Vec<Bound>, narrow: &[Bound])
    ensures { Spans wide.new.items narrow.now }
{
    wide.truncate(narrow.len() / BLOCK);
    for row in 0..wide.len() {
        set(wide, row, of_row(narrow, row * BLOCK));
    }
}

/// Bounds each block and each row.
pub(crate) fn rebuild(bounds: &mut Bounds, slots: &Slots)
    ensures covers { Covers bounds.new.narrow.items slots.now.entries }
    ensures spans { Spans bounds.new.wide.items bounds.new.narrow.items }
{
    fill_narrow(&mut bounds.narrow, slots);
    fill_wide(&mut bounds.wide, &bounds.narrow);
}

/// Makes room for this many rows.
fn widen(bounds: &mut Bounds, rows: usize) -> Result<(), NoMemory> {
    bounds.narrow.resize(rows.saturating_mul(BLOCK), LOWEST)?;
    bounds.wide.resize(rows, LOWEST)?;
    Ok(())
}

/// Makes room for the bounds of n slots more. It is doubled each time, so over all calls a slot is
/// looked at twice.
pub(crate) fn grow(bounds: &mut Bounds, slots: &Slots, n: usize) -> Result<(), NoMemory>
    requires covers { Covers bounds.old.narrow.items slots.now.entries }
    requires spans { Spans bounds.old.wide.items bounds.old.narrow.items }
    ensures covers { Covers bounds.new.narrow.items slots.now.entries }
    ensures spans { Spans bounds.new.wide.items bounds.new.narrow.items }
{
    let rows = slots.len().saturating_add(n) / ROW + 1;
    let held = bounds.wide.len();
    if rows <= held {
        return Ok(());
    }
    let grown = widen(bounds, rows.max(held.saturating_mul(2)));
    rebuild(bounds, slots);
    grown
}

/// How many slots from this one on may be passed over.
#[tactic(auto, using(crate::proofs::Blocks::block_passed, crate::proofs::Blocks::row_passed))]
pub(crate) fn passed(bounds: &Bounds, at: usize, wanted: &Wanted) -> usize
    ensures few { result ≤ 1024 }
    ensures passed { (es : List Slot) → Covers bounds.now.narrow.items es
        → Spans bounds.now.wide.items bounds.now.narrow.items
        → (j : ℕ) (s : Slot) → j < result → slice_get es (at + j) ≡ Some s
        → option_and_then (wanted_of wanted.now) s.1 ≡ None }
{
    if at % ROW == 0 && !bound_at(&bounds.wide, at / ROW).may_hold(wanted) {
        return ROW;
    }
    if at % BLOCK == 0 && !bound_at(&bounds.narrow, at / BLOCK).may_hold(wanted) {
        return BLOCK;
    }
    0
}
