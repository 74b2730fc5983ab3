//! What a pass keeps of the buffers of its nodes.
ghost use Rattle.std.specs.Prelude.{◌≡◌, ◌/◌, ◌<◌, length};
ghost use Rattle.rp_buffer.specs.Hands.{right_at, IsCarried, CarriesEight, keep_at, with_keep, gone_too, all_gone, is_due, is_carried, least_of, least, others, with_one, together};

use crate::rights::{Keep, Right};

/// What is kept of a buffer.
pub(crate) fn kept(rights: &[Right; 5], buffer: usize) -> Keep
    requires { buffer < 40 }
    ensures { result ≡ keep_at rights.now buffer }
{
    match &rights[buffer / 8] {
        Right::Lacks => Keep::Open,
        Right::Carries(keeps) => keeps[buffer % 8],
    }
}

/// There are sixteen places.
pub(crate) fn sixteen(gone: &[bool; 16])
    ensures { length gone.now ≡ 16 }
{}

fn set_keep(rights: &mut [Right; 5], buffer: usize, keep: Keep)
    requires { buffer < 40 }
    ensures { rights.new ≡ with_keep rights.old buffer keep }
{
    if let Right::Carries(keeps) = &mut rights[buffer / 8] {
        keeps[buffer % 8] = keep;
    }
}

fn has_eight(keeps: &[Keep; 8])
    ensures { length keeps.now ≡ 8 }
{}

/// A right that is carried keeps eight buffers.
fn carries_eight(rights: &[Right; 5], buffer: usize)
    requires { buffer < 40 }
    ensures { CarriesEight (right_at rights.now (buffer / 8)) }
{
    if let Right::Carries(keeps) = &rights[buffer / 8] {
        has_eight(keeps);
    }
}

/// Keeps something else of a buffer.
pub(crate) fn keep(rights: &mut [Right; 5], buffer: usize, keep: Keep)
    requires { buffer < 40 }
    ensures all { rights.new ≡ with_keep rights.old buffer keep }
    ensures now { IsCarried (right_at rights.old (buffer / 8)) → keep_at rights.new buffer ≡ keep }
    ensures carried { IsCarried (right_at rights.old (buffer / 8))
        → IsCarried (right_at rights.new (buffer / 8)) }
{
    carries_eight(rights, buffer);
    set_keep(rights, buffer, keep);
}

/// One more place of a closed buffer is taken.
pub(crate) fn gone_too(rights: &mut [Right; 5], buffer: usize, place: usize)
    requires buffer { buffer < 40 }
    requires place { place < 16 }
    ensures all { rights.new
        ≡ with_keep rights.old buffer (gone_too (keep_at rights.old buffer) place) }
    ensures now { IsCarried (right_at rights.old (buffer / 8))
        → keep_at rights.new buffer ≡ gone_too (keep_at rights.old buffer) place }
    ensures carried { IsCarried (right_at rights.old (buffer / 8))
        → IsCarried (right_at rights.new (buffer / 8)) }
{
    let mut now = kept(rights, buffer);
    if let Keep::Closed { count: _, gone } = &mut now {
        gone[place] = true;
    }
    keep(rights, buffer, now);
}

/// Whether each of the places that were drawn is gone.
pub(crate) fn all_gone(count: u64, gone: &[bool; 16]) -> bool
    ensures { result ≡ all_gone count gone.now }
{
    gone.iter().take(count as usize).all(|is_gone| *is_gone)
}

/// Whether a place was drawn and is not taken.
pub(crate) fn is_due(count: u64, gone: &[bool; 16], place: usize) -> bool
    requires { place < 16 }
    ensures { result ≡ is_due count gone.now place }
{
    (place as u64) < count && !gone[place]
}

fn carries(right: &Right) -> bool
    ensures { result ≡ is_carried right.now }
{
    matches!(right, Right::Carries(_))
}

fn first_carried(rights: &[Right; 5]) -> usize
    ensures { result ≡ least_of rights.now }
{
    rights.iter().take_while(|right| !carries(right)).count()
}

/// The least right that is carried, alone. It is gone then.
pub(crate) fn take_least(rights: &mut [Right; 5]) -> [Right; 5]
    ensures least { result ≡ least rights.old }
    ensures others { rights.new ≡ others rights.old }
{
    five(rights);
    let number = first_carried(rights);
    let mut alone = [Right::Lacks; 5];
    if number < 5 {
        alone[number] = rights[number];
        rights[number] = Right::Lacks;
    }
    alone
}

/// Takes in one of another pass's rights.
fn put_one(rights: &mut [Right; 5], more: &[Right; 5], number: usize)
    requires { number < 5 }
    ensures { rights.new ≡ with_one rights.old more.now number }
{
    if !carries(&rights[number]) {
        rights[number] = more[number];
    }
}

fn five(rights: &[Right; 5])
    ensures { length rights.now ≡ 5 }
{}

/// Takes in another pass's rights.
pub(crate) fn put_together(rights: &mut [Right; 5], more: &[Right; 5])
    ensures { rights.new ≡ together rights.old more.now }
{
    five(rights);
    five(more);
    for number in 0..5 {
        put_one(rights, more, number);
    }
}
