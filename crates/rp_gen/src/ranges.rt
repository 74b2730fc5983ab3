//! The four ranges of a generated script, and what is due when.
ghost use Rattle.std.specs.Prelude.{◌≡◌, ◌≤◌, ◌<◌};
ghost use Rattle.rp_gen.specs.Ranges.{first_key, left_of, range_of, split_is_due, transfer_is_due};

/// The first key of a range.
pub(crate) fn first_key(range: u32) -> u32
    ensures { result ≡ first_key range }
{
    match range {
        0 => 0,
        1 => 500,
        2 => 250,
        _ => 750,
    }
}

/// The range that a range is split off from.
pub(crate) fn left_of(range: u32) -> u32
    requires { 1 ≤ range }
    ensures value { result ≡ left_of range }
    ensures earlier { result < range }
{
    if range == 3 { 1 } else { 0 }
}

/// The range of a key, where so many are made.
pub(crate) fn range_of(made: u32, key: u32) -> u32
    requires { 1 ≤ made }
    ensures value { result ≡ range_of made key }
    ensures made { result < made }
{
    if made >= 4 && key >= 750 {
        3
    } else if made >= 2 && key >= 500 {
        1
    } else if made >= 3 && key >= 250 {
        2
    } else {
        0
    }
}

/// Whether the next split comes here.
pub(crate) fn split_is_due(size: u64, before: u64, made: u32) -> bool
    ensures { result ≡ split_is_due size before made }
{
    size >= 4 && made < 4 && before == u64::from(made) * (size / 4)
}

/// Whether a lease moves here.
pub(crate) fn transfer_is_due(size: u64, before: u64) -> bool
    ensures { result ≡ transfer_is_due size before }
{
    if size < 13 {
        return false;
    }
    let part = size / 13;
    before % part == 0 && 1 <= before / part && before / part <= 12
}
