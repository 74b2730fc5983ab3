//! Decimal numbers of 64 bits, as they are read.
ghost use Rattle.std.specs.Prelude.{◌≡◌, ◌<◌, ◌^◌, length};
ghost use Rattle.std.specs.Option.{SomeIff};
ghost use Rattle.rp_base.specs.Numbers.{number_of, digits_len, u64_of};

use std::error::Error;
use std::fmt;

/// Why a text is no number of 64 bits.
#[derive(Clone, Copy, Debug, PartialEq, Eq)]
pub enum NumberFault {
    /// `place` is the first byte that is no digit, or 0 for the empty text.
    NotNumber { place: usize },
    /// The digits' value passes 2^64 - 1.
    TooLarge,
}

impl fmt::Display for NumberFault {
    fn fmt<W: fmt::Write>(&self, f: &mut fmt::Formatter<W>) -> fmt::Result {
        match self {
            NumberFault::NotNumber { .. } => f.write_str("not a number"),
            NumberFault::TooLarge => f.write_str("too large a number"),
        }
    }
}

impl Error for NumberFault {}

fn digits_len(text: &[u8]) -> usize
    ensures { result ≡ digits_len text.now }
{
    text.iter().take_while(|byte| byte.is_ascii_digit()).count()
}

/// The value of digits, where it fits.
fn value_of(digits: &[u8]) -> Option<u64>
    requires { digits_len digits.now ≡ length digits.now }
    ensures { SomeIff result (number_of digits.now < 2 ^ 64) (number_of digits.now) }
{
    let mut number = 0u64;
    for byte in digits {
        let tens = number.checked_mul(10)?;
        number = tens.checked_add(u64::from(*byte - b'0'))?;
    }
    Some(number)
}

/// Reads a decimal number. Leading zeros are allowed.
pub fn read_u64(text: &[u8]) -> Result<u64, NumberFault>
    ensures { result ≡ u64_of text.now }
{
    let place = digits_len(text);
    if place == 0 || place < text.len() {
        return Err(NumberFault::NotNumber { place });
    }
    match value_of(text) {
        Some(number) => Ok(number),
        None => Err(NumberFault::TooLarge),
    }
}
