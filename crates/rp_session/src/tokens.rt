//! Tokens: the keys over which session adds work.
ghost use Rattle.std.specs.Prelude.{◌≡◌, ◌==◌, ◌≤◌, length};
ghost use Rattle.std.specs.List.{list_any};
ghost use Rattle.rp_base.specs.Keys.{key_text, IsKey};
ghost use Rattle.rp_session.specs.Tokens.{digit_at, suffix, token_of, has_dash};

use rp_base::Key;

/// The digit of a number at a unit, as a byte.
fn digit(number: u32, unit: u32) -> u8
    requires { 1 ≤ unit }
    ensures { result ≡ digit_at number unit }
{
    b'0' + (number / unit % 10) as u8
}

/// What stands behind the key: a dash, two digits of the client, six of the number.
#[tactic(auto, unfolding(crate::specs::Tokens::suffix))]
fn suffix(client: u16, number: u32) -> [u8; 9]
    ensures { result ≡ suffix client number }
{
    let client = u32::from(client);
    [
        b'-',
        digit(client, 10),
        digit(client, 1),
        digit(number, 100_000),
        digit(number, 10_000),
        digit(number, 1_000),
        digit(number, 100),
        digit(number, 10),
        digit(number, 1),
    ]
}

/// The number of a key is one.
fn is_key(key: Key)
    ensures { IsKey key }
{
    let _ = key.bound();
}

/// The token of a client's add of a number to a key: the key, a dash, the client's two digits and the
/// number's six.
pub(crate) fn token(client: u16, number: u32, key: Key) -> Key
    requires { length (key_text key) ≤ 7 }
    ensures { result ≡ token_of client number key }
{
    is_key(key);
    let behind = key.text_len();
    let mut bytes = key.to_bytes();
    let end = behind + 9;
    bytes[behind..end].copy_from_slice(&suffix(client, number));
    match Key::read(&bytes[..end]) {
        Ok(token) => token,
        Err(_) => unreachable!(),
    }
}

/// Whether a dash stands among the bytes.
fn any_dash(bytes: &[u8]) -> bool
    ensures { result ≡ list_any (λ byte. byte == 45) bytes.now }
{
    bytes.iter().any(|byte| *byte == b'-')
}

/// Whether a dash stands in the key.
pub(crate) fn has_dash(key: Key) -> bool
    ensures { result ≡ has_dash key }
{
    any_dash(&key.to_bytes()[..key.text_len()])
}
