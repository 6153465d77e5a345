//! Numbers and keys that stand first in some bytes, with the bytes behind them.

ghost use Rattle.std.specs.Prelude.{◌≡◌, ◌<◌, ◌≤◌, length, option_map, IfSome, IsTrue};
ghost use Rattle.score_base.specs.Keys.{is_key};
ghost use Rattle.score_fields.specs.Reading.{first_within, first_two, first_tx, first_eight, first_text, first_key, first_write};

use byteorder::{BigEndian, ByteOrder};
use score_base::Key;

/// A byte from `low` to `high`.
pub fn within(low: u8, high: u8, bytes: &[u8]) -> Option<(u8, &[u8])>
    ensures shorter { IfSome result (λ x. length x.1.now < length bytes.now) }
    ensures value { option_map (λ x. (x.0, x.1.now)) result ≡ first_within low high bytes.now }
{
    match bytes {
        [byte, rest @ ..] if low <= *byte && *byte <= high => Some((*byte, rest)),
        _ => None,
    }
}

/// A number of two bytes.
#[tactic(auto, unfolding(crate::specs::Reading::first_two))]
pub fn two(bytes: &[u8]) -> Option<(u16, &[u8])>
    ensures shorter { IfSome result (λ x. length x.1.now < length bytes.now) }
    ensures value { option_map (λ x. (x.0, x.1.now)) result ≡ first_two bytes.now }
{
    if bytes.len() < 2 {
        return None;
    }
    let (front, rest) = bytes.split_at(2);
    Some((BigEndian::read_u16(front), rest))
}

/// The number of a transaction.
#[tactic(auto, unfolding(crate::specs::Reading::first_tx))]
pub fn tx(bytes: &[u8]) -> Option<(u16, &[u8])>
    ensures shorter { IfSome result (λ x. length x.1.now < length bytes.now) }
    ensures range { IfSome result (λ x. 1 ≤ x.0) }
    ensures value { option_map (λ x. (x.0, x.1.now)) result ≡ first_tx bytes.now }
{
    let (t, rest) = two(bytes)?;
    if t == 0 { None } else { Some((t, rest)) }
}

/// A number of eight bytes.
#[tactic(auto, unfolding(crate::specs::Reading::first_eight))]
pub fn eight(bytes: &[u8]) -> Option<(u64, &[u8])>
    ensures shorter { IfSome result (λ x. length x.1.now < length bytes.now) }
    ensures value { option_map (λ x. (x.0, x.1.now)) result ≡ first_eight bytes.now }
{
    if bytes.len() < 8 {
        return None;
    }
    let (front, rest) = bytes.split_at(8);
    Some((BigEndian::read_u64(front), rest))
}

/// A length byte and that many bytes.
pub fn text(bytes: &[u8]) -> Option<(&[u8], &[u8])>
    ensures shorter { IfSome result (λ x. length x.1.now < length bytes.now) }
    ensures value { option_map (λ x. (x.0.now, x.1.now)) result ≡ first_text bytes.now }
{
    let [n, rest @ ..] = bytes else {
        return None;
    };
    let n = *n as usize;
    if rest.len() < n {
        return None;
    }
    Some(rest.split_at(n))
}

/// The bytes of a key behind their length.
#[tactic(auto, unfolding(crate::specs::Reading::first_key))]
pub fn key(bytes: &[u8]) -> Option<(&[u8], &[u8])>
    ensures shorter { IfSome result (λ x. length x.1.now < length bytes.now) }
    ensures key { IfSome result (λ x. IsTrue (is_key x.0.now)) }
    ensures value { option_map (λ x. (x.0.now, x.1.now)) result ≡ first_key bytes.now }
{
    let (text, rest) = text(bytes)?;
    let _ = Key::new(text)?;
    Some((text, rest))
}

/// The bytes of a key, and the number that is written to it.
#[tactic(auto, unfolding(crate::specs::Reading::first_write))]
pub fn write(bytes: &[u8]) -> Option<(&[u8], u64, &[u8])>
    ensures shorter { IfSome result (λ x. length x.2.now < length bytes.now) }
    ensures key { IfSome result (λ x. IsTrue (is_key x.0.now)) }
    ensures value { option_map (λ x. ((x.0.now, x.1), x.2.now)) result ≡ first_write bytes.now }
{
    let (key, rest) = key(bytes)?;
    let (value, rest) = eight(rest)?;
    Some((key, value, rest))
}
