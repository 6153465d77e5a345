//! How a number is spelled in decimal digits, and read.
ghost use Rattle.std.specs.Prelude.{◌≡◌, ℕ, ◌<◌, ◌^◌, ◌++◌, List, Some, OnOk, OnErr};
ghost use Rattle.std.specs.Fmt.{decimal};
ghost use Rattle.score_base.specs.Numbers.{number, digits_from};

use crate::memory::Memory;
use itoa::Buffer;

fn digits(word: &[u8]) -> Option<u64>
    ensures { result ≡ digits_from 0 word.now }
{
    let mut n = 0u64;
    for b in word {
        if !b.is_ascii_digit() {
            return None;
        }
        n = n.checked_mul(10)?.checked_add((*b - b'0') as u64)?;
    }
    Some(n)
}

/// The decimal number that a word spells; `None` exactly where the word is empty, has a byte that is
/// no digit, has a leading zero and more than one digit, or is above 2^64 - 1.
pub fn number(word: &[u8]) -> Option<u64>
    ensures { result ≡ number word.now }
{
    match word {
        [] => None,
        [b'0', _, ..] => None,
        _ => digits(word),
    }
}

/// Appends the bytes. After [`Memory`] `out` is as before.
pub fn put_bytes(out: &mut Vec<u8>, bytes: &[u8]) -> Result<(), Memory>
    ensures ok { OnOk result (out.new.items ≡ out.old.items ++ bytes.now) }
    ensures err { OnErr result (out.new.items ≡ out.old.items) }
{
    out.extend_from_slice(bytes)?;
    Ok(())
}

/// Appends the one spelling of a number. After [`Memory`] `out` is as before.
pub fn put_number(out: &mut Vec<u8>, n: u64) -> Result<(), Memory>
    ensures ok { OnOk result (out.new.items ≡ out.old.items ++ decimal n) }
    ensures err { OnErr result (out.new.items ≡ out.old.items) }
{
    let mut buffer = Buffer::new();
    put_bytes(out, buffer.format(n).as_bytes())
}

/// Each number below 2^64 has exactly one spelling, the decimal one.
pub fn law_number_spelling()
    ensures reads { (n : ℕ) → n < 2 ^ 64 → number (decimal n) ≡ Some n }
    ensures writes { (w : List ℕ) (n : ℕ) → number w ≡ Some n → w ≡ decimal n }
{}
