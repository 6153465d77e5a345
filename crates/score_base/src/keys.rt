//! What a key is.
ghost use Rattle.std.specs.Prelude.{◌≡◌, ◌≤◌, ◌↔◌, IsSome, IfSome, IsTrue, length, Some, nat_eq, refl};
ghost use Rattle.std.specs.Ordering.{nat_cmp};
ghost use Rattle.std.specs.Cmp.{partial_equiv_from_equiv};
ghost use Rattle.std.specs.Cmp.Lexicographic.{pointwise, slice_cmp, nat_list_eq_equiv, nat_list_cmp_total, texts_po, texts_ties};
ghost use Rattle.std.specs.Bool.{OnTrue};
ghost use Rattle.std.specs.List.{list_all};
ghost use Rattle.score_base.specs.Keys.{is_key, is_key_byte};

use std::cmp::Ordering;
use std::marker::Model;

/// A key: 1 to 32 bytes of `a` to `z`, `0` to `9` and `_`, the first no digit. Contracts see its
/// bytes.
#[derive(Debug)]
pub struct Key {
    text: [u8; 32],
    used: u8,
}

impl Model for Key {
    ghost use Rattle.std.specs.Prelude.{ℕ, List};

    ghost Value = { List ℕ };

    ghost use Rattle.score_base.specs.KeyFields.{key_text, IsPadded, padded, padded-key_text};

    ghost view = { key_text };

    ghost invariant = { IsPadded };

    ghost inverse = { padded };

    ghost inverse_ok = { padded-key_text };
}

impl Clone for Key {
    fn clone(&self) -> Result<Key, std::alloc::AllocError> {
        Ok(*self)
    }
}

impl Copy for Key {}

fn is_key_byte(b: u8) -> bool
    ensures { result ≡ is_key_byte b }
{
    b.is_ascii_lowercase() || b.is_ascii_digit() || b == b'_'
}

fn are_key_bytes(bytes: &[u8]) -> bool
    ensures { result ≡ list_all is_key_byte bytes.now }
{
    bytes.iter().all(|b| is_key_byte(*b))
}

fn is_key(bytes: &[u8]) -> bool
    ensures value { result ≡ is_key bytes.now }
    ensures short { OnTrue result (length bytes.now ≤ 32) }
{
    match bytes {
        [] => false,
        [first, rest @ ..] => {
            if first.is_ascii_digit() || !is_key_byte(*first) || rest.len() > 31 {
                return false;
            }
            are_key_bytes(rest)
        }
    }
}

impl Key {
    /// The key of these bytes; `None` exactly where they are no key.
    pub fn new(bytes: &[u8]) -> Option<Key>
        ensures some { IsSome result ↔ IsTrue (is_key bytes.now) }
        ensures value { IfSome result (λ k. k ≡ bytes.now) }
    {
        if !is_key(bytes) {
            return None;
        }
        let mut text = [0u8; 32];
        text[..bytes.len()].copy_from_slice(bytes);
        Some(Key {
            text,
            used: bytes.len() as u8,
        })
    }

    /// Its bytes.
    pub fn bytes(&self) -> &[u8]
        ensures value { result.now ≡ self.now }
        ensures key { IsTrue (is_key result.now) }
        ensures long { length result.now ≤ 32 }
    {
        &self.text[..self.used as usize]
    }
}

impl PartialEq for Key {
    ghost eq = { pointwise nat_eq };

    ghost laws = { partial_equiv_from_equiv nat_list_eq_equiv };

    fn eq(&self, other: &Key) -> bool {
        self.bytes() == other.bytes()
    }
}

impl Eq for Key {
    ghost laws = { nat_list_eq_equiv };
}

impl PartialOrd for Key {
    ghost partial_cmp = { λ a b. Some (slice_cmp nat_cmp a b) };

    ghost laws = { texts_po };

    fn partial_cmp(&self, other: &Key) -> Option<Ordering> {
        Some(self.cmp(other))
    }
}

impl Ord for Key {
    ghost cmp = { slice_cmp nat_cmp };

    ghost total = { nat_list_cmp_total };

    ghost matches_partial_cmp = { λ a b. refl };

    ghost matches_eq = { texts_ties };

    fn cmp(&self, other: &Key) -> Ordering {
        self.bytes().cmp(other.bytes())
    }
}
