//! Room in a buffer, asked for once and then written to without fail.

ghost use Rattle.std.specs.Prelude.{◌≡◌, ◌+◌, ◌≤◌, ◌<◌, ◌++◌, ◌∷◌, [], length, OnOk, OnErr, vec_len, vec_capacity};
ghost use Rattle.score_fields.specs.Spelling.{two_bytes, eight_bytes, key_bytes, IsKey};

use byteorder::{BigEndian, ByteOrder};
use score_base::{Key, Memory};

/// Makes room for this many more bytes.
pub fn make_room(out: &mut Vec<u8>, bytes: usize) -> Result<(), Memory>
    ensures same { out.new.items ≡ out.old.items }
    ensures capacity { vec_capacity out.old ≤ vec_capacity out.new }
    ensures room { OnOk result (vec_len out.new + bytes ≤ vec_capacity out.new) }
    ensures full { OnErr result (vec_capacity out.old < vec_len out.old + bytes) }
{
    out.reserve(bytes)?;
    Ok(())
}

/// Puts the bytes last, where there is room.
pub fn put(out: &mut Vec<u8>, bytes: &[u8])
    requires { vec_len out.old + length bytes.now ≤ vec_capacity out.old }
    ensures items { out.new.items ≡ out.old.items ++ bytes.now }
    ensures capacity { vec_capacity out.old ≤ vec_capacity out.new }
{
    let _ = out.extend_from_slice(bytes);
}

/// Puts a byte last, where there is room.
pub fn put_byte(out: &mut Vec<u8>, byte: u8)
    requires { vec_len out.old + 1 ≤ vec_capacity out.old }
    ensures items { out.new.items ≡ out.old.items ++ byte ∷ [] }
    ensures capacity { vec_capacity out.old ≤ vec_capacity out.new }
{
    let _ = out.push(byte);
}

/// Puts a number of two bytes last, where there is room.
#[tactic(auto, unfolding(crate::specs::Spelling::two_bytes))]
pub fn put_two(out: &mut Vec<u8>, n: u16)
    requires { vec_len out.old + 2 ≤ vec_capacity out.old }
    ensures items { out.new.items ≡ out.old.items ++ two_bytes n }
    ensures capacity { vec_capacity out.old ≤ vec_capacity out.new }
{
    let mut bytes = [0u8; 2];
    BigEndian::write_u16(&mut bytes, n);
    put(out, &bytes);
}

/// Puts a number of eight bytes last, where there is room.
#[tactic(auto, unfolding(crate::specs::Spelling::eight_bytes))]
pub fn put_eight(out: &mut Vec<u8>, n: u64)
    requires { vec_len out.old + 8 ≤ vec_capacity out.old }
    ensures items { out.new.items ≡ out.old.items ++ eight_bytes n }
    ensures capacity { vec_capacity out.old ≤ vec_capacity out.new }
{
    let mut bytes = [0u8; 8];
    BigEndian::write_u64(&mut bytes, n);
    put(out, &bytes);
}

/// Puts a key last, behind its length, where there is room.
pub fn put_key(out: &mut Vec<u8>, key: &Key)
    requires { vec_len out.old + length (key_bytes key.now) ≤ vec_capacity out.old }
    ensures fits { IsKey key.now }
    ensures items { out.new.items ≡ out.old.items ++ key_bytes key.now }
    ensures capacity { vec_capacity out.old ≤ vec_capacity out.new }
{
    let bytes = key.bytes();
    put_byte(out, bytes.len() as u8);
    put(out, bytes);
}
