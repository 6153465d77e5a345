//! Who holds a key, and 10,000 locks taken and freed in an order that is not that of the keys.
ghost use Rattle.std.specs.Prelude.{ℕ, ◌<◌, ◌≤◌, List, IsTrue, IfSome};
ghost use Rattle.lock_table.specs.Keys.{holds_lock};

use super::*;
use std::test::Fail;

// Two transactions read `a`, and the first writes `b` too.
#[test]
fn least_holder(rt: HostRuntime) -> Result<(), Fail> {
    let a = Key::new(b"a").ok_or("a key")?;
    let b = Key::new(b"b").ok_or("a key")?;
    let first = TxId { number: 4 };
    let second = TxId { number: 2 };
    let third = TxId { number: 7 };
    let mut locks = Locks::new(rt.alloc());
    locks.reserve(3)?;
    assert!(rt; locks.holder(&[a], &[(b, Value(11))], first).is_none());
    locks.take(&[a], &[(b, Value(11))], first);
    assert!(rt; locks.holder(&[a], &[], second).is_none());
    locks.take(&[a], &[], second);
    assert_eq!(rt; locks.holder(&[], &[(a, Value(1))], third), Some(second));
    assert_eq!(rt; locks.holder(&[b], &[], third), Some(first));
    assert_eq!(rt; locks.holder(&[b], &[], first), None);
    locks.free(second);
    assert_eq!(rt; locks.holder(&[], &[(a, Value(1))], third), Some(first));
    locks.free(first);
    assert_eq!(rt;
        locks.holder(&[], &[(a, Value(1)), (b, Value(2))], third),
        None
    );
    Ok(())
}

/// How many transactions the long test has. Each reads one key and writes another.
const TRANSACTIONS: u16 = 5000;

/// The key that is the n-th to be taken: the first keys of the table are neither taken nor freed first.
fn key_taken(n: u16) -> Option<Key>
    requires { n < 10000 }
{
    let place = (n as u32 * 7919 % 10000) as u16;
    Key::new(&[
        b'k',
        digit(place / 1000),
        digit(place / 100),
        digit(place / 10),
        digit(place),
    ])
}

/// The last digit of a number.
fn digit(n: u16) -> u8 {
    b'0' + (n % 10) as u8
}

/// The key that the transaction behind the first `i` reads, and the key that it writes.
fn keys_of(i: u16) -> Option<(Key, Key)>
    requires { i < 5000 }
{
    Some((key_taken(2 * i)?, key_taken(2 * i + 1)?))
}

/// A table in which each transaction has taken its two keys.
fn all_taken(alloc: Global) -> Option<Locks>
    ensures { IfSome result (λ locks. (u : ℕ) (k : List ℕ) → IsTrue (holds_lock locks u k) → u ≤ 5000) }
{
    let mut locks = Locks::new(alloc);
    locks.reserve(2 * TRANSACTIONS as usize).ok()?;
    for i in 0..TRANSACTIONS {
        let t = TxId { number: i + 1 };
        let (read, written) = keys_of(i)?;
        if locks.holder(&[read], &[(written, Value(1))], t).is_some() {
            return None;
        }
        locks.take(&[read], &[(written, Value(1))], t);
    }
    Some(locks)
}

/// Whether the transaction behind the first `i` holds its two keys, the first of which it reads.
fn holds_both(locks: &Locks, i: u16) -> Option<bool>
    requires { i < 5000 }
{
    let holder = Some(TxId { number: i + 1 });
    let other = TxId { number: 60000 };
    let (read, written) = keys_of(i)?;
    Some(
        locks.holder(&[read], &[], other).is_none()
            && locks.holder(&[], &[(read, Value(2))], other) == holder
            && locks.holder(&[written], &[], other) == holder,
    )
}

/// Whether nobody holds a key of the transaction behind the first `i`.
fn holds_none(locks: &Locks, i: u16) -> Option<bool>
    requires { i < 5000 }
{
    let other = TxId { number: 60000 };
    let (read, written) = keys_of(i)?;
    Some(
        locks
            .holder(&[], &[(read, Value(2)), (written, Value(2))], other)
            .is_none(),
    )
}

/// Frees the transactions one by one, in an order that is neither that of the keys nor that in which
/// they took them. Whether each held its keys before, and nobody holds them behind it.
fn all_freed(locks: &mut Locks) -> Option<bool> {
    for n in 0..TRANSACTIONS {
        let i = (n as u32 * 1667 % 5000) as u16;
        if !holds_both(locks, i)? {
            return Some(false);
        }
        locks.free(TxId { number: i + 1 });
        if !holds_none(locks, i)? {
            return Some(false);
        }
    }
    Some(true)
}

/// Whether nobody holds a key.
fn all_gone(locks: &Locks) -> Option<bool> {
    for i in 0..TRANSACTIONS {
        if !holds_none(locks, i)? {
            return Some(false);
        }
    }
    Some(true)
}

// 10,000 locks of 5,000 transactions.
#[test]
fn many_locks(rt: HostRuntime) -> Result<(), Fail> {
    let mut locks = all_taken(rt.alloc()).ok_or("a table of all locks")?;
    assert_eq!(rt; all_freed(&mut locks), Some(true));
    assert_eq!(rt; all_gone(&locks), Some(true));
    Ok(())
}
