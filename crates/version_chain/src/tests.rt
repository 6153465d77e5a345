//! Reads of a chain, and what a read of 50,000 versions costs.
ghost use Rattle.std.specs.Prelude.{◌≡◌, ◌<◌, ◌≤◌, length, IfOk, IsTrue};
ghost use Rattle.score_base.specs.Keys.{is_key};

use super::*;
use score_base::Key;
use std::marker::Brand;
use std::sync::ledger::Blank;
use std::test::Fail;

// A key with the initial value 10, then the value 3 from 2 on, and the value 7 from 5 on.
#[test]
fn reads_between_versions(rt: HostRuntime) {
    let mut chain = Chain::new(rt.alloc(), Value(10));
    assert_eq!(rt; chain.newest(), Ident(0));
    assert_eq!(rt; chain.at(Ident(9)), (Ident(0), Value(10)));
    assert!(rt; chain.reserve(2).is_ok());
    chain.put(Ident(2), Value(3));
    chain.put(Ident(5), Value(7));
    assert_eq!(rt; chain.newest(), Ident(5));
    assert_eq!(rt; chain.at(Ident(0)), (Ident(0), Value(10)));
    assert_eq!(rt; chain.at(Ident(1)), (Ident(0), Value(10)));
    assert_eq!(rt; chain.at(Ident(2)), (Ident(2), Value(3)));
    assert_eq!(rt; chain.at(Ident(4)), (Ident(2), Value(3)));
    assert_eq!(rt; chain.at(Ident(5)), (Ident(5), Value(7)));
}

fn key(bytes: &[u8]) -> Key
    requires { IsTrue (is_key bytes.now) }
    ensures { result ≡ bytes.now }
{
    Key::new(bytes).unwrap()
}

/// `a`, with the initial value 10, has the value 3 from 2 on; `b` has room, and the initial value 20;
/// `c` may get a chain.
fn two_chains(alloc: Global) -> Result<Chains, Memory> {
    let a = key(b"a");
    let mut chains = Chains::new(alloc);
    chains.widen(3)?;
    chains.begin(&a, Value(10));
    chains.begin(&key(b"b"), Value(20));
    chains.put(&a, Ident(2), Value(3));
    chains.begin(&a, Value(11));
    chains.reserve(&a)?;
    Ok(chains)
}

/// What a read sees, by a counter of its own.
fn read_by<L: Ledger>(
    chains: &Chains,
    key: &Key,
    initial: Value,
    sid: Ident,
    blank: Blank,
) -> (Ident, Value)
    requires { (blank.name ≡ L.name) × (blank.parts ≡ L.parts) × (0 < L.parts) }
{
    let (book, share) = blank.open::<L>();
    let mut steps = Steps::new(book, share);
    chains.at_counted(key, initial, sid, &mut steps)
}

fn read(chains: &Chains, key: &Key, initial: Value, sid: Ident) -> (Ident, Value) {
    read_by::<Brand>(chains, key, initial, sid, Blank::new(1))
}

/// Each key has its own versions, and one without a chain has the value that is handed in.
fn are_apart(chains: &Chains) -> bool {
    read(chains, &key(b"a"), Value(10), Ident(1)) == (Ident(0), Value(10))
        && read(chains, &key(b"a"), Value(10), Ident(2)) == (Ident(2), Value(3))
        && read(chains, &key(b"b"), Value(20), Ident(9)) == (Ident(0), Value(20))
        && read(chains, &key(b"c"), Value(7), Ident(9)) == (Ident(0), Value(7))
        && chains.newest(&key(b"a")) == Ident(2)
        && chains.newest(&key(b"b")) == Ident(0)
        && chains.newest(&key(b"c")) == Ident(0)
}

#[test]
fn chains_of_three_keys(rt: HostRuntime) -> Result<(), Fail> {
    assert!(rt; are_apart(&two_chains(rt.alloc())?));
    Ok(())
}

/// A chain of `n` versions, dated from 1 on, whose values count from 0 on.
fn chain_of(alloc: Global, n: u64) -> Result<Chain, Memory>
    ensures { IfOk result (λ chain. length chain.versions ≡ n) }
{
    let mut chain = Chain::new(alloc, Value(1));
    chain.reserve(n as usize)?;
    for i in 0..n {
        chain.put(Ident(i + 1), Value(i));
    }
    Ok(chain)
}

/// What a chain of at most 50,000 versions answers at 0, at its greatest and in the middle. With n
/// versions a read counts p steps, where 2^p is at most 2n + 1: at most 16 each.
fn read_thrice<L: Ledger>(
    chain: &Chain,
    steps: &mut Steps<L>,
) -> ((Ident, Value), (Ident, Value), (Ident, Value))
    requires few { length chain.now.versions ≤ 50000 }
    requires start { steps.old ≡ 0 }
    ensures cost { steps.new ≤ 48 }
{
    let oldest = chain.at_counted(Ident(0), steps);
    let newest = chain.at_counted(chain.newest(), steps);
    let middle = chain.at_counted(Ident(25000), steps);
    (oldest, newest, middle)
}

/// The three reads, by a counter of their own.
fn read_alone<L: Ledger>(
    chain: &Chain,
    blank: Blank,
) -> ((Ident, Value), (Ident, Value), (Ident, Value))
    requires few { length chain.now.versions ≤ 50000 }
    requires blank { (blank.name ≡ L.name) × (blank.parts ≡ L.parts) × (0 < L.parts) }
{
    let (book, share) = blank.open::<L>();
    let mut steps = Steps::new(book, share);
    read_thrice(chain, &mut steps)
}

/// The three reads of a long chain.
fn long_reads(chain: &Chain) -> ((Ident, Value), (Ident, Value), (Ident, Value))
    requires { length chain.now.versions ≤ 50000 }
{
    read_alone::<Brand>(chain, Blank::new(1))
}

// A chain of 50,000 versions, read at 0, at its greatest and in the middle.
#[test]
fn long_chains_are_read_by_halving(rt: HostRuntime) -> Result<(), Fail> {
    let chain = chain_of(rt.alloc(), 50000)?;
    let (oldest, newest, middle) = long_reads(&chain);
    assert_eq!(rt; oldest, (Ident(0), Value(1)));
    assert_eq!(rt; newest, (Ident(50000), Value(49999)));
    assert_eq!(rt; middle, (Ident(25000), Value(24999)));
    Ok(())
}
