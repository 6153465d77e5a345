//! Where keys lie in worked clusters.
ghost use Rattle.std.specs.Prelude.{◌≡◌, ◌∷◌, [], IfOk};

use super::*;
use crate::clusters::key_sum;
use score_base::{Key, KeyList, Memory, NodeId, NodeList, TryCopy, Value, WriteList};
use std::alloc::Global;
use std::test::Fail;

// two partitions: the first on n2 and n1, the second on n3
fn places(alloc: Global) -> Result<Places, Memory>
    ensures { IfOk result (λ p. p ≡ (2 ∷ 1 ∷ []) ∷ (3 ∷ []) ∷ []) }
{
    let mut first = NodeList::new(alloc);
    first.push(NodeId { number: 2 })?;
    first.push(NodeId { number: 1 })?;
    let mut second = NodeList::new(alloc);
    second.push(NodeId { number: 3 })?;
    let mut partitions = Vec::new(alloc);
    score_base::push(&mut partitions, first)?;
    score_base::push(&mut partitions, second)?;
    Ok(Places::new(partitions))
}

fn key(bytes: &[u8]) -> Result<Key, Fail> {
    match Key::new(bytes) {
        Some(key) => Ok(key),
        None => Err(Fail::new("no key")),
    }
}

#[test]
fn placement(rt: HostRuntime) -> Result<(), Fail> {
    assert_eq!(rt; key_sum(b"ab"), 3105);
    assert_eq!(rt; key_sum(b"ab") % 2, 1);
    assert_eq!(rt; key_sum(b"ab") % 64, 33);
    let places = places(rt.alloc())?.copy()?;
    assert_eq!(rt;
        places.holders(&key(b"ab")?),
        [NodeId { number: 3 }].as_slice()
    );
    assert_eq!(rt;
        places.holders(&key(b"b")?),
        [NodeId { number: 2 }, NodeId { number: 1 }].as_slice()
    );
    Ok(())
}

fn parts_of(alloc: Global, places: &Places) -> Result<usize, Fail> {
    let mut keys = KeyList::new(alloc);
    keys.push(key(b"ab")?)?;
    keys.push(key(b"b")?)?;
    Ok(places.parts(alloc, keys.as_slice())?.len())
}

#[test]
fn parts_and_preferred_holders(rt: HostRuntime) -> Result<(), Fail> {
    let places = places(rt.alloc())?;
    let first = NodeId { number: 1 };
    assert_eq!(rt; parts_of(rt.alloc(), &places)?, 3);
    let preferred = places.preferred(rt.alloc(), first, &key(b"b")?)?;
    assert_eq!(rt;
        preferred.as_slice(),
        [first, NodeId { number: 2 }].as_slice()
    );
    Ok(())
}

// `b` begins with 7
fn cluster(alloc: Global, named: Key) -> Result<Cluster, Memory> {
    let mut inits = WriteList::new(alloc);
    inits.push((named, Value(7)))?;
    Ok(Cluster {
        nodes: 3,
        places: places(alloc)?,
        inits,
    })
}

#[test]
fn initial_values(rt: HostRuntime) -> Result<(), Fail> {
    let cluster = cluster(rt.alloc(), key(b"b")?)?;
    assert_eq!(rt; cluster.init(&key(b"b")?), Value(7));
    assert_eq!(rt; cluster.init(&key(b"ab")?), Value(0));
    Ok(())
}
