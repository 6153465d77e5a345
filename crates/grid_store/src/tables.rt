//! A table by transaction: what a transaction has, what it has from now on, and what it loses.

ghost use Rattle.std.specs.Prelude.{◌≡◌, ◌≤◌, ◌+◌, ◌==◌, Some, None, if◌then◌else◌};
ghost use Rattle.std.specs.Ordering.{nat_cmp};
ghost use Rattle.std.specs.FinMap as map;
ghost use Rattle.score_base.specs.declared.ids.TxId.{TxId};
ghost use Rattle.score_base.specs.Tables.{IsGap};

use score_base::{Ordered, TxId};

/// What a transaction has.
pub(crate) fn had<V: Copy>(table: &Ordered<TxId, V>, t: TxId) -> Option<V>
    ensures { result ≡ map.find nat_cmp t table.now.pairs }
{
    match table.place(&t) {
        Ok(i) => Some(table.pair(i).1),
        Err(_) => None,
    }
}

/// Where a transaction that has nothing has its place.
fn place_of_new<V: Copy>(table: &Ordered<TxId, V>, t: TxId) -> usize
    requires { map.find nat_cmp t table.now.pairs ≡ None }
    ensures { IsGap nat_cmp table.now.pairs t result }
{
    match table.place(&t) {
        Ok(i) => i,
        Err(i) => i,
    }
}

/// A transaction that had nothing has this.
pub(crate) fn give<V: Copy>(table: &mut Ordered<TxId, V>, t: TxId, value: V)
    requires absent { map.find nat_cmp t table.old.pairs ≡ None }
    requires room { 1 ≤ table.old.spare }
    ensures pairs { (u : TxId) →
        map.find nat_cmp u table.new.pairs ≡ (if u == t then Some value else map.find nat_cmp u table.old.pairs) }
    ensures spare { table.old.spare ≤ table.new.spare + 1 }
{
    let i = place_of_new(table, t);
    table.insert(i, t, value);
}

/// A transaction has nothing any more.
pub(crate) fn lose<V: Copy>(table: &mut Ordered<TxId, V>, t: TxId)
    ensures pairs { (u : TxId) →
        map.find nat_cmp u table.new.pairs ≡ (if u == t then None else map.find nat_cmp u table.old.pairs) }
    ensures spare { table.old.spare ≤ table.new.spare }
{
    match table.place(&t) {
        Ok(i) => {
            table.remove(i);
        }
        Err(_) => {}
    }
}
