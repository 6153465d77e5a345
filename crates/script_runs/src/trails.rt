//! The walk over the operations of a script.

ghost use Rattle.std.specs.Prelude.{◌≡◌, ◌++◌, ◌∷◌, [], IfOk, OnOk, IsTrue, None};
ghost use Rattle.std.specs.FinMap as map;
ghost use Rattle.script_lang.specs.Values.{value_in};
ghost use Rattle.script_runs.specs.Waits.{waiting};
ghost use Rattle.script_runs.specs.Walks.{own_reads, own_map, unread};
ghost use Rattle.script_runs.specs.Trails.{stepped, stops, is_ready};

use crate::waits::value_taken;
use score_base::{Key, Members, Memory, Value};
use script_lang::{Op, Reads, Script, eval};
use std::alloc::Global;

/// What a walk over the operations of a script keeps.
#[derive(Drop)]
pub struct Trail {
    /// The own reads so far: the operation and its value.
    pub own: Members<(u8, Value)>,
    /// The transaction's own map.
    pub mine: Reads,
    /// The values of its latest reads.
    pub latest: Reads,
    /// The remote read without a taken value at which the walk stopped.
    pub waiting: Option<u8>,
}

impl Trail {
    /// Nothing is read or written yet.
    fn new(alloc: Global) -> Trail
        ensures { result ≡ record { own = []; mine = map.empty; latest = map.empty; waiting = None } }
    {
        Trail {
            own: Members::new(alloc),
            mine: Reads::new(alloc),
            latest: Reads::new(alloc),
            waiting: None,
        }
    }

    /// Whether the walk stops at operation `j`, a remote read without a taken value.
    fn stops(&self, values: &[(u8, Value)], j: u8, op: &Op) -> bool
        ensures { result ≡ stops values.now j op.now self.now }
    {
        match op {
            Op::Read(key) => self.mine.get(key).is_none() && value_taken(values, j).is_none(),
            Op::Write(_, _) => false,
        }
    }

    /// An own read.
    fn read_own(&mut self, j: u8, key: Key, value: Value) -> Result<(), Memory>
        ensures { OnOk result (self.new ≡ record self.old
            { own = self.old.own ++ (j, value) ∷ []; latest = map.insert self.old.latest key value }) }
    {
        self.own.push((j, value))?;
        self.latest.set(key, value)
    }

    /// A remote read with its taken value.
    fn read_taken(&mut self, key: Key, value: Value) -> Result<(), Memory>
        ensures { OnOk result (self.new ≡ record self.old
            { mine = map.insert self.old.mine key value; latest = map.insert self.old.latest key value }) }
    {
        self.mine.set(key, value)?;
        self.latest.set(key, value)
    }

    /// Operation `j` is passed.
    fn step(&mut self, values: &[(u8, Value)], j: u8, op: &Op) -> Result<(), Memory>
        requires { IsTrue (is_ready op.now self.old) }
        ensures { OnOk result (self.new ≡ stepped values.now j op.now self.old) }
    {
        match op {
            Op::Read(key) => {
                if let Some(value) = self.mine.get(key) {
                    return self.read_own(j, *key, value);
                }
                match value_taken(values, j) {
                    Some(value) => self.read_taken(*key, value),
                    None => Ok(()),
                }
            }
            Op::Write(key, expr) => {
                let value = eval(expr, &self.latest);
                self.mine.set(*key, value)
            }
        }
    }
}

/// Walks over the operations of a script up to the first remote read without a taken value: the own
/// reads on the way, the transaction's own map, and that read.
pub fn walk(alloc: Global, script: &Script, values: &[(u8, Value)]) -> Result<Trail, Memory>
    ensures own { IfOk result (λ x. x.own ≡ own_reads 1 [] unread values.now script.now.ops) }
    ensures mine { IfOk result (λ x. value_in x.mine ≡ own_map script.now.ops values.now) }
    ensures waiting { IfOk result (λ x. x.waiting ≡ waiting script.now.ops values.now) }
{
    let ops = script.ops();
    let mut trail = Trail::new(alloc);
    let mut j = 0u8;
    for op in ops {
        j += 1;
        if trail.stops(values, j, op) {
            trail.waiting = Some(j);
            return Ok(trail);
        }
        trail.step(values, j, op)?;
    }
    Ok(trail)
}
