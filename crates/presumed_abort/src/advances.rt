//! Advance: what a home does once a transaction has begun or has taken a reply.

ghost use Rattle.std.specs.Prelude.{◌≡◌, ◌++◌, ◌∷◌, [], IfOk, OnOk, Some, None, if◌then◌else◌};
ghost use Rattle.script_lang.specs.Values.{value_in};
ghost use Rattle.script_lang.specs.Reads.{is_update};
ghost use Rattle.script_runs.specs.Walks.{own_map};
ghost use Rattle.grid_model.specs.declared.acts.Act.TheVariants as act;
ghost use Rattle.grid_model.specs.declared.events.Out.TheVariants as out;
ghost use Rattle.grid_model.specs.Advances.{advance_end, owns, advance, prepares, parts_now};
ghost use Rattle.presumed_abort.specs.Replies.{advanced, gone_on, begin_turn, taken_turn};
ghost use Rattle.presumed_abort.specs.Becoming.{becomes_change, step_turn};

use crate::opens::{OpenRef, at_begin, with_reply};
use crate::parts::Parts;
use crate::prepares::push_prepares;
use crate::requests::{holders_of, place_behind, push_request, request};
use crate::states::Reading;
use grid_model::{Act, Out, Progress};
use placement::Cluster;
use score_base::{Ident, Memory, TxId, Value, push};
use script_lang::{Reads, Script, is_update};
use script_runs::walk;
use std::alloc::Global;

/// What an open transaction becomes where it goes on.
#[derive(Drop)]
pub(crate) enum Becomes {
    /// It waits for the reply to this operation; this holder is asked next.
    Reads(u8, usize),
    /// It waits for the votes of these parts.
    Collects(Parts),
    /// It is over: it wrote nothing.
    Ends,
}

/// A step of an open transaction: how far it came, what it becomes, and what is given.
#[derive(Drop)]
pub(crate) struct Step {
    pub(crate) progress: Progress,
    pub(crate) becomes: Becomes,
    pub(crate) outs: Vec<Out>,
}

/// Adds an own read, where it stands behind operation `i`.
fn push_own(outs: &mut Vec<Out>, t: TxId, i: u8, read: (u8, Value)) -> Result<(), Memory>
    ensures { OnOk result (outs.new.items ≡ outs.old.items ++ owns t i (read ∷ [])) }
{
    if i < read.0 {
        push(outs, Out::Act(Act::Own(t, read.0, read.1)))?;
    }
    Ok(())
}

/// Adds the own reads behind operation `i`.
fn push_owns(outs: &mut Vec<Out>, t: TxId, i: u8, reads: &[(u8, Value)]) -> Result<(), Memory>
    ensures { OnOk result (outs.new.items ≡ outs.old.items ++ owns t i reads.now) }
{
    for read in reads {
        push_own(outs, t, i, *read)?;
    }
    Ok(())
}

/// Adds the request of operation `j`, to the first holder of its key.
fn read_on(outs: &mut Vec<Out>, cluster: &Cluster, tx: &OpenRef, j: u8) -> Result<Becomes, Memory>
    ensures outs { OnOk result (outs.new.items ≡ outs.old.items ++ advance_end cluster.now tx.now (Some j)) }
    ensures becomes { IfOk result (λ x.
        (t : TxId) → becomes_change t tx.now x ≡ advanced cluster.now t tx.now (Some j)) }
{
    push_request(outs, request(cluster, tx, j, 0))?;
    let turn = place_behind(holders_of(cluster, tx, j), tx.progress.turn);
    Ok(Becomes::Reads(j, turn))
}

/// Adds what a transaction sends first that has all its values: the Prepares of an update, or the end
/// of a read-only transaction.
fn end_on(
    alloc: Global,
    outs: &mut Vec<Out>,
    cluster: &Cluster,
    tx: &OpenRef,
    mine: &Reads,
) -> Result<Becomes, Memory>
    requires { value_in mine.now ≡ own_map tx.now.script.ops tx.now.progress.values }
    ensures outs { OnOk result (outs.new.items ≡ outs.old.items ++ advance_end cluster.now tx.now None) }
    ensures becomes { IfOk result (λ x. (t : TxId) → becomes_change t tx.now x ≡ advanced cluster.now t tx.now None) }
{
    let script = tx.script;
    if !is_update(script.ops()) {
        push(outs, Out::Act(Act::Finished(script.number)))?;
        return Ok(Becomes::Ends);
    }
    let parts = Parts::of(alloc, cluster, tx)?;
    push_prepares(alloc, outs, cluster, tx, mine, parts.as_slice())?;
    Ok(Becomes::Collects(parts))
}

/// Adds the advance of an open transaction behind operation `i`, 0 at its begin.
pub(crate) fn advance(
    alloc: Global,
    outs: &mut Vec<Out>,
    cluster: &Cluster,
    tx: &OpenRef,
    i: u8,
) -> Result<Becomes, Memory>
    ensures outs { OnOk result (outs.new.items ≡ outs.old.items ++ advance cluster.now tx.now i) }
    ensures becomes { IfOk result (λ x. (t : TxId) → becomes_change t tx.now x ≡ gone_on cluster.now t tx.now) }
{
    let (script, progress) = (tx.script, tx.progress);
    let trail = walk(alloc, script, progress.values.as_slice())?;
    push_owns(outs, script.number, i, trail.own.as_slice())?;
    match trail.waiting {
        Some(j) => read_on(outs, cluster, tx, j),
        None => end_on(alloc, outs, cluster, tx, &trail.mine),
    }
}

/// A transaction that begins at this identifier.
pub(crate) fn begin(
    alloc: Global,
    cluster: &Cluster,
    script: &Script,
    sid0: Ident,
) -> Result<Step, Memory>
    ensures { IfOk result (λ y. step_turn script.now.number script.now y ≡ begin_turn cluster.now script.now sid0) }
{
    let progress = at_begin(alloc, sid0);
    let tx = OpenRef {
        script,
        progress: &progress,
    };
    let mut outs = Vec::new(alloc);
    push(
        &mut outs,
        Out::Act(Act::Began(script.number, script.home, sid0)),
    )?;
    let becomes = advance(alloc, &mut outs, cluster, &tx, 0)?;
    Ok(Step {
        progress,
        becomes,
        outs,
    })
}

/// The reply for which the transaction waits.
pub(crate) fn take_reply(
    alloc: Global,
    cluster: &Cluster,
    tx: &Reading,
    value: Value,
    sid: Ident,
) -> Result<Step, Memory>
    ensures { IfOk result (λ y.
        step_turn tx.now.tx.script.number tx.now.tx.script y ≡ taken_turn cluster.now value sid tx.now) }
{
    let (script, op) = (&tx.tx.script, tx.op);
    let progress = with_reply(&tx.tx.progress, op, sid, value)?;
    let next = OpenRef {
        script,
        progress: &progress,
    };
    let mut outs = Vec::new(alloc);
    push(
        &mut outs,
        Out::Act(Act::Taken(script.number, op, sid, value)),
    )?;
    let becomes = advance(alloc, &mut outs, cluster, &next, op)?;
    Ok(Step {
        progress,
        becomes,
        outs,
    })
}
