//! Where transactions are, by the tally: what the rows of `begin` and of `restart` read of a run.
ghost use Rattle.std.specs.Prelude.{◌≡◌, ◌++◌, [], Some, None, if◌then◌else◌, IfOk, OnOk};
ghost use Rattle.std.specs.List.{flat_map};
ghost use Rattle.std.specs.Option.{option_copied};
ghost use Rattle.grid_model.specs.Keyed.{at_key};
ghost use Rattle.grid_model.specs.Nodes.{script_of};
ghost use Rattle.grid_model.specs.Sessions.{is_of};
ghost use Rattle.grid_model.specs.Stories.{first_sid};
ghost use Rattle.run_tally.specs.Phases.{was_answered, tx_is_open, told_leaves, tx_leaves, leaves_in, open_in, lost_in};

use crate::tallies::Tally;
use crate::txs::TxTally;
use grid_model::{Act, Document};
use history_print::add_numbers;
use run_state::script_of;
use score_base::{Ident, Memory, NodeId, TxId, push};
use script_lang::{Op, Script, is_update};
use std::alloc::Global;
use std::collections::BTreeSet;

/// Whether the script is one of this session; 0 is none.
fn is_of(session: u16, script: &Script) -> bool
    ensures { result ≡ is_of session script.now }
{
    session != 0 && script.session == session
}

/// The snapshot identifier of a transaction.
pub fn snapshot_of(tx: &TxTally) -> Ident
    ensures { result ≡ first_sid tx.now.sid tx.now.sid0 }
{
    match tx.sid {
        None => tx.sid0,
        Some(sid) => sid,
    }
}

/// Whether the client was told what an undecided transaction read.
fn was_answered(ops: &[Op], tx: &TxTally) -> bool
    ensures { result ≡ was_answered ops.now tx.now }
{
    !tx.aborted && tx.finished && !is_update(ops)
}

/// Whether a transaction is reading or collecting, by its final identifier.
fn tx_is_open(ops: &[Op], tx: &TxTally, final_ident: Option<Ident>) -> bool
    ensures { result ≡ tx_is_open ops.now (Some tx.now) final_ident }
{
    if tx.lost || tx.aborted || final_ident.is_some() {
        return false;
    }
    !(tx.finished && !is_update(ops))
}

/// What a transaction that was not lost leaves to its session.
fn told_leaves(ops: &[Op], tx: &TxTally, final_ident: Option<Ident>) -> Ident
    ensures { result ≡ told_leaves ops.now tx.now final_ident }
{
    match final_ident {
        Some(f) => f,
        None => {
            if was_answered(ops, tx) {
                snapshot_of(tx)
            } else {
                Ident(0)
            }
        }
    }
}

/// What a transaction that was begun leaves to its session.
fn tx_leaves(ops: &[Op], tx: &TxTally, final_ident: Option<Ident>) -> Ident
    ensures { result ≡ tx_leaves ops.now (Some tx.now) final_ident }
{
    if tx.lost {
        return Ident(0);
    }
    told_leaves(ops, tx, final_ident)
}

/// What the transaction of a script leaves to its session.
fn leaves(tally: &Tally, script: &Script) -> Ident
    ensures { result ≡ leaves_in tally.now script.now }
{
    match tally.tx(script.number) {
        None => Ident(0),
        Some(tx) => tx_leaves(script.ops(), tx, tally.decided(script.home, script.number)),
    }
}

/// What it leaves where it is of this session, else 0.
fn seen(tally: &Tally, session: u16, script: &Script) -> Ident
    ensures { result ≡ (if is_of session script.now then leaves_in tally.now script.now else 0) }
{
    if is_of(session, script) {
        return leaves(tally, script);
    }
    Ident(0)
}

/// Adds the loss of a transaction, where it is open at this home.
fn push_loss(
    acts: &mut Vec<Act>,
    tally: &Tally,
    n: NodeId,
    script: Option<&Script>,
) -> Result<(), Memory>
    ensures { OnOk result (acts.new.items ≡ acts.old.items ++ lost_in tally.now n (option_copied script.entry)) }
{
    let Some(script) = script else {
        return Ok(());
    };
    if script.home == n && tally.is_open(script) {
        return push(acts, Act::Lost(script.number));
    }
    Ok(())
}

/// Adds the losses among these transactions.
fn push_losses(
    acts: &mut Vec<Act>,
    tally: &Tally,
    scripts: &[Script],
    n: NodeId,
    numbers: &BTreeSet<TxId>,
) -> Result<(), Memory>
    ensures { OnOk result (acts.new.items ≡
        acts.old.items ++ flat_map (λ t. lost_in tally.now n (script_of t scripts.now)) numbers.now.keys) }
{
    for number in numbers {
        push_loss(acts, tally, n, script_of(scripts, *number))?;
    }
    Ok(())
}

impl Tally {
    ghost use Rattle.run_tally.specs.Phases.{begun_in, busy_in, floor_in, losses_in};

    /// Whether a transaction was begun.
    pub fn is_begun(&self, t: TxId) -> bool
        ensures { result ≡ begun_in self.now t }
    {
        self.tx(t).is_some()
    }

    /// Whether the transaction of a script is reading or collecting.
    pub fn is_open(&self, script: &Script) -> bool
        ensures { result ≡ open_in self.now script.now }
    {
        match self.tx(script.number) {
            None => false,
            Some(tx) => tx_is_open(script.ops(), tx, self.decided(script.home, script.number)),
        }
    }

    /// Whether a transaction of a session is reading or collecting. Session 0 is none, and costs nothing.
    #[tactic(auto, using(crate::proofs::PhasesTold::none_busy))]
    pub fn is_busy(&self, doc: &Document, session: u16) -> bool
        ensures { result ≡ busy_in doc.now self.now session }
    {
        if session == 0 {
            return false;
        }
        for script in doc.scripts() {
            if is_of(session, script) && self.is_open(script) {
                return true;
            }
        }
        false
    }

    /// The floor of a session: the greatest identifier that its transactions leave, or 0. Session 0 is none,
    /// and costs nothing.
    #[tactic(auto, using(crate::proofs::PhasesTold::none_seen))]
    pub fn floor(&self, doc: &Document, session: u16) -> Ident
        ensures { result ≡ floor_in doc.now self.now session }
    {
        let mut floor = Ident(0);
        if session == 0 {
            return floor;
        }
        for script in doc.scripts() {
            floor = floor.max(seen(self, session, script));
        }
        floor
    }

    /// The losses of the open transactions of a home, in rising number.
    pub fn losses(&self, alloc: Global, doc: &Document, n: NodeId) -> Result<Vec<Act>, Memory>
        ensures { IfOk result (λ acts. acts.items ≡ losses_in doc.now self.now n) }
    {
        let mut numbers = BTreeSet::new(alloc);
        add_numbers(&mut numbers, doc.scripts())?;
        let mut acts = Vec::new(alloc);
        push_losses(&mut acts, self, doc.scripts(), n, &numbers)?;
        Ok(acts)
    }
}
