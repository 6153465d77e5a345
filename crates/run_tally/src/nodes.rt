//! What a tally has of a node, and what an act leaves of it.
ghost use Rattle.std.specs.Prelude.{◌≡◌, ◌++◌, ◌∷◌, [], IfSome, IfNone, OnOk, OnErr};
ghost use Rattle.std.specs.Option.{option_copied};
ghost use Rattle.grid_model.specs.Keyed.{at_key, put_key, IsPlace, IsAbsent};

use crate::noted::Noted;
use grid_model::{Act, Flag, Head, Message, Prepare};
use journal_words::Version;
use journal_words::records::{PairList, later, written_value};
use score_base::{Ident, Key, Memory, Outcome, TryCopy, TxId, Value, push};
use std::alloc::Global;
use std::marker::Model;

/// A node, by what was sent to it and by the records that stand there.
#[derive(Drop, Debug)]
pub struct NodeTally {
    /// What the Prepare of a transaction writes there.
    writes: Vec<(TxId, Noted)>,
    pending: PairList,
    commits: PairList,
    decided: PairList,
    /// The head of the record that was being written when the node stopped, until it is opened.
    stopped: Option<Head>,
}

impl Model for NodeTally {
    ghost use Rattle.run_tally.specs.Tallies.{NodeData};

    ghost Value = { NodeData };

    ghost view = { λ x. record {
      writes = x.writes.items;
      pending = x.pending;
      commits = x.commits;
      decided = x.decided;
      stopped = x.stopped;
    } };
}

/// The place of what is noted of a transaction.
fn writes_place(rows: &[(TxId, Noted)], t: TxId) -> Option<usize>
    ensures found { IfSome result (λ i. IsPlace t rows.now i) }
    ensures none { IfNone result (IsAbsent t rows.now) }
{
    for i in 0..rows.len() {
        if rows[i].0 == t {
            return Some(i);
        }
    }
    None
}

/// Notes what a transaction writes, in the place of what was noted of it.
fn put_writes(rows: &mut Vec<(TxId, Noted)>, t: TxId, noted: Noted) -> Result<(), Memory>
    ensures ok { OnOk result (rows.new.items ≡ put_key t noted rows.old.items) }
    ensures err { OnErr result (rows.new.items ≡ rows.old.items) }
{
    match writes_place(rows.as_slice(), t) {
        Some(i) => {
            rows[i] = (t, noted);
            Ok(())
        }
        None => push(rows, (t, noted)),
    }
}

/// The identifier of the newest pair of t.
#[tactic(auto, using(crate::proofs::ForCode::newest_more))]
fn ident_of(pairs: &PairList, t: TxId) -> Option<Ident>
    ensures { result ≡ at_key t pairs.now }
{
    let mut found = None;
    for pair in pairs.oldest_first() {
        if pair.0 == t {
            found = Some(pair.1);
        }
    }
    found
}

/// The initial version of a key, of the value `start`.
pub fn initial(start: Value) -> Version
    ensures { result ≡ record { ident = 0; of = 0; value = start } }
{
    Version {
        ident: Ident(0),
        of: 0,
        value: start,
    }
}

impl NodeTally {
    ghost use Rattle.run_tally.specs.Texts.{wrote_by, newest_of, newest_at};
    ghost use Rattle.run_tally.specs.Tallies.{as_noted, blank, noted, with_end, with_record, with_stop, with_start, node_behind};

    /// A node of which nothing is told.
    pub fn blank(alloc: Global) -> NodeTally
        ensures { result ≡ blank }
    {
        NodeTally {
            writes: Vec::new(alloc),
            pending: PairList::new(alloc),
            commits: PairList::new(alloc),
            decided: PairList::new(alloc),
            stopped: None,
        }
    }

    fn note_writes(&mut self, q: &Prepare) -> Result<(), Memory>
        ensures ok { OnOk result (self.new ≡ record self.old { writes = put_key q.now.t (as_noted q.now.writes) self.old.writes }) }
        ensures err { OnErr result (self.new ≡ self.old) }
    {
        let writes = q.writes.copy()?;
        put_writes(&mut self.writes, q.t, Noted { writes })
    }

    fn note(&mut self, message: &Message) -> Result<(), Memory>
        ensures ok { OnOk result (self.new ≡ noted message.now self.old) }
        ensures err { OnErr result (self.new ≡ self.old) }
    {
        match message {
            Message::Prepare(q) => self.note_writes(q),
            _ => Ok(()),
        }
    }

    fn end(&mut self, t: TxId, outcome: Outcome) -> Result<(), Memory>
        ensures ok { OnOk result (self.new ≡ with_end t outcome self.old) }
        ensures err { OnErr result (self.new ≡ self.old) }
    {
        if let Outcome::Commit(f) = outcome {
            self.commits.push(t, f)?;
        }
        self.pending.take_out(t);
        Ok(())
    }

    fn record(&mut self, head: Head) -> Result<(), Memory>
        ensures ok { OnOk result (self.new ≡ with_record head self.old) }
        ensures err { OnErr result (self.new ≡ self.old) }
    {
        match head {
            Head::Prepared(t, p) => self.pending.push(t, p),
            Head::Ended(t, outcome) => self.end(t, outcome),
            Head::Decided(t, f) => self.decided.push(t, f),
            _ => Ok(()),
        }
    }

    fn start(&mut self, flag: Flag) -> Result<(), Memory>
        ensures ok { OnOk result (self.new ≡ with_start flag self.old) }
        ensures err { OnErr result (self.new ≡ self.old) }
    {
        if let (Flag::Kept, Some(head)) = (flag, self.stopped) {
            self.record(head)?;
        }
        self.stopped = None;
        Ok(())
    }

    /// Takes an act that tells of this node. After [`Memory`] the node is as before.
    pub fn take(&mut self, act: &Act) -> Result<(), Memory>
        ensures ok { OnOk result (self.new ≡ node_behind act.now self.old) }
        ensures err { OnErr result (self.new ≡ self.old) }
    {
        match act {
            Act::Sent(_, _, _, message) => self.note(message),
            Act::Prepared(_, t, p) => self.record(Head::Prepared(*t, *p)),
            Act::Ended(_, t, outcome) => self.record(Head::Ended(*t, *outcome)),
            Act::Decided(t, f) => self.record(Head::Decided(*t, *f)),
            Act::Down(_, head) => {
                self.stopped = *head;
                Ok(())
            }
            Act::Up(_, flag) => self.start(*flag),
            _ => Ok(()),
        }
    }

    /// The final identifier of the decision on t that stands.
    pub fn decided(&self, t: TxId) -> Option<Ident>
        ensures { result ≡ at_key t self.now.decided }
    {
        ident_of(&self.decided, t)
    }

    /// What is noted that a transaction writes.
    fn writes_of(&self, t: TxId) -> Option<&Noted>
        ensures { option_copied result ≡ at_key t self.now.writes }
    {
        for pair in &self.writes {
            if pair.0 == t {
                return Some(&pair.1);
            }
        }
        None
    }

    /// What is noted that a transaction writes to the key.
    fn wrote(&self, t: TxId, key: &Key) -> Option<Value>
        ensures { result ≡ wrote_by (at_key t self.now.writes) key.now }
    {
        match self.writes_of(t) {
            None => None,
            Some(noted) => written_value(key, noted.writes.as_slice()),
        }
    }

    /// The newest applied version of the key, or the initial one, of the value `start`.
    #[tactic(auto, using(crate::proofs::ForCode::newest_more))]
    pub fn newest(&self, key: &Key, start: Value) -> Version
        ensures { result ≡ newest_at self.now key.now start }
    {
        let mut found = initial(start);
        for pair in self.commits.oldest_first() {
            if self.pending.all_above(pair.1) {
                found = later(pair.1, pair.0, self.wrote(pair.0, key), found);
            }
        }
        found
    }
}
