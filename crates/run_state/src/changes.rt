//! What an act changes at a node.
ghost use Rattle.std.specs.Prelude.{◌≡◌, Some, IfOk, OnOk, reverse};
ghost use Rattle.std.specs.Option.{option_copied};
ghost use Rattle.grid_model.specs.Nodes.{prepared_by, record_of, doubt_of, held_by, said_by, is_request, is_kept, is_read, without_read, script_of, parts_in, is_home};

use crate::plain_nodes::PlainNode;
use crate::scripts::{is_home, parts_in};
use grid_model::{Act, Document, Envelope, Flag, Head, HeldRead, Message};
use journal_words::records::floor;
use score_base::{Ident, Key, Members, Memory, NodeId, Outcome, Record, TryCopy, TxId};
use std::alloc::Global;

/// The Prepared record of a transaction behind the Prepare that was got.
fn prepared_by(got: Option<&Envelope>, t: TxId, p: Ident) -> Result<Option<Record>, Memory>
    ensures { IfOk result (λ o. o ≡ prepared_by (option_copied got.entry) t p) }
{
    let Some(envelope) = got else {
        return Ok(None);
    };
    match &envelope.message {
        Message::Prepare(q) => Ok(Some(Record::Prepared {
            t,
            home: envelope.from,
            parts: q.parts.copy()?,
            sid: q.sid,
            p,
            reads: q.reads.copy()?,
            writes: q.writes.copy()?,
        })),
        _ => Ok(None),
    }
}

/// The record of a head that was being written behind the message that was got.
fn record_of(
    alloc: Global,
    doc: &Document,
    got: Option<&Envelope>,
    head: &Head,
) -> Result<Option<Record>, Memory>
    ensures { IfOk result (λ o. o ≡ record_of doc.now (option_copied got.entry) head.now) }
{
    match head {
        Head::Prepared(t, p) => prepared_by(got, *t, *p),
        Head::Ended(t, outcome) => Ok(Some(Record::Ended {
            t: *t,
            outcome: *outcome,
        })),
        Head::Ceiling(c) => Ok(Some(Record::Ceiling { c: *c })),
        Head::Decided(t, f) => Ok(Some(Record::Decided {
            t: *t,
            f: *f,
            parts: parts_in(alloc, doc, *t)?,
        })),
        Head::Closed(t) => Ok(Some(Record::Closed { t: *t })),
        Head::Compact => Ok(None),
    }
}

/// The record in doubt where a node stops, maybe while this record was being written.
fn doubt_of(
    alloc: Global,
    doc: &Document,
    got: Option<&Envelope>,
    head: &Option<Head>,
) -> Result<Option<Record>, Memory>
    ensures { IfOk result (λ o. o ≡ doubt_of doc.now (option_copied got.entry) head.now) }
{
    match head {
        None => Ok(None),
        Some(head) => record_of(alloc, doc, got, head),
    }
}

/// The read that is held behind the request that was got.
fn held_by(got: Option<&Envelope>, t: TxId, op: u8, sid: Ident) -> Option<HeldRead>
    ensures { result ≡ held_by (option_copied got.entry) t op sid }
{
    let envelope = got?;
    match &envelope.message {
        Message::ReadReq(q) => Some(HeldRead {
            t,
            op,
            sid,
            key: q.key,
            from: envelope.from,
        }),
        _ => None,
    }
}

/// Whether the message that was got is a read request.
fn is_request(got: Option<&Envelope>) -> bool
    ensures { result ≡ is_request (said_by (option_copied got.entry)) }
{
    match got {
        None => false,
        Some(envelope) => matches!(&envelope.message, Message::ReadReq(_)),
    }
}

/// Whether the journal has the record that was being written.
fn is_kept(flag: &Flag) -> bool
    ensures { result ≡ is_kept flag.now }
{
    matches!(flag, Flag::Kept)
}

/// Whether a held read is of this transaction, operation, key and identifier.
fn is_read(t: TxId, op: u8, key: &Key, sid: Ident, held: &HeldRead) -> bool
    ensures { result ≡ is_read t op key.now sid held.now }
{
    held.t == t && held.op == op && held.key == *key && held.sid == sid
}

/// The held reads without the first of this transaction, operation, key and identifier.
fn without_read(
    alloc: Global,
    held: &[HeldRead],
    t: TxId,
    op: u8,
    key: &Key,
    sid: Ident,
) -> Result<Members<HeldRead>, Memory>
    ensures { IfOk result (λ hs. hs ≡ without_read t op key.now sid held.now) }
{
    let mut left = Members::new(alloc);
    let mut is_found = false;
    for read in held {
        if !is_found && is_read(t, op, key, sid, read) {
            is_found = true;
        } else {
            left.push(*read)?;
        }
    }
    Ok(left)
}

impl PlainNode {
    ghost use Rattle.grid_model.specs.Nodes.{blank, learnt, change, changed, where_at, freed, Writes, Raises, Holds, Stops, Starts, Stays};

    /// Nothing happened yet.
    pub fn blank(alloc: Global) -> PlainNode
        ensures { result ≡ blank }
    {
        PlainNode {
            records: Members::new(alloc),
            doubt: None,
            next: Ident(0),
            held: Members::new(alloc),
            up: false,
        }
    }

    /// The clock behind a record.
    fn learnt(&self, written: &Record) -> Ident
        ensures { result ≡ learnt (Some written.now) self.now.next }
    {
        match written {
            Record::Prepared { p, .. } => self.next.max(*p),
            Record::Ended {
                outcome: Outcome::Commit(f),
                ..
            } => self.next.max(*f),
            _ => self.next,
        }
    }

    fn write(&mut self, here: bool, written: Option<Record>) -> Result<(), Memory>
        ensures { OnOk result (self.new ≡ changed (where_at here (Writes written)) self.old) }
    {
        if here {
            if let Some(record) = written {
                self.next = self.learnt(&record);
                self.records.push(record)?;
            }
        }
        Ok(())
    }

    fn raise(&mut self, here: bool, sid: Ident)
        ensures { self.new ≡ changed (where_at here (Raises sid)) self.old }
    {
        if here {
            self.next = self.next.max(sid);
        }
    }

    fn hold(&mut self, here: bool, held: Option<HeldRead>) -> Result<(), Memory>
        ensures { OnOk result (self.new ≡ changed (where_at here (Holds held)) self.old) }
    {
        if here {
            if let Some(held) = held {
                self.held.push(held)?;
            }
        }
        Ok(())
    }

    fn free(
        &mut self,
        alloc: Global,
        here: bool,
        is_asked: bool,
        t: TxId,
        op: u8,
        key: &Key,
        sid: Ident,
    ) -> Result<(), Memory>
        ensures { OnOk result (self.new ≡ changed (where_at here (freed is_asked t op key.now sid)) self.old) }
    {
        if here && !is_asked {
            self.held = without_read(alloc, self.held.as_slice(), t, op, key, sid)?;
        }
        Ok(())
    }

    fn stop(&mut self, alloc: Global, here: bool, doubt: Option<Record>)
        ensures { self.new ≡ changed (where_at here (Stops doubt)) self.old }
    {
        if here {
            self.doubt = doubt;
            self.held = Members::new(alloc);
            self.up = false;
        }
    }

    fn start(&mut self, here: bool, is_kept: bool) -> Result<(), Memory>
        ensures { OnOk result (self.new ≡ changed (where_at here (Starts is_kept)) self.old) }
    {
        if here {
            let doubt = self.doubt.take();
            if is_kept {
                if let Some(record) = doubt {
                    self.records.push(record)?;
                }
            }
            self.next = floor(self.records.as_slice());
            self.up = true;
        }
        Ok(())
    }

    fn stay(&mut self, here: bool)
        ensures { self.new ≡ changed (where_at here Stays) self.old }
    {
        if here {
            self.up = false;
        }
    }

    /// Keeps one act more of node `n`, behind the message that was got last.
    pub fn keep(
        &mut self,
        alloc: Global,
        doc: &Document,
        got: Option<&Envelope>,
        act: &Act,
        n: NodeId,
    ) -> Result<(), Memory>
        ensures { OnOk result (self.new ≡ changed (change doc.now (option_copied got.entry) act.now n) self.old) }
    {
        match act {
            Act::Prepared(m, t, p) => self.write(*m == n, prepared_by(got, *t, *p)?),
            Act::Ended(m, t, outcome) => {
                let (t, outcome) = (*t, *outcome);
                self.write(*m == n, Some(Record::Ended { t, outcome }))
            }
            Act::Ceiling(m, c) => self.write(*m == n, Some(Record::Ceiling { c: *c })),
            Act::Decided(t, f) => {
                let parts = parts_in(alloc, doc, *t)?;
                let (t, f) = (*t, *f);
                self.write(is_home(doc, t, n), Some(Record::Decided { t, f, parts }))
            }
            Act::Closed(t) => self.write(is_home(doc, *t, n), Some(Record::Closed { t: *t })),
            Act::Held(m, t, op, sid) => self.hold(*m == n, held_by(got, *t, *op, *sid)),
            Act::Served(m, t, op, key, sid, _, _) => {
                self.free(alloc, *m == n, is_request(got), *t, *op, key, *sid)
            }
            Act::Up(m, flag) => self.start(*m == n, is_kept(flag)),
            Act::Down(m, head) => {
                let doubt = doubt_of(alloc, doc, got, head)?;
                self.stop(alloc, *m == n, doubt);
                Ok(())
            }
            Act::Raised(m, sid) => {
                self.raise(*m == n, *sid);
                Ok(())
            }
            Act::StillDown(m) => {
                self.stay(*m == n);
                Ok(())
            }
            _ => Ok(()),
        }
    }
}
