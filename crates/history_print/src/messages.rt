//! The words of each message.
ghost use Rattle.std.specs.Prelude.{◌≡◌, ◌++◌, ◌∷◌, map, length, codes, OnOk};
ghost use Rattle.std.specs.Fmt.{decimal};
ghost use Rattle.std.specs.List.{flat_map};
ghost use Rattle.history_print.specs.Acts.{spaced, node_word, write_words, nodes_words, keys_words, writes_words, readreq_words, readrep_words, prepare_words, message_words};

use crate::parts::{put_ballot, put_date, put_outcome};
use crate::words::{put_count, put_ident, put_key, put_node, put_tx, put_value, put_word};
use grid_model::{Message, Prepare, ReadRep, ReadReq};
use score_base::{Ballot, Key, Memory, NodeId, Outcome, TxId, Value};

fn put_each_node(out: &mut Vec<u8>, nodes: &[NodeId]) -> Result<(), Memory>
    ensures { OnOk result (out.new.items ≡ out.old.items ++ spaced (map node_word nodes.now)) }
{
    for node in nodes {
        put_node(out, *node)?;
    }
    Ok(())
}

fn put_each_key(out: &mut Vec<u8>, keys: &[Key]) -> Result<(), Memory>
    ensures { OnOk result (out.new.items ≡ out.old.items ++ spaced keys.now) }
{
    for key in keys {
        put_key(out, key)?;
    }
    Ok(())
}

fn put_write(out: &mut Vec<u8>, key: &Key, value: Value) -> Result<(), Memory>
    ensures { OnOk result (out.new.items ≡ out.old.items ++ spaced (write_words (key.now, value))) }
{
    put_key(out, key)?;
    put_value(out, value)
}

fn put_each_write(out: &mut Vec<u8>, writes: &[(Key, Value)]) -> Result<(), Memory>
    ensures { OnOk result (out.new.items ≡ out.old.items ++ spaced (flat_map write_words writes.now)) }
{
    for write in writes {
        put_write(out, &write.0, write.1)?;
    }
    Ok(())
}

#[tactic(auto, unfolding(crate::specs::Acts::nodes_words))]
fn put_nodes(out: &mut Vec<u8>, nodes: &[NodeId]) -> Result<(), Memory>
    ensures { OnOk result (out.new.items ≡ out.old.items ++ spaced (nodes_words nodes.now)) }
{
    put_count(out, nodes.len() as u64)?;
    put_each_node(out, nodes)
}

#[tactic(auto, unfolding(crate::specs::Acts::keys_words))]
fn put_keys(out: &mut Vec<u8>, keys: &[Key]) -> Result<(), Memory>
    ensures { OnOk result (out.new.items ≡ out.old.items ++ spaced (keys_words keys.now)) }
{
    put_count(out, keys.len() as u64)?;
    put_each_key(out, keys)
}

#[tactic(auto, unfolding(crate::specs::Acts::writes_words))]
fn put_writes(out: &mut Vec<u8>, writes: &[(Key, Value)]) -> Result<(), Memory>
    ensures { OnOk result (out.new.items ≡ out.old.items ++ spaced (writes_words writes.now)) }
{
    put_count(out, writes.len() as u64)?;
    put_each_write(out, writes)
}

#[tactic(auto, unfolding(crate::specs::Acts::readreq_words))]
fn put_readreq(out: &mut Vec<u8>, q: &ReadReq) -> Result<(), Memory>
    ensures { OnOk result (out.new.items ≡ out.old.items ++ spaced (readreq_words q.now)) }
{
    put_word(out, b"readreq")?;
    put_tx(out, q.t)?;
    put_count(out, q.op as u64)?;
    put_key(out, &q.key)?;
    put_date(out, &q.date)
}

#[tactic(auto, unfolding(crate::specs::Acts::readrep_words))]
fn put_readrep(out: &mut Vec<u8>, q: &ReadRep) -> Result<(), Memory>
    ensures { OnOk result (out.new.items ≡ out.old.items ++ spaced (readrep_words q.now)) }
{
    put_word(out, b"readrep")?;
    put_tx(out, q.t)?;
    put_count(out, q.op as u64)?;
    put_ident(out, q.sid)?;
    put_value(out, q.value)
}

fn put_parts(out: &mut Vec<u8>, nodes: &[NodeId]) -> Result<(), Memory>
    ensures { OnOk result (out.new.items ≡ out.old.items ++ spaced (codes "parts" ∷ nodes_words nodes.now)) }
{
    put_word(out, b"parts")?;
    put_nodes(out, nodes)
}

fn put_reads(out: &mut Vec<u8>, keys: &[Key]) -> Result<(), Memory>
    ensures { OnOk result (out.new.items ≡ out.old.items ++ spaced (codes "reads" ∷ keys_words keys.now)) }
{
    put_word(out, b"reads")?;
    put_keys(out, keys)
}

fn put_written(out: &mut Vec<u8>, writes: &[(Key, Value)]) -> Result<(), Memory>
    ensures { OnOk result (out.new.items ≡ out.old.items ++ spaced (codes "writes" ∷ writes_words writes.now)) }
{
    put_word(out, b"writes")?;
    put_writes(out, writes)
}

#[tactic(auto, unfolding(crate::specs::Acts::prepare_words))]
fn put_prepare(out: &mut Vec<u8>, q: &Prepare) -> Result<(), Memory>
    ensures { OnOk result (out.new.items ≡ out.old.items ++ spaced (prepare_words q.now)) }
{
    put_word(out, b"prepare")?;
    put_tx(out, q.t)?;
    put_ident(out, q.sid)?;
    put_parts(out, q.parts.as_slice())?;
    put_reads(out, q.reads.as_slice())?;
    put_written(out, q.writes.as_slice())
}

#[tactic(auto, unfolding(crate::specs::Acts::message_words))]
fn put_vote(out: &mut Vec<u8>, t: TxId, ballot: &Ballot) -> Result<(), Memory>
    ensures { OnOk result (out.new.items ≡ out.old.items ++ spaced (message_words (Message.Vote t ballot.now))) }
{
    put_word(out, b"vote")?;
    put_tx(out, t)?;
    put_ballot(out, ballot)
}

#[tactic(auto, unfolding(crate::specs::Acts::message_words))]
fn put_tell(out: &mut Vec<u8>, t: TxId, outcome: &Outcome) -> Result<(), Memory>
    ensures { OnOk result (out.new.items ≡ out.old.items ++ spaced (message_words (Message.Tell t outcome.now))) }
{
    put_word(out, b"tell")?;
    put_tx(out, t)?;
    put_outcome(out, outcome)
}

#[tactic(auto, unfolding(crate::specs::Acts::message_words))]
fn put_ack(out: &mut Vec<u8>, t: TxId) -> Result<(), Memory>
    ensures { OnOk result (out.new.items ≡ out.old.items ++ spaced (message_words (Message.Ack t))) }
{
    put_word(out, b"ack")?;
    put_tx(out, t)
}

#[tactic(auto, unfolding(crate::specs::Acts::message_words))]
fn put_ask(out: &mut Vec<u8>, t: TxId) -> Result<(), Memory>
    ensures { OnOk result (out.new.items ≡ out.old.items ++ spaced (message_words (Message.Ask t))) }
{
    put_word(out, b"ask")?;
    put_tx(out, t)
}

#[tactic(auto, unfolding(crate::specs::Acts::message_words))]
fn put_ask_peer(out: &mut Vec<u8>, t: TxId) -> Result<(), Memory>
    ensures { OnOk result (out.new.items ≡ out.old.items ++ spaced (message_words (Message.AskPeer t))) }
{
    put_word(out, b"askpeer")?;
    put_tx(out, t)
}

/// Appends a message.
#[tactic(auto, unfolding(crate::specs::Acts::message_words))]
pub fn put_message(out: &mut Vec<u8>, message: &Message) -> Result<(), Memory>
    ensures { OnOk result (out.new.items ≡ out.old.items ++ spaced (message_words message.now)) }
{
    match message {
        Message::ReadReq(q) => put_readreq(out, q),
        Message::ReadRep(q) => put_readrep(out, q),
        Message::Prepare(q) => put_prepare(out, q),
        Message::Vote { t, ballot } => put_vote(out, *t, ballot),
        Message::Tell { t, outcome } => put_tell(out, *t, outcome),
        Message::Ack { t } => put_ack(out, *t),
        Message::Ask { t } => put_ask(out, *t),
        Message::AskPeer { t } => put_ask_peer(out, *t),
    }
}
