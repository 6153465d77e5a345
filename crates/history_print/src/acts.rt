//! The line of each act.
ghost use Rattle.std.specs.Prelude.{◌≡◌, ◌++◌, ◌∷◌, [], codes, OnOk, OnErr};
ghost use Rattle.std.specs.Fmt.{decimal};
ghost use Rattle.history_print.specs.Acts.{joined, spaced, node_word, act_words, act_line};

use crate::messages::put_message;
use crate::parts::{put_cause, put_flag, put_head, put_outcome};
use crate::words::{put_count, put_ident, put_key, put_node, put_tx, put_value};
use grid_model::{Act, Flag, Head, Message};
use score_base::{Cause, Ident, Key, Memory, NodeId, Outcome, TxId, Value, put_bytes};

#[tactic(auto, unfolding(crate::specs::Acts::act_words))]
fn put_began(out: &mut Vec<u8>, t: TxId, n: NodeId, sid0: Ident) -> Result<(), Memory>
    ensures { OnOk result (out.new.items ≡ out.old.items ++ joined (act_words (Act.Began t n sid0))) }
{
    put_bytes(out, b"began")?;
    put_tx(out, t)?;
    put_node(out, n)?;
    put_ident(out, sid0)
}

#[tactic(auto, unfolding(crate::specs::Acts::act_words))]
fn put_sent(
    out: &mut Vec<u8>,
    m: u32,
    from: NodeId,
    to: NodeId,
    message: &Message,
) -> Result<(), Memory>
    ensures { OnOk result (out.new.items ≡ out.old.items ++ joined (act_words (Act.Sent m from to message.now))) }
{
    put_bytes(out, b"sent")?;
    put_count(out, m as u64)?;
    put_node(out, from)?;
    put_node(out, to)?;
    put_message(out, message)
}

#[tactic(auto, unfolding(crate::specs::Acts::act_words))]
fn put_got(out: &mut Vec<u8>, m: u32) -> Result<(), Memory>
    ensures { OnOk result (out.new.items ≡ out.old.items ++ joined (act_words (Act.Got m))) }
{
    put_bytes(out, b"got")?;
    put_count(out, m as u64)
}

#[tactic(auto, unfolding(crate::specs::Acts::act_words))]
fn put_missed(out: &mut Vec<u8>, m: u32) -> Result<(), Memory>
    ensures { OnOk result (out.new.items ≡ out.old.items ++ joined (act_words (Act.Missed m))) }
{
    put_bytes(out, b"missed")?;
    put_count(out, m as u64)
}

#[tactic(auto, unfolding(crate::specs::Acts::act_words))]
fn put_dropped(out: &mut Vec<u8>, m: u32) -> Result<(), Memory>
    ensures { OnOk result (out.new.items ≡ out.old.items ++ joined (act_words (Act.Dropped m))) }
{
    put_bytes(out, b"dropped")?;
    put_count(out, m as u64)
}

#[tactic(auto, unfolding(crate::specs::Acts::act_words))]
fn put_void(out: &mut Vec<u8>, code: u8) -> Result<(), Memory>
    ensures { OnOk result (out.new.items ≡ out.old.items ++ joined (act_words (Act.Void code))) }
{
    put_bytes(out, b"void")?;
    put_count(out, code as u64)
}

#[tactic(auto, unfolding(crate::specs::Acts::act_words))]
fn put_armed(out: &mut Vec<u8>, n: NodeId, k: u64, how: u64) -> Result<(), Memory>
    ensures { OnOk result (out.new.items ≡ out.old.items ++ joined (act_words (Act.Armed n k how))) }
{
    put_bytes(out, b"armed")?;
    put_node(out, n)?;
    put_count(out, k)?;
    put_count(out, how)
}

#[tactic(auto, unfolding(crate::specs::Acts::act_words))]
fn put_raised(out: &mut Vec<u8>, n: NodeId, sid: Ident) -> Result<(), Memory>
    ensures { OnOk result (out.new.items ≡ out.old.items ++ joined (act_words (Act.Raised n sid))) }
{
    put_bytes(out, b"raised")?;
    put_node(out, n)?;
    put_ident(out, sid)
}

fn put_version(
    out: &mut Vec<u8>,
    key: &Key,
    sid: Ident,
    vn: Ident,
    value: Value,
) -> Result<(), Memory>
    ensures { OnOk result
        (out.new.items ≡ out.old.items ++ spaced (key.now ∷ decimal sid ∷ decimal vn ∷ decimal value ∷ [])) }
{
    put_key(out, key)?;
    put_ident(out, sid)?;
    put_ident(out, vn)?;
    put_value(out, value)
}

fn put_server(out: &mut Vec<u8>, n: NodeId, t: TxId, op: u8) -> Result<(), Memory>
    ensures { OnOk result
        (out.new.items ≡ out.old.items ++ joined (codes "served" ∷ node_word n ∷ decimal t ∷ decimal op ∷ [])) }
{
    put_bytes(out, b"served")?;
    put_node(out, n)?;
    put_tx(out, t)?;
    put_count(out, op as u64)
}

#[tactic(auto, unfolding(crate::specs::Acts::act_words))]
fn put_served(
    out: &mut Vec<u8>,
    n: NodeId,
    t: TxId,
    op: u8,
    key: &Key,
    sid: Ident,
    vn: Ident,
    value: Value,
) -> Result<(), Memory>
    ensures { OnOk result
        (out.new.items ≡ out.old.items ++ joined (act_words (Act.Served n t op key.now sid vn value))) }
{
    put_server(out, n, t, op)?;
    put_version(out, key, sid, vn, value)
}

#[tactic(auto, unfolding(crate::specs::Acts::act_words))]
fn put_held(out: &mut Vec<u8>, n: NodeId, t: TxId, op: u8, sid: Ident) -> Result<(), Memory>
    ensures { OnOk result (out.new.items ≡ out.old.items ++ joined (act_words (Act.Held n t op sid))) }
{
    put_bytes(out, b"held")?;
    put_node(out, n)?;
    put_tx(out, t)?;
    put_count(out, op as u64)?;
    put_ident(out, sid)
}

#[tactic(auto, unfolding(crate::specs::Acts::act_words))]
fn put_taken(out: &mut Vec<u8>, t: TxId, op: u8, sid: Ident, value: Value) -> Result<(), Memory>
    ensures { OnOk result (out.new.items ≡ out.old.items ++ joined (act_words (Act.Taken t op sid value))) }
{
    put_bytes(out, b"taken")?;
    put_tx(out, t)?;
    put_count(out, op as u64)?;
    put_ident(out, sid)?;
    put_value(out, value)
}

#[tactic(auto, unfolding(crate::specs::Acts::act_words))]
fn put_own(out: &mut Vec<u8>, t: TxId, op: u8, value: Value) -> Result<(), Memory>
    ensures { OnOk result (out.new.items ≡ out.old.items ++ joined (act_words (Act.Own t op value))) }
{
    put_bytes(out, b"own")?;
    put_tx(out, t)?;
    put_count(out, op as u64)?;
    put_value(out, value)
}

#[tactic(auto, unfolding(crate::specs::Acts::act_words))]
fn put_prepared(out: &mut Vec<u8>, n: NodeId, t: TxId, p: Ident) -> Result<(), Memory>
    ensures { OnOk result (out.new.items ≡ out.old.items ++ joined (act_words (Act.Prepared n t p))) }
{
    put_bytes(out, b"prepared")?;
    put_node(out, n)?;
    put_tx(out, t)?;
    put_ident(out, p)
}

#[tactic(auto, unfolding(crate::specs::Acts::act_words))]
fn put_refused(out: &mut Vec<u8>, n: NodeId, t: TxId, cause: &Cause) -> Result<(), Memory>
    ensures { OnOk result (out.new.items ≡ out.old.items ++ joined (act_words (Act.Refused n t cause.now))) }
{
    put_bytes(out, b"refused")?;
    put_node(out, n)?;
    put_tx(out, t)?;
    put_cause(out, cause)
}

#[tactic(auto, unfolding(crate::specs::Acts::act_words))]
fn put_ended(out: &mut Vec<u8>, n: NodeId, t: TxId, outcome: &Outcome) -> Result<(), Memory>
    ensures { OnOk result (out.new.items ≡ out.old.items ++ joined (act_words (Act.Ended n t outcome.now))) }
{
    put_bytes(out, b"ended")?;
    put_node(out, n)?;
    put_tx(out, t)?;
    put_outcome(out, outcome)
}

#[tactic(auto, unfolding(crate::specs::Acts::act_words))]
fn put_ceiling(out: &mut Vec<u8>, n: NodeId, c: Ident) -> Result<(), Memory>
    ensures { OnOk result (out.new.items ≡ out.old.items ++ joined (act_words (Act.Ceiling n c))) }
{
    put_bytes(out, b"ceiling")?;
    put_node(out, n)?;
    put_ident(out, c)
}

#[tactic(auto, unfolding(crate::specs::Acts::act_words))]
fn put_decided(out: &mut Vec<u8>, t: TxId, f: Ident) -> Result<(), Memory>
    ensures { OnOk result (out.new.items ≡ out.old.items ++ joined (act_words (Act.Decided t f))) }
{
    put_bytes(out, b"decided")?;
    put_tx(out, t)?;
    put_ident(out, f)
}

#[tactic(auto, unfolding(crate::specs::Acts::act_words))]
fn put_aborted(out: &mut Vec<u8>, t: TxId, n: NodeId, cause: &Cause) -> Result<(), Memory>
    ensures { OnOk result (out.new.items ≡ out.old.items ++ joined (act_words (Act.Aborted t n cause.now))) }
{
    put_bytes(out, b"aborted")?;
    put_tx(out, t)?;
    put_node(out, n)?;
    put_cause(out, cause)
}

#[tactic(auto, unfolding(crate::specs::Acts::act_words))]
fn put_finished(out: &mut Vec<u8>, t: TxId) -> Result<(), Memory>
    ensures { OnOk result (out.new.items ≡ out.old.items ++ joined (act_words (Act.Finished t))) }
{
    put_bytes(out, b"finished")?;
    put_tx(out, t)
}

#[tactic(auto, unfolding(crate::specs::Acts::act_words))]
fn put_closed(out: &mut Vec<u8>, t: TxId) -> Result<(), Memory>
    ensures { OnOk result (out.new.items ≡ out.old.items ++ joined (act_words (Act.Closed t))) }
{
    put_bytes(out, b"closed")?;
    put_tx(out, t)
}

#[tactic(auto, unfolding(crate::specs::Acts::act_words))]
fn put_compacted(out: &mut Vec<u8>, n: NodeId) -> Result<(), Memory>
    ensures { OnOk result (out.new.items ≡ out.old.items ++ joined (act_words (Act.Compacted n))) }
{
    put_bytes(out, b"compacted")?;
    put_node(out, n)
}

#[tactic(auto, unfolding(crate::specs::Acts::act_words))]
fn put_down(out: &mut Vec<u8>, n: NodeId, head: &Option<Head>) -> Result<(), Memory>
    ensures { OnOk result (out.new.items ≡ out.old.items ++ joined (act_words (Act.Down n head.now))) }
{
    put_bytes(out, b"down")?;
    put_node(out, n)?;
    put_head(out, head)
}

#[tactic(auto, unfolding(crate::specs::Acts::act_words))]
fn put_up(out: &mut Vec<u8>, n: NodeId, flag: Flag) -> Result<(), Memory>
    ensures { OnOk result (out.new.items ≡ out.old.items ++ joined (act_words (Act.Up n flag))) }
{
    put_bytes(out, b"up")?;
    put_node(out, n)?;
    put_flag(out, flag)
}

#[tactic(auto, unfolding(crate::specs::Acts::act_words))]
fn put_stilldown(out: &mut Vec<u8>, n: NodeId) -> Result<(), Memory>
    ensures { OnOk result (out.new.items ≡ out.old.items ++ joined (act_words (Act.StillDown n))) }
{
    put_bytes(out, b"stilldown")?;
    put_node(out, n)
}

#[tactic(auto, unfolding(crate::specs::Acts::act_words))]
fn put_lost(out: &mut Vec<u8>, t: TxId) -> Result<(), Memory>
    ensures { OnOk result (out.new.items ≡ out.old.items ++ joined (act_words (Act.Lost t))) }
{
    put_bytes(out, b"lost")?;
    put_tx(out, t)
}

fn put_act(out: &mut Vec<u8>, act: &Act) -> Result<(), Memory>
    ensures { OnOk result (out.new.items ≡ out.old.items ++ joined (act_words act.now)) }
{
    match act {
        Act::Began(t, n, sid0) => put_began(out, *t, *n, *sid0),
        Act::Sent(m, from, to, message) => put_sent(out, *m, *from, *to, message),
        Act::Got(m) => put_got(out, *m),
        Act::Missed(m) => put_missed(out, *m),
        Act::Dropped(m) => put_dropped(out, *m),
        Act::Void(code) => put_void(out, *code),
        Act::Armed(n, k, how) => put_armed(out, *n, *k, *how),
        Act::Raised(n, sid) => put_raised(out, *n, *sid),
        Act::Served(n, t, op, key, sid, vn, value) => put_served(
            out, *n, *t, *op, key, *sid, *vn, *value,
        ),
        Act::Held(n, t, op, sid) => put_held(out, *n, *t, *op, *sid),
        Act::Taken(t, op, sid, value) => put_taken(out, *t, *op, *sid, *value),
        Act::Own(t, op, value) => put_own(out, *t, *op, *value),
        Act::Prepared(n, t, p) => put_prepared(out, *n, *t, *p),
        Act::Refused(n, t, cause) => put_refused(out, *n, *t, cause),
        Act::Ended(n, t, outcome) => put_ended(out, *n, *t, outcome),
        Act::Ceiling(n, c) => put_ceiling(out, *n, *c),
        Act::Decided(t, f) => put_decided(out, *t, *f),
        Act::Aborted(t, n, cause) => put_aborted(out, *t, *n, cause),
        Act::Finished(t) => put_finished(out, *t),
        Act::Closed(t) => put_closed(out, *t),
        Act::Down(n, head) => put_down(out, *n, head),
        Act::Up(n, flag) => put_up(out, *n, *flag),
        Act::StillDown(n) => put_stilldown(out, *n),
        Act::Compacted(n) => put_compacted(out, *n),
        Act::Lost(t) => put_lost(out, *t),
    }
}

#[tactic(auto, unfolding(crate::specs::Acts::act_line))]
fn put_line(out: &mut Vec<u8>, act: &Act) -> Result<(), Memory>
    ensures { OnOk result (out.new.items ≡ out.old.items ++ act_line act.now) }
{
    put_act(out, act)?;
    put_bytes(out, b"\n")
}

/// Appends the line of an act, its line feed included. After [`Memory`] `out` is as before.
pub fn write_act(act: &Act, out: &mut Vec<u8>) -> Result<(), Memory>
    ensures ok { OnOk result (out.new.items ≡ out.old.items ++ act_line act.now) }
    ensures err { OnErr result (out.new.items ≡ out.old.items) }
{
    let mut line = Vec::new(*out.allocator());
    put_line(&mut line, act)?;
    put_bytes(out, line.as_slice())
}
