//! What a journal answers, compared with what it has to.
use journal_words::{Version, records};
use placement::Cluster;
use score_base::{Ident, Key, NodeId, Outcome, Record, TxId, Value};
use std::alloc::Global;
use std::process::Abort;

/// The proposal of t where it is pending, and how it ended.
pub fn stands(
    rt: &impl Abort,
    journal: &[Record],
    t: TxId,
    proposal: Option<Ident>,
    outcome: Option<Outcome>,
) {
    assert!(rt; records::pending(journal, t) == proposal);
    assert!(rt; records::ended(journal, t) == outcome);
}

/// The floor and the commit identifier.
pub fn is_dated(rt: &impl Abort, alloc: Global, journal: &[Record], floor: u64, commit_id: u64) {
    assert!(rt; records::floor(journal) == Ident(floor));
    assert!(rt; records::commit_id(alloc, journal) == Ok(Ident(commit_id)));
}

/// The greatest snapshot that no pending proposal holds.
pub fn is_clear_up_to(rt: &impl Abort, alloc: Global, journal: &[Record], sid: u32) {
    let sid = sid as u64;
    assert!(rt; records::is_clear(alloc, journal, Ident(sid)) == Ok(true));
    assert!(rt; records::is_clear(alloc, journal, Ident(sid + 1)) == Ok(false));
}

/// The version of a key at a snapshot: its identifier, its writer and its value.
pub fn has(
    rt: &impl Abort,
    alloc: Global,
    journal: &[Record],
    key: &Key,
    start_and_sid: (u64, u64),
    version: (u64, u16, u64),
) {
    let (start, sid) = start_and_sid;
    let version = Version {
        ident: Ident(version.0),
        of: version.1,
        value: Value(version.2),
    };
    assert!(rt; records::version_at(alloc, journal, key, Value(start), Ident(sid)) == Ok(version));
}

/// The identifier of the newest version of a key.
pub fn is_newest(rt: &impl Abort, alloc: Global, journal: &[Record], key: &Key, ident: u64) {
    assert!(rt; records::newest(alloc, journal, key) == Ok(Ident(ident)));
}

/// Who holds one of the keys against t.
pub fn is_held(
    rt: &impl Abort,
    alloc: Global,
    journal: &[Record],
    t: TxId,
    reads: &[Key],
    writes: &[(Key, Value)],
    holder: Option<TxId>,
) {
    assert!(rt; records::holder(alloc, journal, t, reads, writes) == Ok(holder));
}

/// The first key with a version above the snapshot, and that version.
pub fn is_newer(
    rt: &impl Abort,
    alloc: Global,
    journal: &[Record],
    reads: &[Key],
    sid: u64,
    newer: Option<(Key, Ident)>,
) {
    assert!(rt; records::newer(alloc, journal, reads, Ident(sid)) == Ok(newer));
}

/// What is decided of t and not closed.
pub fn is_undone(rt: &impl Abort, journal: &[Record], t: TxId, f: u64, parts: &[NodeId]) {
    let decided = records::undone(journal, t).expect(rt, "decided");
    assert!(rt; decided.final_ident == Ident(f));
    assert!(rt; decided.parts.as_slice() == parts);
    assert!(rt; !records::is_closed(journal, t));
}

/// That t is closed, and was decided with this final identifier.
pub fn is_closed(rt: &impl Abort, journal: &[Record], t: TxId, f: u64) {
    assert!(rt; records::is_closed(journal, t));
    assert!(rt; records::undone(journal, t).is_none());
    assert!(rt; records::later_final(0, journal, t) == Some(Ident(f)));
}

/// The home of t.
pub fn is_home(rt: &impl Abort, journal: &[Record], t: TxId, home: Option<NodeId>) {
    assert!(rt; records::home_of(journal, t) == home);
}

/// Whether a record of a node fits.
pub fn fits(
    rt: &impl Abort,
    alloc: Global,
    cluster: &Cluster,
    me: NodeId,
    journal: &[Record],
    rec: &Record,
    fit: bool,
) {
    assert!(rt; records::fits(alloc, cluster, me, journal, rec) == Ok(fit));
}
