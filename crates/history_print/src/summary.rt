//! The summary of a run: a line for each transaction, then one for each key at each of its holders.
ghost use Rattle.std.specs.Prelude.{◌≡◌, ◌≤◌, ℕ, ◌<◌, ◌++◌, ◌∷◌, [], codes, fold, map, reverse, IfOk, OnOk, OnErr, Some};
ghost use Rattle.std.specs.List.{flat_map, range_with_len};
ghost use Rattle.std.specs.Option.{option_copied};
ghost use Rattle.std.specs.Ordering.{nat_cmp};
ghost use Rattle.std.specs.Cmp.Lexicographic.{slice_cmp};
ghost use Rattle.std.specs.BTreeSet.{insert_key};
ghost use Rattle.script_lang.specs.Reads.{keys_named};
ghost use Rattle.placement.specs.Places.{is_among};
ghost use Rattle.grid_model.specs.Documents.{script_numbers, number_order, key_order, keys_of_document};
ghost use Rattle.grid_model.specs.Copies.{snapshot_in};
ghost use Rattle.grid_model.specs.Nodes.{journal, script_of};
ghost use Rattle.journal_words.specs.Journals.{is_closed, later_decision};
ghost use Rattle.grid_model.specs.Stories.{phase_by, skipped_in, story};
ghost use Rattle.run_state.specs.Kept.{past};
ghost use Rattle.history_print.specs.Acts.{spaced, line};
ghost use Rattle.history_print.specs.Begun.{open_words, undecided_words, final_words, story_words};
ghost use Rattle.history_print.specs.Text.{phase_words, tx_line, script_line, tx_lines, version_line, holder_line, key_lines, keys_lines, summary_by, summary_text};

use crate::words::{put_count, put_ident, put_key, put_node, put_tx, put_value, put_word};
use grid_model::{Act, Document, Story};
use journal_words::Version;
use journal_words::records::{later_final, newest_version};
use placement::Cluster;
use run_state::{RunState, script_of};
use score_base::{Ident, Key, Memory, NodeId, Record, TryCopy, TxId, Value, put_bytes};
use script_lang::{Op, Script, is_update, key_of};
use script_runs::first_waiting;
use std::alloc::Global;
use std::collections::BTreeSet;

/// How many nodes a cluster has at most.
const MOST_NODES: u8 = 16;

#[tactic(auto, unfolding(crate::specs::Begun::open_words))]
fn put_open(out: &mut Vec<u8>, waits: Option<usize>) -> Result<(), Memory>
    ensures { OnOk result (out.new.items ≡ out.old.items ++ spaced (open_words waits)) }
{
    match waits {
        None => put_word(out, b"collecting"),
        Some(j) => {
            put_word(out, b"reading")?;
            put_count(out, j as u64)
        }
    }
}

/// Appends the words of a transaction that is not decided: whether it was aborted, whether its reader was
/// answered, the operation that waits, and its snapshot identifier.
#[tactic(auto, unfolding(crate::specs::Begun::undecided_words))]
pub fn put_undecided(
    out: &mut Vec<u8>,
    aborted: bool,
    answered: bool,
    waits: Option<usize>,
    sid: Ident,
) -> Result<(), Memory>
    ensures { OnOk result (out.new.items ≡ out.old.items ++ spaced (undecided_words aborted answered waits sid)) }
{
    if aborted {
        return put_word(out, b"aborted");
    }
    if answered {
        put_word(out, b"read")?;
        return put_ident(out, sid);
    }
    put_open(out, waits)
}

/// The snapshot identifier of a transaction.
fn snapshot_of(story: &Story) -> Ident
    ensures { result ≡ snapshot_in (Some story.now) }
{
    match story.progress.sid {
        None => story.progress.sid0,
        Some(sid) => sid,
    }
}

/// Appends the words of a transaction that is decided, with its final identifier.
#[tactic(auto, unfolding(crate::specs::Begun::final_words))]
pub fn put_final(out: &mut Vec<u8>, f: Ident) -> Result<(), Memory>
    ensures { OnOk result (out.new.items ≡ out.old.items ++ spaced (final_words f)) }
{
    put_word(out, b"committed")?;
    put_ident(out, f)
}

#[tactic(auto, unfolding(crate::specs::Begun::story_words))]
fn put_begun(
    out: &mut Vec<u8>,
    ops: &[Op],
    story: &Story,
    final_ident: Option<Ident>,
) -> Result<(), Memory>
    ensures { OnOk result (out.new.items ≡ out.old.items ++ spaced (story_words ops.now (Some story.now) final_ident)) }
{
    if story.lost {
        return put_word(out, b"lost");
    }
    if let Some(f) = final_ident {
        return put_final(out, f);
    }
    put_undecided(
        out,
        story.aborted,
        story.finished && !is_update(ops),
        first_waiting(ops, story.progress.values.as_slice()),
        snapshot_of(story),
    )
}

#[tactic(auto, unfolding(crate::specs::Begun::story_words))]
fn put_story(
    out: &mut Vec<u8>,
    ops: &[Op],
    story: Option<&Story>,
    final_ident: Option<Ident>,
) -> Result<(), Memory>
    ensures { OnOk result
        (out.new.items ≡ out.old.items ++ spaced (story_words ops.now (option_copied story.entry) final_ident)) }
{
    match story {
        None => put_word(out, b"unbegun"),
        Some(story) => put_begun(out, ops, story, final_ident),
    }
}

/// How many Decided of a transaction do not count.
fn skipped_in(story: Option<&Story>) -> usize
    ensures { result ≡ skipped_in (option_copied story.entry) }
{
    match story {
        None => 0,
        Some(story) => story.skipped,
    }
}

/// The phase of a script's transaction, by its story and by the records of its home.
fn put_phase(
    out: &mut Vec<u8>,
    script: &Script,
    story: Option<&Story>,
    records: &[Record],
) -> Result<(), Memory>
    ensures { OnOk result (out.new.items ≡ out.old.items ++ spaced (phase_words (phase_by script.now.ops
        (option_copied story.entry) (is_closed script.now.number (reverse records.now))
        (later_decision (skipped_in (option_copied story.entry)) script.now.number (reverse records.now)))
        (snapshot_in (option_copied story.entry)))) }
{
    let times = skipped_in(story);
    let final_ident = later_final(times, records, script.number);
    put_story(out, script.ops(), story, final_ident)
}

#[tactic(auto, unfolding(crate::specs::Text::tx_line))]
fn put_tx_line(
    out: &mut Vec<u8>,
    script: &Script,
    story: Option<&Story>,
    records: &[Record],
) -> Result<(), Memory>
    ensures { OnOk result
        (out.new.items ≡ out.old.items ++ tx_line script.now (option_copied story.entry) (reverse records.now)) }
{
    put_bytes(out, b"tx")?;
    put_tx(out, script.number)?;
    put_phase(out, script, story, records)?;
    put_bytes(out, b"\n")
}

#[tactic(auto, unfolding(crate::specs::Text::script_line))]
fn put_script_line(out: &mut Vec<u8>, script: Option<&Script>, run: &RunState) -> Result<(), Memory>
    ensures { OnOk result (out.new.items ≡ out.old.items ++ script_line (story run.now.doc (past run.now))
        (journal run.now.doc (past run.now)) (option_copied script.entry)) }
{
    match script {
        None => Ok(()),
        Some(script) => put_tx_line(
            out,
            script,
            run.story(script.number),
            run.node(script.home).records.as_slice(),
        ),
    }
}

/// Adds the numbers of the scripts.
pub fn add_numbers(numbers: &mut BTreeSet<TxId>, scripts: &[Script]) -> Result<(), Memory>
    ensures { OnOk result (numbers.new.keys ≡ fold (insert_key nat_cmp) numbers.old.keys (script_numbers scripts.now)) }
{
    for script in scripts {
        numbers.insert(script.number)?;
    }
    Ok(())
}

fn put_numbered(
    out: &mut Vec<u8>,
    numbers: &BTreeSet<TxId>,
    scripts: &[Script],
    run: &RunState,
) -> Result<(), Memory>
    ensures { OnOk result (out.new.items ≡ out.old.items ++ flat_map (λ t. script_line
        (story run.now.doc (past run.now)) (journal run.now.doc (past run.now)) (script_of t scripts.now))
        numbers.now.keys) }
{
    for number in numbers {
        put_script_line(out, script_of(scripts, *number), run)?;
    }
    Ok(())
}

#[tactic(auto, unfolding(crate::specs::Text::tx_lines))]
fn put_tx_lines(out: &mut Vec<u8>, scripts: &[Script], run: &RunState) -> Result<(), Memory>
    ensures { OnOk result (out.new.items ≡ out.old.items
        ++ tx_lines scripts.now (story run.now.doc (past run.now)) (journal run.now.doc (past run.now))) }
{
    let mut numbers = BTreeSet::new(*out.allocator());
    add_numbers(&mut numbers, scripts)?;
    put_numbered(out, &numbers, scripts, run)
}

/// Appends the line of a key at a node: the value and the identifier of this version.
#[tactic(auto, unfolding(crate::specs::Text::version_line))]
pub fn put_version_line(
    out: &mut Vec<u8>,
    key: &Key,
    n: NodeId,
    version: Version,
) -> Result<(), Memory>
    ensures { OnOk result (out.new.items ≡ out.old.items ++ version_line key.now n version) }
{
    put_bytes(out, b"key")?;
    put_key(out, key)?;
    put_node(out, n)?;
    put_value(out, version.value)?;
    put_ident(out, version.ident)?;
    put_bytes(out, b"\n")
}

fn is_among(n: NodeId, nodes: &[NodeId]) -> bool
    ensures { result ≡ is_among n nodes.now }
{
    nodes.contains(&n)
}

#[tactic(auto, unfolding(crate::specs::Text::holder_line))]
fn put_holder_line(
    out: &mut Vec<u8>,
    cluster: &Cluster,
    run: &RunState,
    key: &Key,
    n: NodeId,
) -> Result<(), Memory>
    ensures { OnOk result
        (out.new.items ≡ out.old.items ++ holder_line cluster.now (journal run.now.doc (past run.now)) key.now n) }
{
    if !is_among(n, cluster.places.holders(key)) {
        return Ok(());
    }
    let alloc = *out.allocator();
    let version = newest_version(
        alloc,
        run.node(n).records.as_slice(),
        key,
        cluster.init(key),
    )?;
    put_version_line(out, key, n, version)
}

fn put_holder_lines(
    out: &mut Vec<u8>,
    cluster: &Cluster,
    run: &RunState,
    key: &Key,
    count: u8,
) -> Result<(), Memory>
    requires { count ≤ 16 }
    ensures { OnOk result (out.new.items ≡ out.old.items ++ flat_map
        (holder_line cluster.now (journal run.now.doc (past run.now)) key.now) (range_with_len 1 count)) }
{
    for i in 0..count {
        put_holder_line(out, cluster, run, key, NodeId { number: i + 1 })?;
    }
    Ok(())
}

#[tactic(auto, unfolding(crate::specs::Text::key_lines))]
fn put_key_lines(
    out: &mut Vec<u8>,
    cluster: &Cluster,
    run: &RunState,
    key: &Key,
) -> Result<(), Memory>
    ensures { OnOk result
        (out.new.items ≡ out.old.items ++ key_lines cluster.now (journal run.now.doc (past run.now)) key.now) }
{
    put_holder_lines(out, cluster, run, key, MOST_NODES)
}

fn put_each_key(
    out: &mut Vec<u8>,
    keys: &BTreeSet<Key>,
    cluster: &Cluster,
    run: &RunState,
) -> Result<(), Memory>
    ensures { OnOk result (out.new.items
        ≡ out.old.items ++ flat_map (key_lines cluster.now (journal run.now.doc (past run.now))) keys.now.keys) }
{
    for key in keys {
        put_key_lines(out, cluster, run, key)?;
    }
    Ok(())
}

fn add_inits(keys: &mut BTreeSet<Key>, inits: &[(Key, Value)]) -> Result<(), Memory>
    ensures { OnOk result (keys.new.keys ≡ fold (insert_key (slice_cmp nat_cmp)) keys.old.keys (map (λ x. x.0) inits.now)) }
{
    for init in inits {
        keys.insert(init.0)?;
    }
    Ok(())
}

fn add_ops(keys: &mut BTreeSet<Key>, ops: &[Op]) -> Result<(), Memory>
    ensures { OnOk result (keys.new.keys ≡ fold (insert_key (slice_cmp nat_cmp)) keys.old.keys (keys_named ops.now)) }
{
    for op in ops {
        keys.insert(key_of(op))?;
    }
    Ok(())
}

fn add_scripts(keys: &mut BTreeSet<Key>, scripts: &[Script]) -> Result<(), Memory>
    ensures { OnOk result (keys.new.keys
        ≡ fold (insert_key (slice_cmp nat_cmp)) keys.old.keys (flat_map (λ s. keys_named s.ops) scripts.now)) }
{
    for script in scripts {
        add_ops(keys, script.ops())?;
    }
    Ok(())
}

/// The keys that an initial value or an operation names.
pub fn key_set(alloc: Global, doc: &Document) -> Result<BTreeSet<Key>, Memory>
    ensures { IfOk result (λ s. s.keys ≡ key_order (keys_of_document doc.now.cluster.inits doc.now.scripts)) }
{
    let mut keys = BTreeSet::new(alloc);
    add_inits(&mut keys, doc.cluster().inits.as_slice())?;
    add_scripts(&mut keys, doc.scripts())?;
    Ok(keys)
}

#[tactic(auto, unfolding(crate::specs::Text::keys_lines))]
fn put_keys_lines(out: &mut Vec<u8>, doc: &Document, run: &RunState) -> Result<(), Memory>
    ensures { OnOk result (out.new.items ≡ out.old.items ++ keys_lines doc.now (journal run.now.doc (past run.now))) }
{
    let keys = key_set(*out.allocator(), doc)?;
    put_each_key(out, &keys, doc.cluster(), run)
}

#[tactic(auto, unfolding(crate::specs::Text::summary_by))]
fn put_summary(out: &mut Vec<u8>, doc: &Document, run: &RunState) -> Result<(), Memory>
    ensures { OnOk result (out.new.items ≡ out.old.items
        ++ summary_by doc.now (story run.now.doc (past run.now)) (journal run.now.doc (past run.now))) }
{
    put_bytes(out, b"summary\n")?;
    put_tx_lines(out, doc.scripts(), run)?;
    put_keys_lines(out, doc, run)
}

/// The run of a document with these acts.
fn run_of<'a>(alloc: Global, doc: &'a Document, acts: &[Act]) -> Result<RunState<'a>, Memory>
    ensures { IfOk result (λ run. run ≡ record { doc = doc.now; acts = acts.now }) }
{
    let mut run = RunState::new(alloc, doc)?;
    for act in acts {
        run = run.keep(alloc, act.copy()?)?;
    }
    Ok(run)
}

/// Appends the summary of these acts: the phase of each transaction of the document behind them, in
/// rising number, and the newest version of each of its keys at each of the key's holders, by the
/// records that stand, in byte order and then by rising node. After [`Memory`] `out` is as before.
pub fn write_summary(doc: &Document, acts: &[Act], out: &mut Vec<u8>) -> Result<(), Memory>
    ensures ok { OnOk result (out.new.items ≡ out.old.items ++ summary_text doc.now acts.now) }
    ensures err { OnErr result (out.new.items ≡ out.old.items) }
{
    let alloc = *out.allocator();
    let run = run_of(alloc, doc, acts)?;
    let mut summary = Vec::new(alloc);
    put_summary(&mut summary, doc, &run)?;
    put_bytes(out, summary.as_slice())
}
