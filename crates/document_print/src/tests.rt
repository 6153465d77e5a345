//! Worked documents: what is printed of them, and that it is what was read.
ghost use Rattle.std.specs.Prelude.{◌≡◌, ◌≤◌, ◌∷◌, [], codes, IfOk};

use crate::{print_document, print_script};
use cluster_file::read_document;
use grid_model::{Document, Item, ItemList, ScriptList};
use placement::{Cluster, Places};
use score_base::{Key, Memory, NodeId, NodeList, TxId, Value, WriteList, put_bytes};
use script_lang::{Op, Script, ScriptDraft, read_script};
use std::alloc::Global;
use std::test::Fail;

/// Whether a document is read from the text, and printed as it.
fn is_printed_as_read(alloc: Global, text: &[u8]) -> bool {
    match read_document(alloc, text) {
        Ok(doc) => is_printed_as(alloc, &doc, text),
        Err(_) => false,
    }
}

fn is_printed_as(alloc: Global, doc: &Document, text: &[u8]) -> bool {
    let mut out = Vec::new(alloc);
    match print_document(doc, &mut out) {
        Ok(()) => out.as_slice() == text,
        Err(_) => false,
    }
}

#[test]
fn a_document_is_printed_as_it_was_read(rt: HostRuntime) {
    let text = "\
nodes 3
partition 0 n2 n1
partition 1 n3
init a 10
init b_1 18446744073709551615
tx 7 n1 session 65535
read a
read b_1
write a a + 1 - b_1 * 2 min a max 0 pick 3 a
write c 0
end
tx 3 n3
write b_1 5 pick 6 7
end
schedule
begin 7
next 12
drop 2
deliver 4294967295
begin 3
";
    assert!(rt; is_printed_as_read(rt.alloc(), text.as_bytes()));
}

/// Whether a script is read from the text, and printed as it behind a line.
fn is_printed_behind(alloc: Global, text: &[u8], wanted: &[u8]) -> bool {
    match read_script(alloc, text, 16) {
        Ok(script) => is_script_printed_behind(alloc, &script, wanted),
        Err(_) => false,
    }
}

fn is_script_printed_behind(alloc: Global, script: &Script, wanted: &[u8]) -> bool {
    let mut out = Vec::new(alloc);
    match put_bytes(&mut out, b"first\n") {
        Ok(()) => print_script(script, &mut out).is_ok() && out.as_slice() == wanted,
        Err(_) => false,
    }
}

#[test]
fn a_script_is_printed_behind_what_stands(rt: HostRuntime) {
    let text = b"tx 65535 n16 session 4\nread x\nwrite y x\nend\n";
    let wanted = b"first\ntx 65535 n16 session 4\nread x\nwrite y x\nend\n";
    assert!(rt; is_printed_behind(rt.alloc(), text, wanted));
}

fn node(number: u8) -> NodeId
    requires least { 1 ≤ number }
    requires most { number ≤ 16 }
    ensures { result ≡ number }
{
    NodeId { number }
}

fn key(bytes: &[u8]) -> Result<Key, Memory>
    ensures { IfOk result (λ k. k ≡ bytes.now) }
{
    match Key::new(bytes) {
        Some(key) => Ok(key),
        None => Err(Memory),
    }
}

fn places(alloc: Global) -> Result<Places, Memory>
    ensures { IfOk result (λ p. p ≡ (1 ∷ []) ∷ (2 ∷ []) ∷ []) }
{
    let mut first = NodeList::new(alloc);
    first.push(node(1))?;
    let mut second = NodeList::new(alloc);
    second.push(node(2))?;
    let mut partitions = Vec::new(alloc);
    partitions.push(first)?;
    partitions.push(second)?;
    Ok(Places::new(partitions))
}

/// Two nodes with a partition each, and one key with a value.
fn cluster(alloc: Global) -> Result<Cluster, Memory>
    ensures { IfOk result (λ c. c
        ≡ record { nodes = 2; places = (1 ∷ []) ∷ (2 ∷ []) ∷ []; inits = (codes "a", 10) ∷ [] }) }
{
    let mut inits = WriteList::new(alloc);
    inits.push((key(b"a")?, Value(10)))?;
    Ok(Cluster {
        nodes: 2,
        places: places(alloc)?,
        inits,
    })
}

/// Transaction 1 of n1, which reads `a`.
fn reader(alloc: Global) -> Result<Script, Memory>
    ensures { IfOk result (λ s. s ≡ record { number = 1; home = 1; session = 0; ops = Op.Read (codes "a") ∷ [] }) }
{
    let mut draft = ScriptDraft::new(alloc, TxId { number: 1 }, node(1), 0);
    draft.push_read(key(b"a")?)?;
    Ok(draft.finish())
}

/// One item of each form.
fn each_item(alloc: Global) -> Result<ItemList, Memory>
    ensures { IfOk result (λ items. items
        ≡ Item.Begin 1 ∷ Item.Deliver 2 ∷ Item.Drop 3 ∷ Item.Next 4 ∷ Item.Retry 1 ∷ Item.Ask 2 1
        ∷ Item.AskPeer 2 1 1 ∷ Item.Crash 2 5 ∷ Item.Fuse 2 6 7 ∷ Item.Restart 1 ∷ Item.Compact 2 ∷ []) }
{
    let t = TxId { number: 1 };
    let items = [
        Item::Begin(t),
        Item::Deliver(2),
        Item::Drop(3),
        Item::Next(4),
        Item::Retry(t),
        Item::Ask(node(2), t),
        Item::AskPeer(node(2), t, node(1)),
        Item::Crash(node(2), 5),
        Item::Fuse(node(2), 6, 7),
        Item::Restart(node(1)),
        Item::Compact(node(2)),
    ];
    Ok(ItemList::from_vec(Vec::from_slice(alloc, &items)?))
}

fn document(alloc: Global) -> Result<Document, Memory> {
    let mut scripts = ScriptList::new(alloc);
    scripts.push(reader(alloc)?)?;
    Ok(Document {
        cluster: cluster(alloc)?,
        scripts,
        items: each_item(alloc)?,
    })
}

#[test]
fn each_form_of_item(rt: HostRuntime) -> Result<(), Fail> {
    let doc = document(rt.alloc())?;
    let text = "\
nodes 2
partition 0 n1
partition 1 n2
init a 10
tx 1 n1
read a
end
schedule
begin 1
deliver 2
drop 3
next 4
retry 1
ask n2 1
ask n2 1 n1
crash n2 5
fuse n2 6 7
restart n1
compact n2
";
    assert!(rt; is_printed_as(rt.alloc(), &doc, text.as_bytes()));
    Ok(())
}
