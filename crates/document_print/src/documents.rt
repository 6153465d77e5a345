//! The whole document.
ghost use Rattle.std.specs.Prelude.{◌≡◌, ◌++◌, OnOk, OnErr};
ghost use Rattle.std.specs.List.{flat_map};
ghost use Rattle.history_print.specs.Acts.{line};
ghost use Rattle.script_lang.specs.Spelling.{script_text};
ghost use Rattle.cluster_file.specs.Spelling.{spelling};
ghost use Rattle.document_print.specs.Lines.{cluster_lines};

use crate::clusters::{put_inits, put_nodes, put_partitions};
use crate::items::put_items;
use crate::scripts::put_script;
use grid_model::Document;
use placement::Cluster;
use score_base::{Memory, put_bytes};
use script_lang::Script;

fn put_cluster(out: &mut Vec<u8>, cluster: &Cluster) -> Result<(), Memory>
    ensures { OnOk result (out.new.items ≡ out.old.items ++ flat_map line (cluster_lines cluster.now)) }
{
    put_nodes(out, cluster.nodes())?;
    put_partitions(out, cluster.places.partitions())?;
    put_inits(out, cluster.inits.as_slice())
}

fn put_scripts(out: &mut Vec<u8>, scripts: &[Script]) -> Result<(), Memory>
    ensures { OnOk result (out.new.items ≡ out.old.items ++ flat_map script_text scripts.now) }
{
    for script in scripts {
        put_script(out, script)?;
    }
    Ok(())
}

fn put_document(out: &mut Vec<u8>, doc: &Document) -> Result<(), Memory>
    ensures { OnOk result (out.new.items ≡ out.old.items ++ spelling doc.now) }
{
    put_cluster(out, doc.cluster())?;
    put_scripts(out, doc.scripts())?;
    put_bytes(out, b"schedule\n")?;
    put_items(out, doc.items())
}

/// Appends the one spelling of a document. After [`Memory`] `out` is as before.
pub fn print_document(doc: &Document, out: &mut Vec<u8>) -> Result<(), Memory>
    ensures ok { OnOk result (out.new.items ≡ out.old.items ++ spelling doc.now) }
    ensures err { OnErr result (out.new.items ≡ out.old.items) }
{
    let mut text = Vec::new(*out.allocator());
    put_document(&mut text, doc)?;
    put_bytes(out, text.as_slice())
}
