//! The lines of a cluster.
ghost use Rattle.std.specs.Prelude.{◌≡◌, ◌++◌, map, OnOk};
ghost use Rattle.std.specs.List.{flat_map};
ghost use Rattle.history_print.specs.Acts.{spaced, line};
ghost use Rattle.cluster_file.specs.Spelling.{node_word, nodes_words, partition_words, partition_lines, init_words};

use history_print::{put_count, put_key, put_node, put_value};
use score_base::{Key, Memory, NodeId, NodeList, Value, put_bytes};

/// Appends the line of the number of nodes.
pub fn put_nodes(out: &mut Vec<u8>, nodes: u8) -> Result<(), Memory>
    ensures { OnOk result (out.new.items ≡ out.old.items ++ line (nodes_words nodes)) }
{
    put_bytes(out, b"nodes")?;
    put_count(out, nodes as u64)?;
    put_bytes(out, b"\n")
}

fn put_each_node(out: &mut Vec<u8>, nodes: &[NodeId]) -> Result<(), Memory>
    ensures { OnOk result (out.new.items ≡ out.old.items ++ spaced (map node_word nodes.now)) }
{
    for node in nodes {
        put_node(out, *node)?;
    }
    Ok(())
}

fn put_partition(out: &mut Vec<u8>, i: usize, nodes: &[NodeId]) -> Result<(), Memory>
    ensures { OnOk result (out.new.items ≡ out.old.items ++ line (partition_words i nodes.now)) }
{
    put_bytes(out, b"partition")?;
    put_count(out, i as u64)?;
    put_each_node(out, nodes)?;
    put_bytes(out, b"\n")
}

/// Appends the lines of the partitions.
pub fn put_partitions(out: &mut Vec<u8>, partitions: &[NodeList]) -> Result<(), Memory>
    ensures { OnOk result (out.new.items ≡ out.old.items ++ flat_map line (partition_lines 0 partitions.now)) }
{
    let mut i = 0;
    for nodes in partitions {
        put_partition(out, i, nodes.as_slice())?;
        i += 1;
    }
    Ok(())
}

fn put_init(out: &mut Vec<u8>, key: &Key, value: Value) -> Result<(), Memory>
    ensures { OnOk result (out.new.items ≡ out.old.items ++ line (init_words (key.now, value))) }
{
    put_bytes(out, b"init")?;
    put_key(out, key)?;
    put_value(out, value)?;
    put_bytes(out, b"\n")
}

/// Appends the lines of the initial values.
pub fn put_inits(out: &mut Vec<u8>, inits: &[(Key, Value)]) -> Result<(), Memory>
    ensures { OnOk result (out.new.items ≡ out.old.items ++ flat_map (λ x. line (init_words x)) inits.now) }
{
    for init in inits {
        put_init(out, &init.0, init.1)?;
    }
    Ok(())
}
