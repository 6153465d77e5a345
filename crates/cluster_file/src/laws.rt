//! A document has one spelling, and its limits are these.
ghost use Rattle.std.specs.Prelude.{◌≡◌, ℕ, List, Ok, IsTrue};
ghost use Rattle.grid_model.specs.Documents.{DocumentData, IsDocument, IsOne};
ghost use Rattle.cluster_file.specs.Doc.{doc};
ghost use Rattle.cluster_file.specs.Spelling.{spelling, IsInRange, are_items_numbered};
ghost use Rattle.script_lang.specs.declared.limits.TheConstants.{MAX_NODES, MAX_TX, MAX_SESSION, MAX_OPS, MAX_STEPS};
ghost use Rattle.cluster_file.specs.declared.limits.TheConstants.{MAX_PARTITIONS, MAX_KEYS, MAX_SCRIPTS, MAX_EVENTS, MAX_COUNT, MAX_CALL};

/// A document has one spelling. Where `doc` finds a document in some bytes, they are its spelling; the
/// document is all that the laws ask of one, each of its parts is in the range of its type, and the nodes
/// that its items name are numbered from 1. In the spelling of every such document `doc` finds that
/// document.
pub fn law_one_spelling()
    ensures writes { (bytes : List ℕ) (d : DocumentData) → doc bytes ≡ Ok d → bytes ≡ spelling d }
    ensures fits { (bytes : List ℕ) (d : DocumentData) → doc bytes ≡ Ok d → IsOne d × IsInRange d }
    ensures numbered { (bytes : List ℕ) (d : DocumentData) → doc bytes ≡ Ok d → IsTrue (are_items_numbered d.items) }
    ensures reads { (d : DocumentData) → IsDocument d → IsInRange d → doc (spelling d) ≡ Ok d }
{}

/// The limits of a document, in numbers: the definitions cite the constants of the code.
pub fn law_limits()
    ensures nodes { MAX_NODES ≡ 16 }
    ensures transactions { MAX_TX ≡ 65535 }
    ensures sessions { MAX_SESSION ≡ 65535 }
    ensures operations { MAX_OPS ≡ 32 }
    ensures steps { MAX_STEPS ≡ 16 }
    ensures partitions { MAX_PARTITIONS ≡ 64 }
    ensures keys { MAX_KEYS ≡ 4096 }
    ensures scripts { MAX_SCRIPTS ≡ 4096 }
    ensures events { MAX_EVENTS ≡ 50000 }
    ensures counts { MAX_COUNT ≡ 4294967295 }
    ensures calls { MAX_CALL ≡ 1000 }
{}
