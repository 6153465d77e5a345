//! The generation of a file, and which of two is the younger.
ghost use Rattle.std.specs.Prelude.{◌≡◌, ℕ, ◌+◌, ◌<◌, ◌==◌, List, Some, None, Ok, Err, take, drop, length, slice_index, nat_lt, IsTrue, IfOk, IfErr, OnOk, OnErr, if◌then◌else◌};
ghost use Rattle.std.specs.Int.{w64, from_be_bytes};
ghost use Rattle.score_disk.specs.Files.{Settled};
ghost use Rattle.node_journal.specs.Log.{generation, log};
ghost use Rattle.node_journal.specs.Pairs.{age, number_of};
ghost use Rattle.node_journal.specs.Spending.{Looked};

use score_base::Failed;
use score_disk::Disk;

/// The generation in the first nine bytes of a file of at least ten.
fn generation_in(head: &[u8]) -> Option<u64>
    requires { length head.now ≡ 9 }
    ensures { result ≡ (if slice_index head.now 0 == 2 then Some (from_be_bytes w64 (drop 1 head.now)) else None) }
{
    match head {
        [2, a, b, c, d, e, f, g, h] => Some(u64::from_be_bytes([*a, *b, *c, *d, *e, *f, *g, *h])),
        _ => None,
    }
}

/// The generation of the file, where it has one.
pub(crate) fn generation_of<D: Disk>(disk: &mut D) -> Result<Option<u64>, Failed>
    ensures generation { IfOk result (λ g. IsTrue (D.tells disk.old) → g ≡ generation (D.file disk.old).seen) }
    ensures looked { Looked D.Disk disk.old disk.new result }
{
    let len = match disk.len() {
        Ok(len) => len,
        Err(e) => return Err(e),
    };
    if len < 10 {
        return Ok(None);
    }
    let mut head = [0u8; 9];
    match disk.read(0, &mut head) {
        Ok(()) => Ok(generation_in(&head)),
        Err(e) => Err(e),
    }
}

/// Whether the second file is the younger.
pub(crate) fn is_younger(first: Option<u64>, second: Option<u64>) -> bool
    ensures { result ≡ nat_lt (age first) (age second) }
{
    match (first, second) {
        (_, None) => false,
        (None, Some(_)) => true,
        (Some(a), Some(b)) => a < b,
    }
}

/// The generation as a number.
pub(crate) fn number(generation: Option<u64>) -> u64
    ensures { result ≡ number_of generation }
{
    generation.unwrap_or(0)
}
