//! How a command ends: its code, and what it wrote.
ghost use Rattle.std.specs.Prelude.{◌≡◌, ◌⊎◌, ◌↔◌, ◌≤◌, ℕ, List, Some, true, false, map, codes, IfOk, IfErr, length, string_bytes, vec_capacity};
ghost use Rattle.std.specs.Io.KnownBytes.{Keeps};
ghost use Rattle.score_base.specs.Faults.{Rose};
ghost use Rattle.grid_model.specs.Documents.{IsOne};
ghost use Rattle.score_cli.specs.Disks.{AreBlank};
ghost use Rattle.score_cli.specs.Answers.{is_command, Wrote, Done, Broken, NoDocument, TooLong, OutOfMemory, IsCode, code_asked};
ghost use Rattle.score_cli.specs.Runs.{IsPlayed};

use crate::disks::{fuse_all, give_back};
use crate::headline::law_headline;
use crate::lines::{refused_line, say};
use cluster_file::{DocEnd, read_document};
use grid_model::Document;
use run_writer::{RunEnd, write_run};
use score_base::Memory;
use score_disk::{CrashDisk, Disk};
use score_io::{ReadEnd, Sink, Source, read_all};
use std::alloc::Global;

/// How a command ended.
#[derive(Clone, Copy, Debug, PartialEq, Eq)]
pub struct Status {
    /// 0 done, 2 usage, 3 refused or too long, 4 read fault, 5 write fault, 6 want of memory.
    pub code: u8,
}

/// The greatest input that is read, in bytes.
const INPUT_LIMIT: usize = 4194304;

/// Whether the words are the one command.
fn is_command(words: &[String]) -> bool
    ensures { result ≡ is_command (map (λ w. string_bytes w) words.now) }
{
    match words {
        [word] => word.as_bytes() == b"run".as_slice(),
        _ => false,
    }
}

/// Plays a document over disks, and writes the text of its run.
fn play<K: Sink, D: CrashDisk>(
    alloc: Global,
    doc: &Document,
    out: &mut K,
    disks: &mut Vec<D>,
) -> Status
    requires one { IsOne doc.now }
    requires blank { AreBlank ⟦<D as Disk>⟧ disks.old.items }
    ensures { IsPlayed ⟦<D as Disk>⟧ doc.now disks.old.items disks.new.items (K.held out.old) (K.held out.new)
        (K.faults out.old) (K.faults out.new) result.code }
{
    law_headline();
    let Ok(fused) = fuse_all(alloc, disks) else {
        return Status { code: 6 };
    };
    match write_run(alloc, doc, fused, out) {
        RunEnd::Whole(left) => {
            give_back(left, disks);
            Status { code: 0 }
        }
        RunEnd::Broken(left) => {
            give_back(left, disks);
            Status { code: 5 }
        }
        RunEnd::Memory => Status { code: 6 },
    }
}

/// What [`score`] does; its answer is complete by the clauses of this one.
fn respond<S: Source, K: Sink, D: CrashDisk>(
    alloc: Global,
    words: &Vec<String>,
    input: &mut S,
    out: &mut K,
    disks: &mut Vec<D>,
) -> Status
    requires { AreBlank ⟦<D as Disk>⟧ disks.old.items }
    ensures code { IsCode result.code }
    ensures usage { (result.code ≡ 2) ↔ (is_command (map (λ w. string_bytes w) words.now.items) ≡ false) }
    ensures usage_line { result.code ≡ 2
        → Wrote (K.held out.old) (K.held out.new) (K.faults out.old) (K.faults out.new) (codes "usage\n") }
    ensures done { result.code ≡ 0 → Done ⟦<D as Disk>⟧ (S.left input.old) (S.left input.new) (K.held out.old)
        (K.held out.new) disks.old.items disks.new.items }
    ensures refused { result.code ≡ 3 →
        NoDocument (S.left input.old) (S.left input.new) (K.held out.old) (K.held out.new) (K.faults out.old)
        (K.faults out.new)
        ⊎ TooLong (S.left input.old) (S.left input.new) (K.held out.old) (K.held out.new) (K.faults out.old)
        (K.faults out.new) }
    ensures read_fault { result.code ≡ 4 → Rose (S.faults input.old) (S.faults input.new) }
    ensures read_line { result.code ≡ 4
        → Wrote (K.held out.old) (K.held out.new) (K.faults out.old) (K.faults out.new) (codes "read fault\n") }
    ensures write_fault { result.code ≡ 5 → Broken ⟦<D as Disk>⟧ (S.left input.old) (S.left input.new) (K.held out.old)
        (K.held out.new) (K.faults out.old) (K.faults out.new) disks.old.items disks.new.items }
    ensures memory { result.code ≡ 6 → OutOfMemory (S.left input.old) (S.left input.new) (K.held out.old) (K.held out.new) }
    ensures untouched { (result.code ≡ 2) ⊎ ((result.code ≡ 3) ⊎ (result.code ≡ 4)) → disks.new ≡ disks.old }
{
    if !is_command(words.as_slice()) {
        say(out, b"usage\n");
        return Status { code: 2 };
    }
    let bytes = match read_all(alloc, input, INPUT_LIMIT) {
        Ok(bytes) => bytes,
        Err(ReadEnd::ReadFault) => {
            say(out, b"read fault\n");
            return Status { code: 4 };
        }
        Err(ReadEnd::TooLong) => {
            say(out, b"too long\n");
            return Status { code: 3 };
        }
        Err(ReadEnd::Memory) => return Status { code: 6 },
    };
    match read_document(alloc, bytes.as_slice()) {
        Ok(doc) => play(alloc, &doc, out, disks),
        Err(DocEnd::Memory) => Status { code: 6 },
        Err(DocEnd::Refused(refusal)) => {
            let Ok(line) = refused_line(alloc, refusal) else {
                return Status { code: 6 };
            };
            say(out, line.as_slice());
            Status { code: 3 }
        }
    }
}

/// Runs a command: `run` reads a document from `input`, plays it over the disks, and writes the text of its run to
/// `out`, each event's lines before the next event is played. There are 32 disks, empty and settled; node n has those
/// at the places 2 (n - 1) and 2 (n - 1) + 1.
///
/// The code is 2 exactly where the words are no command; 3 where the input, read whole, is no document or more than
/// 4,194,304 bytes came; 4 only where the count of faults of `input` rose, and 5 only where that of `out` rose; 6 for
/// want of memory; and 0 where the text of acts was written whole of which the headline holds (`Headline` of `specs/`):
/// they are a lawful run of the document, in which each stop is by a fuse or by a fault that a disk counted; committed
/// updates and finished read-only transactions were shown what one serial copy gives; what a client was told is kept;
/// each abort has its shown cause; and only the home of a transaction and the holders of its keys send and get its
/// messages. The disks as they are left hold what was acknowledged (`Holds`), after 0 and after 5. After 5 the same is
/// said of the document cut behind the event in whose lines `out` failed. After 2, 3 and 4 no disk was touched; after 6
/// nothing is said of them. No fault of a disk ends a run. Clauses on bytes speak where `input` and `out` tell them.
pub fn score<S: Source, K: Sink, D: CrashDisk>(
    alloc: Global,
    words: &Vec<String>,
    input: &mut S,
    out: &mut K,
    disks: &mut Vec<D>,
) -> Status
    requires { AreBlank ⟦<D as Disk>⟧ disks.old.items }
    ensures code { IsCode result.code }

    // 2: the words alone decide.
    ensures usage { (result.code ≡ 2) ↔ (is_command (map (λ w. string_bytes w) words.now.items) ≡ false) }
    ensures usage_line { result.code ≡ 2
        → Wrote (K.held out.old) (K.held out.new) (K.faults out.old) (K.faults out.new) (codes "usage\n") }

    // 0: the headline.
    ensures done { result.code ≡ 0 → Done ⟦<D as Disk>⟧ (S.left input.old) (S.left input.new) (K.held out.old)
        (K.held out.new) disks.old.items disks.new.items }

    // 3: the first line at fault and why, or too many bytes.
    ensures refused { result.code ≡ 3 →
        NoDocument (S.left input.old) (S.left input.new) (K.held out.old) (K.held out.new) (K.faults out.old)
        (K.faults out.new)
        ⊎ TooLong (S.left input.old) (S.left input.new) (K.held out.old) (K.held out.new) (K.faults out.old)
        (K.faults out.new) }

    // 4 and 5: a count of faults rose in this call. After 5 the headline of the cut document.
    ensures read_fault { result.code ≡ 4 → Rose (S.faults input.old) (S.faults input.new) }
    ensures read_line { result.code ≡ 4
        → Wrote (K.held out.old) (K.held out.new) (K.faults out.old) (K.faults out.new) (codes "read fault\n") }
    ensures write_fault { result.code ≡ 5 → Broken ⟦<D as Disk>⟧ (S.left input.old) (S.left input.new) (K.held out.old)
        (K.held out.new) (K.faults out.old) (K.faults out.new) disks.old.items disks.new.items }

    // 6: nothing was written, or the first parts of such a text.
    ensures memory { result.code ≡ 6 → OutOfMemory (S.left input.old) (S.left input.new) (K.held out.old) (K.held out.new) }

    // 2, 3 and 4: no disk was touched.
    ensures untouched { (result.code ≡ 2) ⊎ ((result.code ≡ 3) ⊎ (result.code ≡ 4)) → disks.new ≡ disks.old }

    // With no fault, the command and the bytes alone decide between 0 and 3, but for want of memory.
    ensures complete { (bytes : List ℕ) → S.left input.old ≡ Some bytes → is_command (map (λ w. string_bytes w) words.now.items) ≡ true →
        (Rose (S.faults input.old) (S.faults input.new) → ⊥) → (Rose (K.faults out.old) (K.faults out.new) → ⊥) →
        (result.code ≡ code_asked bytes) ⊎ (result.code ≡ 6) }
{
    respond(alloc, words, input, out, disks)
}
