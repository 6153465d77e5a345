//! Laws of footprint, causes and excuses: of all rows and all free choices of the disks, stops and
//! restarts included.
ghost use Rattle.std.specs.Prelude.{List};
ghost use Rattle.grid_model.specs.declared.acts.Act.{Act};
ghost use Rattle.grid_model.specs.Documents.{DocumentData, IsOne};
ghost use Rattle.grid_model.specs.Runs.{IsRun};
ghost use Rattle.grid_model.specs.Claims.{Caused, Genuine};
ghost use Rattle.grid_model.specs.Excuses.{Accounted, Excused};
ghost use Rattle.grid_model.specs.Claims.{RefusedWhereAsked};

/// Only the home of a transaction and the holders of its keys send and get its messages.
pub fn law_genuine()
    ensures { (d : DocumentData) (h : List Act) → IsOne d → IsRun d d.items h → Genuine d h }
{}

/// Each abort has its refusal, each refusal its holder or its newer version, each loss the opening of
/// the home; no read-only transaction is aborted; and each refusal is of the Prepare that its own node
/// got last.
pub fn law_caused()
    ensures causes { (d : DocumentData) (h : List Act) → IsRun d d.items h → Caused d h }
    ensures asked { (d : DocumentData) (h : List Act) → IsRun d d.items h → RefusedWhereAsked h }
{}

/// Each transaction that is reading or collecting at the end waits for its home, a read or a vote; so
/// each that was begun is answered, aborted, lost, decided or closed, or it is excused.
pub fn law_excused()
    ensures open { (d : DocumentData) (h : List Act) → IsOne d → IsRun d d.items h → Excused d h }
    ensures begun { (d : DocumentData) (h : List Act) → IsOne d → IsRun d d.items h → Accounted d h }
{}
