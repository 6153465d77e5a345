//! Laws of the serial copy: of all rows and all free choices of the disks, stops and restarts included.
ghost use Rattle.std.specs.Prelude.{List};
ghost use Rattle.grid_model.specs.declared.acts.Act.{Act};
ghost use Rattle.grid_model.specs.Documents.{DocumentData, IsOne};
ghost use Rattle.grid_model.specs.Runs.{IsRun};
ghost use Rattle.grid_model.specs.Copies.{OneCopy};
ghost use Rattle.grid_model.specs.Claims.{Kept};
ghost use Rattle.grid_model.specs.Claims.{Atomic};

/// Each committed update and each finished read-only transaction was shown what one serial copy gives,
/// and each node has the copy's versions up to its commit identifier.
pub fn law_one_copy()
    ensures { (d : DocumentData) (h : List Act) → IsOne d → IsRun d d.items h → OneCopy d h }
{}

/// Each committed transaction was neither aborted nor lost, and each node that ended it ended it with
/// commit and its final identifier; nothing else was ended with commit.
pub fn law_atomic()
    ensures { (d : DocumentData) (h : List Act) → IsOne d → IsRun d d.items h → Atomic d h }
{}

/// Each finished update is in the serial order, and it stands in all lists of records that the disks may hold.
pub fn law_kept()
    ensures { (d : DocumentData) (h : List Act) → IsOne d → IsRun d d.items h → Kept d h }
{}
