//! The law of sessions: of all rows and all free choices of the disks, stops and restarts included.
ghost use Rattle.std.specs.Prelude.{List};
ghost use Rattle.grid_model.specs.declared.acts.Act.{Act};
ghost use Rattle.grid_model.specs.Documents.{DocumentData};
ghost use Rattle.grid_model.specs.Runs.{IsRun};
ghost use Rattle.grid_model.specs.Sessions.{SessionOrder};

/// Of two transactions of one session the later one begins when the earlier one is open no more, and the
/// serial order has the earlier one first: each update is above what its session committed and read before
/// it, and each snapshot is at least that.
pub fn law_sessions()
    ensures { (d : DocumentData) (h : List Act) → IsRun d d.items h → SessionOrder d h }
{}
