//! A node that has no part in an event.
ghost use Rattle.std.specs.Prelude.{List};
ghost use Rattle.score_base.specs.declared.ids.NodeId.{NodeId};
ghost use Rattle.grid_model.specs.declared.acts.Act.{Act};
ghost use Rattle.grid_model.specs.Documents.{DocumentData};
ghost use Rattle.view_laws.specs.Unmoved.{IsUnmoved};
ghost use Rattle.grid_hosts.specs.declared.hosts.Place.{Place};
ghost use Rattle.host_laws.specs.Standing.{Stands};

use score_disk::{CrashDisk, Disk};

/// A node that stands is left standing by acts that leave it as it was.
pub fn law_host_others<D: CrashDisk>()
    ensures { (d : DocumentData) (past now : List Act) (n : NodeId) (p : Place D D.Disk) →
        IsUnmoved d past now n → Stands d past n p → Stands d now n p }
{}
