//! An opening of a node that is down.
ghost use Rattle.std.specs.Prelude.{◌≡◌, ℕ, List, []};
ghost use Rattle.score_base.specs.declared.ids.NodeId.{NodeId};
ghost use Rattle.grid_model.specs.declared.acts.Act.{Act};
ghost use Rattle.grid_model.specs.declared.items.Item.{Item};
ghost use Rattle.grid_model.specs.Documents.{DocumentData};
ghost use Rattle.grid_model.specs.Histories.{after};
ghost use Rattle.grid_model.specs.Runs.{IsRun};
ghost use Rattle.grid_hosts.specs.declared.falls.Fall.{Fall};
ghost use Rattle.grid_hosts.specs.declared.hosts.Place.{Place};
ghost use Rattle.grid_hosts.specs.declared.hosts.Place.TheVariants.{Down};
ghost use Rattle.grid_hosts.specs.declared.openings.Restarted.{Restarted};
ghost use Rattle.grid_hosts.specs.Hosts.{AreOpenable, Reopens};
ghost use Rattle.host_laws.specs.Standing.{FallStands};
ghost use Rattle.host_laws.specs.Turns.{RestartedBehind};

use score_disk::{CrashDisk, Disk};

/// A node that is down behind a run can be opened: its records fit. Where it comes up, it says what the acts say of what
/// was in doubt, and stands behind its opening and the losses of its transactions; where it does not, it stands behind
/// that.
pub fn law_host_openings<D: CrashDisk>()
    ensures openable { (d : DocumentData) (items : List Item) (h : List Act) (n : NodeId)
        (a b : D) (fall : Fall) → IsRun d items h →
        FallStands D.Disk d (after [] h) n a b fall →
        AreOpenable D.Disk n d.cluster a b }
    ensures reopens { (d : DocumentData) (items : List Item) (h : List Act) (n : NodeId)
        (a b : D) (fall : Fall) (q : Place D D.Disk) (r : Restarted) → IsRun d items h →
        FallStands D.Disk d (after [] h) n a b fall → Reopens n d.cluster a b fall q r →
        RestartedBehind d (after [] h) n (Down a b fall) q r }
{}
