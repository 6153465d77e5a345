//! An event of a node that is up.
ghost use Rattle.std.specs.Prelude.{◌≡◌, ◌<◌, ◌-◌, ◌^◌, ℕ, List};
ghost use Rattle.score_base.specs.declared.ids.NodeId.{NodeId};
ghost use Rattle.grid_model.specs.declared.acts.Act.{Act};
ghost use Rattle.grid_model.specs.declared.events.Event.{Event};
ghost use Rattle.grid_model.specs.declared.events.Event.TheVariants as event;
ghost use Rattle.grid_model.specs.Documents.{DocumentData};
ghost use Rattle.grid_model.specs.NextViews.{Comes};
ghost use Rattle.node_core.specs.declared.nodes.Node.{Node};
ghost use Rattle.grid_hosts.specs.declared.hosts.Host.{Host};
ghost use Rattle.grid_hosts.specs.declared.hosts.Place.{Place};
ghost use Rattle.grid_hosts.specs.declared.hosts.Place.TheVariants.{Up};
ghost use Rattle.grid_hosts.specs.declared.steps.Ran.{Ran};
ghost use Rattle.grid_hosts.specs.Hosts.{Runs, HasCompacted};
ghost use Rattle.host_laws.specs.Standing.{NodeStands};
ghost use Rattle.host_laws.specs.Turns.{RanBehind};

use score_disk::{CrashDisk, Disk};

/// A node that stands behind some acts gives the outs of its row at an event that comes, and stands behind their acts;
/// or it went down in its row, and stands behind that. A compaction is such an event, where the live file does not have
/// the last generation.
pub fn law_host_events<D: CrashDisk>()
    ensures runs { (d : DocumentData) (past : List Act) (n : NodeId) (m : ℕ) (e : Event)
        (x : Node D D.Disk) (q : Place D D.Disk) (r : Ran) →
        NodeStands d past n x → Comes d past n m e → (e ≡ event.Compact → ⊥) → Runs x e q r →
        RanBehind d past n m e (Up x) q r }
    ensures compacts { (d : DocumentData) (past : List Act) (n : NodeId)
        (x : Node D D.Disk) (h now : Host D D.Disk) (r : Ran) →
        NodeStands d past n x → x.pair.number < 2 ^ 64 - 1 → h.place ≡ Up x → HasCompacted h now r →
        RanBehind d past n 0 event.Compact (Up x) now.place r }
{}
