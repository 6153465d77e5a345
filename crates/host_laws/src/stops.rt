//! A crash of a node that is up, and an arming of its fuses.
ghost use Rattle.std.specs.Prelude.{◌≡◌, ◌≤◌, ℕ, List, [], ◌∷◌, Some, None};
ghost use Rattle.score_base.specs.declared.ids.NodeId.{NodeId};
ghost use Rattle.grid_model.specs.declared.acts.Act.{Act};
ghost use Rattle.grid_model.specs.declared.acts.Act.TheVariants as act;
ghost use Rattle.grid_model.specs.Documents.{DocumentData};
ghost use Rattle.node_core.specs.declared.nodes.Node.{Node};
ghost use Rattle.grid_hosts.specs.declared.hosts.Place.{Place};
ghost use Rattle.grid_hosts.specs.declared.hosts.Place.TheVariants.{Up};
ghost use Rattle.grid_hosts.specs.Hosts.{Crashes, IsFused};
ghost use Rattle.host_laws.specs.Standing.{NodeStands, Stands};
ghost use Rattle.host_laws.specs.Turns.{Turns};

use score_disk::{CrashDisk, Disk};

/// A node that is crashed stands behind its stop, and one whose fuses are armed stands behind that.
pub fn law_host_stops<D: CrashDisk>()
    ensures crashes { (d : DocumentData) (past : List Act) (n : NodeId)
        (x : Node D D.Disk) (q : Place D D.Disk) →
        NodeStands d past n x → Crashes (Up x) q → Turns d past (act.Down n None ∷ []) n (Up x) q }
    ensures arms { (d : DocumentData) (past : List Act) (n : NodeId) (k how : ℕ) (p q : Place D D.Disk) →
        Stands d past n p → 1 ≤ k → IsFused (Some k) p q → Turns d past (act.Armed n k how ∷ []) n p q }
{}
