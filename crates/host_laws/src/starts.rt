//! The start: each node is opened for the first time.
ghost use Rattle.std.specs.Prelude.{◌≡◌, ◌≤◌, ◌-◌, ℕ, Bool, List, length, slice_get, Some};
ghost use Rattle.score_base.specs.declared.ids.NodeId.{NodeId};
ghost use Rattle.placement.specs.Clusters.{ClusterData};
ghost use Rattle.grid_model.specs.declared.acts.Flag.{Flag};
ghost use Rattle.grid_model.specs.declared.acts.Flag.TheVariants as flag;
ghost use Rattle.grid_model.specs.Documents.{DocumentData};
ghost use Rattle.grid_model.specs.Schedules.{start_row};
ghost use Rattle.grid_hosts.specs.declared.hosts.Host.{Host};
ghost use Rattle.grid_hosts.specs.declared.hosts.Place.{Place};
ghost use Rattle.grid_hosts.specs.declared.openings.Restarted.TheVariants as restarted;
ghost use Rattle.grid_hosts.specs.Hosts.{AreOpenable, Reopens};
ghost use Rattle.host_laws.specs.Follows.{HostsFollow};
ghost use Rattle.host_laws.specs.Starts.{AreNew, HasStarted, never_up};

use score_disk::{CrashDisk, Disk};

/// A node can be opened from two new disks, and where it comes up from them nothing was in doubt. Where each node was
/// opened so, in its place, the nodes follow the run behind the start.
pub fn law_host_start<D: CrashDisk>()
    ensures openable { (n : NodeId) (c : ClusterData) (a b : D) → AreNew D.Disk a b → AreOpenable D.Disk n c a b }
    ensures untouched { (n : NodeId) (c : ClusterData) (a b : D) (p : Place D D.Disk) (f : Flag) →
        Reopens n c a b never_up p (restarted.Up f) → f ≡ flag.Untouched }
    ensures starts { (d : DocumentData) (given : ℕ → ℕ) (hosts : List (Host D D.Disk)) (opens : NodeId → Bool) →
        length hosts ≡ d.cluster.nodes →
        ((n : NodeId) → 1 ≤ n → n ≤ d.cluster.nodes →
        (x : Host D D.Disk) × (slice_get hosts (n - 1) ≡ Some x) × HasStarted d.cluster given n (opens n) x) →
        HostsFollow d 0 (start_row d.cluster.nodes opens) given hosts }
{}
