//! What the disks hold behind a run.
ghost use Rattle.std.specs.Prelude.{◌≡◌, ◌≤◌, ℕ, ◌*◌, List, []};
ghost use Rattle.score_base.specs.declared.ids.NodeId.{NodeId};
ghost use Rattle.score_disk.specs.Files.{File};
ghost use Rattle.grid_model.specs.declared.acts.Act.{Act};
ghost use Rattle.grid_model.specs.Documents.{DocumentData, IsOne};
ghost use Rattle.grid_model.specs.Histories.{after};
ghost use Rattle.grid_model.specs.Runs.{IsRun};
ghost use Rattle.disk_laws.specs.Shown.{Shown};
ghost use Rattle.disk_laws.specs.Seats.{Stands};
ghost use Rattle.disk_laws.specs.Holds.{Holds, first_of_node, second_of_node};

/// Behind a run, where the disks of each node stand, they hold its log, and in these logs each finished update; the
/// others are as they were given.
pub fn law_holds()
    ensures { (d : DocumentData) (h : List Act) (given : ℕ → File) (disks : ℕ → Shown) → IsOne d → IsRun d d.items h →
        ((n : NodeId) → 1 ≤ n → n ≤ d.cluster.nodes →
        Stands d (after [] h) n (disks (first_of_node n)) (disks (second_of_node n))) →
        ((m : ℕ) → 2 * d.cluster.nodes ≤ m → (disks m).file ≡ given m) → Holds d h given (λ m. (disks m).file) }
{}
