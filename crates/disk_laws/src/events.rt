//! What stands of the two disks of a node behind the acts in which they have no part.
ghost use Rattle.std.specs.Prelude.{◌≡◌, ◌≢◌, ℕ, IsTrue, List, ◌∷◌, ◌++◌};
ghost use Rattle.std.specs.List.{list_all};
ghost use Rattle.score_base.specs.declared.ids.NodeId.{NodeId};
ghost use Rattle.grid_model.specs.declared.acts.Act.{Act};
ghost use Rattle.grid_model.specs.Documents.{DocumentData};
ghost use Rattle.grid_model.specs.Histories.{after};
ghost use Rattle.disk_laws.specs.DiskActs.{is_of_disk, is_quiet, IsDiskEvent};
ghost use Rattle.disk_laws.specs.Shown.{Shown, Seats};
ghost use Rattle.disk_laws.specs.Seats.{StandsUp, StandsDown, IsTurn};

/// A turn of a node's disks with acts in which no disk has a part before and behind it is an event of theirs. What
/// stands of the disks of a node is left by acts in which no disk has a part, by an act of another node's disks, by
/// an event of theirs, and by what is behind the turn in an event of its own.
pub fn law_seats_event()
    ensures turn { (d : DocumentData) (past acts front behind : List Act) (a : Act) (n : NodeId)
        (first second first' second' : Shown) → acts ≡ front ++ a ∷ behind → IsTrue (list_all is_quiet front) →
        IsTrue (list_all is_quiet behind) → (t : IsTurn d (after past front) n a first second first' second') →
        IsDiskEvent d past acts n t.more }
    ensures up_quiet { (d : DocumentData) (past acts : List Act) (n : NodeId) (number : ℕ) (s : Seats) →
        IsTrue (list_all is_quiet acts) → StandsUp d past n number s → StandsUp d (after past acts) n number s }
    ensures down_quiet { (d : DocumentData) (past acts : List Act) (n : NodeId) (number : ℕ) (first second : Shown) →
        IsTrue (list_all is_quiet acts) → StandsDown d past n number first second →
        StandsDown d (after past acts) n number first second }
    ensures up_other { (d : DocumentData) (past : List Act) (a : Act) (m n : NodeId) (number : ℕ) (s : Seats) →
        IsTrue (is_of_disk d m a) → m ≢ n → StandsUp d past n number s → StandsUp d (a ∷ past) n number s }
    ensures down_other { (d : DocumentData) (past : List Act) (a : Act) (m n : NodeId) (number : ℕ)
        (first second : Shown) → IsTrue (is_of_disk d m a) → m ≢ n → StandsDown d past n number first second →
        StandsDown d (a ∷ past) n number first second }
    ensures up_event { (d : DocumentData) (past acts : List Act) (m n : NodeId) (more number : ℕ) (s : Seats) →
        IsDiskEvent d past acts m more → m ≢ n → StandsUp d past n number s → StandsUp d (after past acts) n number s }
    ensures down_event { (d : DocumentData) (past acts : List Act) (m n : NodeId) (more number : ℕ)
        (first second : Shown) → IsDiskEvent d past acts m more → m ≢ n → StandsDown d past n number first second →
        StandsDown d (after past acts) n number first second }
    ensures up_behind { (d : DocumentData) (past acts : List Act) (n : NodeId) (more number : ℕ) (s : Seats)
        (is : IsDiskEvent d past acts n more) → StandsUp d (is.turn ∷ after past is.front) n number s →
        StandsUp d (after past acts) n number s }
    ensures down_behind { (d : DocumentData) (past acts : List Act) (n : NodeId) (more number : ℕ)
        (first second : Shown) (is : IsDiskEvent d past acts n more) →
        StandsDown d (is.turn ∷ after past is.front) n number first second →
        StandsDown d (after past acts) n number first second }
{}
