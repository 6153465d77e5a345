//! Laws of every run: of all rows and all free choices of the disks, stops and restarts included.
ghost use Rattle.std.specs.Prelude.{◌≡◌, ℕ, IsTrue, List, [], sum_by};
ghost use Rattle.grid_model.specs.declared.acts.Act.{Act};
ghost use Rattle.grid_model.specs.declared.items.Item.{Item};
ghost use Rattle.grid_model.specs.Documents.{DocumentData, IsOne, events_of};
ghost use Rattle.grid_model.specs.Histories.{after};
ghost use Rattle.grid_model.specs.Nodes.{journal};
ghost use Rattle.grid_model.specs.Disks.{disklog};
ghost use Rattle.journal_words.specs.Journals.{all_fit};
ghost use Rattle.journal_words.specs.Small.{AreAlike};
ghost use Rattle.grid_model.specs.Runs.{IsRun, Lawful};
ghost use Rattle.grid_model.specs.Facts.{
  AbortsFinal,
  BeginsFit,
  DecisionsRest,
  DeliveredFit,
  Facts,
  IdentifiersBelow,
  LocksExclude,
  MessagesBacked,
  NeverHeldBelow,
  PreparesAgree,
  RecordsFit,
  ServedPromised,
  UpSettled,
};
ghost use Rattle.grid_model.specs.NextViews.{OwnDecisions};
ghost use Rattle.grid_laws.specs.CalmRuns.{AreUnfused, calm_run};

/// Each record of each journal, and the record in doubt behind them, fits those before it; and a node that
/// is up has no record in doubt.
pub fn law_records_fit()
    ensures fit { (d : DocumentData) (h : List Act) → IsRun d d.items h → RecordsFit d (after [] h) }
    ensures settled { (d : DocumentData) (h : List Act) → IsRun d d.items h → UpSettled d (after [] h) }
{}

/// Transactions that lock a key at one node do not conflict there.
pub fn law_locks_exclude()
    ensures { (d : DocumentData) (h : List Act) → IsRun d d.items h → LocksExclude d (after [] h) }
{}

/// Each vote, commit, acknowledgement and read reply that was sent is backed by a record or an act.
pub fn law_messages_backed()
    ensures { (d : DocumentData) (h : List Act) → IsRun d d.items h → MessagesBacked d (after [] h) }
{}

/// The disk list of each node and its journal are alike, so no word of a node tells them apart, and each
/// record of the disk list fits those before it.
pub fn law_disk_lists()
    ensures alike { (d : DocumentData) (h : List Act) → IsRun d d.items h → (n : ℕ) →
        AreAlike (disklog d (after [] h) n) (journal d (after [] h) n) }
    ensures fit { (d : DocumentData) (h : List Act) → IsRun d d.items h → (n : ℕ) →
        IsTrue (all_fit d.cluster n (disklog d (after [] h) n)) }
{}

/// Each read that was served is promised: its node's floor covers it, nothing pending there is at most
/// its identifier, and each later proposal of the node is above it.
pub fn law_served_promised()
    ensures { (d : DocumentData) (h : List Act) → IsRun d d.items h → ServedPromised d (after [] h) }
{}

/// A read at or below the commit identifier of its node is never held.
pub fn law_never_held()
    ensures { (d : DocumentData) (h : List Act) → IsRun d d.items h → NeverHeldBelow d (after [] h) }
{}

/// A decision rests on every part: each has its Prepared, the final identifier is the greatest of the
/// proposals, and it is above the snapshot identifier.
pub fn law_decisions_rest()
    ensures { (d : DocumentData) (h : List Act) → IsRun d d.items h → DecisionsRest d (after [] h) }
{}

/// All Prepares of a transaction to one node come from one node and say the same.
pub fn law_prepares_agree()
    ensures { (d : DocumentData) (h : List Act) → IsRun d d.items h → PreparesAgree (after [] h) }
{}

/// A transaction of which an abort was told is given up, or every part has ended it with commit.
pub fn law_aborts_final()
    ensures { (d : DocumentData) (h : List Act) → IsRun d d.items h → AbortsFinal d (after [] h) }
{}

/// After e events no act names an identifier above 64 e.
pub fn law_identifiers()
    ensures { (d : DocumentData) (h : List Act) → IsRun d d.items h
        → IdentifiersBelow (sum_by events_of d.items) (after [] h) }
{}

/// Each message that a run delivers is fit where it is got.
pub fn law_fit()
    ensures { (d : DocumentData) (h : List Act) → IsOne d → IsRun d d.items h → DeliveredFit d h }
{}

/// Each transaction that begins in a run is fit to begin: its home is the node, the floor of its session is
/// below 2^22, and its number is not at the desk there.
pub fn law_begun_fit()
    ensures { (d : DocumentData) (h : List Act) → IsOne d → IsRun d d.items h → BeginsFit d (after [] h) }
{}

/// Behind each run, whatever its items, the standing decisions in the journal of a node are of
/// transactions of that node that began and were not lost. So each message that is delivered behind a run
/// may come to its node as `law_next_view` of `grid_model` asks it.
pub fn law_own_decisions()
    ensures { (d : DocumentData) (items : List Item) (h : List Act) → IsRun d items h → (n : ℕ)
        → OwnDecisions d (after [] h) n }
{}

/// The facts on which one copy rests hold of every run, stops and restarts included.
pub fn law_facts()
    ensures { (d : DocumentData) (h : List Act) → IsRun d d.items h → Facts d h }
{}

/// The calm run of a document is a run, and a lawful one without a fault where its schedule sets no fuse.
pub fn law_calm_run()
    ensures run { (d : DocumentData) → IsRun d d.items (calm_run d) }
    ensures lawful { (d : DocumentData) → AreUnfused d.items → Lawful d (calm_run d) (λ n. 0) }
{}

/// A document whose schedule sets no fuse has exactly one lawful run in which no disk fails.
pub fn law_one_history()
    ensures some { (d : DocumentData) → AreUnfused d.items → (h : List Act) × Lawful d h (λ n. 0) }
    ensures one { (d : DocumentData) (h h' : List Act) → AreUnfused d.items → Lawful d h (λ n. 0) → Lawful d h' (λ n. 0)
        → h ≡ h' }
{}
