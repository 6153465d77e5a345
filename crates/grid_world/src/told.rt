//! The acts of an event are told to the tally.
ghost use Rattle.std.specs.Prelude.{◌≡◌, ◌∷◌, [], IfOk, OnOk, length, nat_lt};
ghost use Rattle.grid_model.specs.Voids.{voided};
ghost use Rattle.run_tally.specs.Tallies.{tally_after};
ghost use Rattle.grid_world.specs.Worlds.{HasTold};

use crate::worlds::World;
use grid_model::{Act, Document, Void};
use run_tally::Tally;
use score_base::{Memory, push};
use score_disk::{CrashDisk, Disk, Fused};
use std::alloc::Global;

/// A list of one act.
pub fn only(alloc: Global, act: Act) -> Result<Vec<Act>, Memory>
    ensures { IfOk result (λ acts. acts.items ≡ act ∷ []) }
{
    let mut acts = Vec::new(alloc);
    push(&mut acts, act)?;
    Ok(acts)
}

/// A tally takes these acts.
fn take_all(tally: &mut Tally, doc: &Document, acts: &[Act]) -> Result<(), Memory>
    ensures { OnOk result (tally.new ≡ tally_after doc.now tally.old acts.now) }
{
    for act in acts {
        tally.take(doc, act)?;
    }
    Ok(())
}

/// Whether there is an act.
pub fn has_any(acts: &[Act]) -> bool
    ensures { result ≡ nat_lt 0 (length acts.now) }
{
    !acts.is_empty()
}

impl<D: CrashDisk> World<Fused<D>> {
    /// The tally takes these acts.
    pub(crate) fn tell(&mut self, doc: &Document, acts: &[Act]) -> Result<(), Memory>
        ensures { OnOk result (HasTold doc.now acts.now self.old self.new) }
    {
        take_all(&mut self.tally, doc, acts)
    }

    /// One act, which the tally takes.
    pub(crate) fn told(
        &mut self,
        alloc: Global,
        doc: &Document,
        act: Act,
    ) -> Result<Vec<Act>, Memory>
        ensures told { OnOk result (HasTold doc.now (act ∷ []) self.old self.new) }
        ensures acts { IfOk result (λ acts. acts.items ≡ act ∷ []) }
    {
        let acts = only(alloc, act)?;
        self.tell(doc, acts.as_slice())?;
        Ok(acts)
    }

    /// An event that changes nothing.
    pub(crate) fn voided(
        &mut self,
        alloc: Global,
        doc: &Document,
        why: Void,
    ) -> Result<Vec<Act>, Memory>
        ensures told { OnOk result (HasTold doc.now (voided why) self.old self.new) }
        ensures acts { IfOk result (λ acts. acts.items ≡ voided why) }
    {
        self.told(alloc, doc, Act::Void(why.code()))
    }
}
