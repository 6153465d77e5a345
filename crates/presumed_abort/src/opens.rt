//! A transaction that is reading or collecting.

ghost use Rattle.std.specs.Prelude.{◌≡◌, IfOk};
ghost use Rattle.grid_model.specs.Stories.{at_begin, with_value};

use grid_model::Progress;
use score_base::{Ident, Members, Memory, TryCopy, Value};
use script_lang::Script;
use std::alloc::Global;
use std::marker::Model;

/// A transaction that is reading or collecting: its script, and how far it came since it began.
#[derive(Drop)]
pub struct Open {
    pub(crate) script: Script,
    pub(crate) progress: Progress,
}

impl Model for Open {
    ghost use Rattle.grid_model.specs.Views.{Open};

    ghost Value = { Open };

    ghost view = { λ x. record { script = x.script; progress = x.progress } };
}

/// The same, lent.
#[derive(Drop)]
pub(crate) struct OpenRef<'a> {
    pub(crate) script: &'a Script,
    pub(crate) progress: &'a Progress,
}

impl<'a> Model for OpenRef<'a> {
    ghost use Rattle.grid_model.specs.Views.{Open};

    ghost Value = { Open };

    ghost view = { λ x. record { script = x.script.now; progress = x.progress.now } };
}

impl Open {
    /// Lends it.
    pub(crate) fn lend(&self) -> OpenRef<'_>
        ensures { result ≡ self.now }
    {
        OpenRef {
            script: &self.script,
            progress: &self.progress,
        }
    }
}

/// How far a transaction came that begins at this identifier.
pub(crate) fn at_begin(alloc: Global, sid0: Ident) -> Progress
    ensures { result ≡ at_begin sid0 }
{
    Progress {
        sid0,
        turn: 0,
        sid: None,
        values: Members::new(alloc),
        votes: Members::new(alloc),
    }
}

/// How far a transaction came that takes this reply; the first one fixes its snapshot.
pub(crate) fn with_reply(
    progress: &Progress,
    op: u8,
    sid: Ident,
    value: Value,
) -> Result<Progress, Memory>
    ensures { IfOk result (λ x. x ≡ with_value op sid value progress.now) }
{
    let snapshot = match progress.sid {
        None => sid,
        Some(first) => first,
    };
    let mut values = progress.values.copy()?;
    values.push((op, value))?;
    Ok(Progress {
        sid0: progress.sid0,
        turn: 0,
        sid: Some(snapshot),
        values,
        votes: progress.votes.copy()?,
    })
}
