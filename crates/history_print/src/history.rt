//! The text of a whole history.
ghost use Rattle.std.specs.Prelude.{◌≡◌, ◌++◌, take, length, vec_len, OnOk, OnErr};
ghost use Rattle.std.specs.List.{flat_map};
ghost use Rattle.history_print.specs.Acts.{act_line};
ghost use Rattle.history_print.specs.Text.{summary_text, text};

use crate::acts::write_act;
use crate::summary::write_summary;
use grid_model::{Act, Document};
use score_base::Memory;

/// Appends the lines of these acts. After [`Memory`] `out` is as before.
fn write_acts(acts: &[Act], out: &mut Vec<u8>) -> Result<(), Memory>
    ensures ok { OnOk result (out.new.items ≡ out.old.items ++ flat_map act_line acts.now) }
    ensures err { OnErr result (out.new.items ≡ out.old.items) }
{
    let len = out.len();
    for act in acts {
        match write_act(act, out) {
            Ok(()) => {}
            Err(e) => {
                out.truncate(len);
                return Err(e);
            }
        }
    }
    Ok(())
}

/// Appends the text of a run with these acts: their lines and the summary. After [`Memory`] `out` is as
/// before.
pub fn write_history(doc: &Document, acts: &[Act], out: &mut Vec<u8>) -> Result<(), Memory>
    ensures ok { OnOk result (out.new.items ≡ out.old.items ++ text acts.now doc.now) }
    ensures err { OnErr result (out.new.items ≡ out.old.items) }
{
    let len = out.len();
    write_acts(acts, out)?;
    match write_summary(doc, acts, out) {
        Ok(()) => Ok(()),
        Err(e) => {
            out.truncate(len);
            Err(e)
        }
    }
}
