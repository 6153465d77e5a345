//! Laws of every run: what stands behind its messages, records, decisions and promises.
//!
//! Each law is a public function without parameters and with an empty body, whose contract is the
//! law: it speaks of every document and of every history of the rows and the free choices of the
//! disks, stops and restarts included, with no fuse and no count of faults. The facts themselves are
//! defined in `grid_model/specs/Facts.antt`; [`law_facts`] binds seven of them together, and
//! [`law_fit`], [`law_begun_fit`], [`law_own_decisions`] and [`law_identifiers`] stand beside it.
//! [`law_records_fit`] is what the others rest on: whatever a disk leaves at a stop, each journal is
//! a list in which every record fits those before it. What the laws say of records they say of the
//! journal, and of the journal with the record in doubt behind it. [`law_calm_run`] and
//! [`law_one_history`] speak of the run in which no disk fails, `calm_run` of `specs/CalmRuns.antt`.
//! The laws of `cuts.rt` speak of documents that are cut behind an event (`specs/Cuts.antt` of `grid_model`) and of
//! their runs, of which every law of runs holds as of any document's.
#![tactic(auto)]

mod cuts;
mod runs;

pub use cuts::{law_cut_document, law_cut_fronts, law_cut_lawful, law_cut_runs, law_run_rows};
pub use runs::{
    law_aborts_final, law_begun_fit, law_calm_run, law_decisions_rest, law_disk_lists, law_facts,
    law_fit, law_identifiers, law_locks_exclude, law_messages_backed, law_never_held,
    law_one_history, law_own_decisions, law_prepares_agree, law_records_fit, law_served_promised,
};
