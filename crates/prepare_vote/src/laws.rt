//! A Prepare that is fit can be judged, and behind its row a participant is what its store shows.

ghost use Rattle.std.specs.Prelude.{◌≡◌, true, List};
ghost use Rattle.score_base.specs.declared.ids.NodeId.{NodeId};
ghost use Rattle.score_base.specs.declared.ids.TxId.{TxId};
ghost use Rattle.score_base.specs.declared.ids.Ident.{Ident};
ghost use Rattle.score_base.specs.declared.records.Record.{Record};
ghost use Rattle.placement.specs.Clusters.{ClusterData};
ghost use Rattle.journal_words.specs.Journals.{pending, all_fit};
ghost use Rattle.journal_records.specs.Records.{CanEncode};
ghost use Rattle.grid_model.specs.declared.events.Event.TheVariants as event;
ghost use Rattle.grid_model.specs.declared.messages.Message.TheVariants as message;
ghost use Rattle.grid_model.specs.declared.messages.Prepare.{Prepare};
ghost use Rattle.grid_model.specs.Fitness.{is_fit_at};
ghost use Rattle.grid_model.specs.Views.{View, Stage, participant};
ghost use Rattle.grid_model.specs.NextViews.{next_view};
ghost use Rattle.grid_store.specs.Given.{Given};
ghost use Rattle.prepare_vote.specs.declared.dues.Due.{Due};
ghost use Rattle.prepare_vote.specs.declared.judges.Judged.{Judged};
ghost use Rattle.prepare_vote.specs.Votes.{again_of, record_in, judge_outs, vote_record, CanJudge, IsDue, IsOf, IfYes};
ghost use Rattle.journal_words.specs.Participants.{admitted};
ghost use Rattle.grid_store.specs.Given.{participant_in};

/// A Prepare that is fit at the node of a store can be judged, and the record of a yes on it can be
/// encoded. The record that is handed out with a yes is the one on which it is due. Behind the outs of an answer the next view has the record that was due in front of its
/// journal, and its clock knows it. Where each record fits those before it, no transaction that ended is
/// pending, and so a yes is given again exactly where the transaction is pending.
pub fn law_prepare()
    ensures fit { (s : Given) (stage : Stage) (x : NodeId) (q : Prepare) →
        is_fit_at s.node (participant_in s) stage x (message.Prepare q) ≡ true → CanJudge s q }
    ensures encodes { (s : Given) (stage : Stage) (x : NodeId) (q : Prepare) (p : Ident) →
        is_fit_at s.node (participant_in s) stage x (message.Prepare q) ≡ true → CanEncode (vote_record x q p) }
    ensures of { (s : Given) (x : NodeId) (q : Prepare) (due : Due) (rec : Record) →
        IsDue s x q due rec → IsOf due rec }
    ensures view { (n : NodeId) (v : View) (x : NodeId) (q : Prepare) (j : Judged) →
        IfYes j (λ due rec. (due.home ≡ x) × (rec ≡ vote_record x q due.p)) →
        participant (next_view n v (event.Deliver x (message.Prepare q)) (judge_outs n x q.t j))
        ≡ admitted (record_in j) (participant v) }
    ensures again { (c : ClusterData) (n : NodeId) (t : TxId) (r : List Record) →
        all_fit c n r ≡ true → again_of t r ≡ pending t r }
{}
