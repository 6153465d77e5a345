//! An end that is fit can be learnt, and behind its row a participant is what its store shows.

ghost use Rattle.std.specs.Prelude.{◌≡◌, true, List};
ghost use Rattle.score_base.specs.declared.ids.NodeId.{NodeId};
ghost use Rattle.score_base.specs.declared.ids.TxId.{TxId};
ghost use Rattle.score_base.specs.declared.causes.Outcome.{Outcome};
ghost use Rattle.score_base.specs.declared.records.Record.{Record};
ghost use Rattle.score_base.specs.declared.records.Record.TheVariants as record';
ghost use Rattle.placement.specs.Clusters.{ClusterData};
ghost use Rattle.journal_words.specs.Journals.{all_fit};
ghost use Rattle.journal_records.specs.Records.{CanEncode};
ghost use Rattle.grid_model.specs.declared.events.Event.TheVariants as event;
ghost use Rattle.grid_model.specs.declared.messages.Message.TheVariants as message;
ghost use Rattle.grid_model.specs.Fitness.{is_fit_at};
ghost use Rattle.grid_model.specs.Views.{View, Stage, participant};
ghost use Rattle.grid_model.specs.NextViews.{next_view};
ghost use Rattle.grid_store.specs.Given.{Given};
ghost use Rattle.ordered_commit.specs.declared.dues.EndDue.{EndDue};
ghost use Rattle.ordered_commit.specs.declared.learning.Learnt.{Learnt};
ghost use Rattle.ordered_commit.specs.Ends.{ack_of, repeat_of, record_in, learn_outs, CanLearn, IsDue, IsOf, IfDue};
ghost use Rattle.journal_words.specs.Participants.{admitted};
ghost use Rattle.grid_store.specs.Given.{participant_in};

/// An end that is fit at the node of a store can be learnt, and its record can be encoded. The record that
/// is handed out with an end is the one on which it is due. Behind the
/// outs of an answer the next view has the record that was due in front of its journal, and its clock
/// knows it. Where each record fits those before it, no transaction that ended is pending, and so a commit
/// is acknowledged once more exactly where the transaction ended with commit.
pub fn law_end()
    ensures fit { (s : Given) (stage : Stage) (x : NodeId) (t : TxId) (o : Outcome) →
        is_fit_at s.node (participant_in s) stage x (message.Tell t o) ≡ true → CanLearn s t o }
    ensures encodes { (t : TxId) (o : Outcome) → CanEncode (record'.Ended t o) }
    ensures of { (s : Given) (t : TxId) (o : Outcome) (due : EndDue) (rec : Record) →
        IsDue s t o due rec → IsOf due rec }
    ensures view { (n : NodeId) (v : View) (x : NodeId) (t : TxId) (o : Outcome) (l : Learnt) →
        IfDue l (λ due rec. rec ≡ record'.Ended t o) →
        participant (next_view n v (event.Deliver x (message.Tell t o)) (learn_outs n t o l))
        ≡ admitted (record_in l) (participant v) }
    ensures ack { (c : ClusterData) (n : NodeId) (t : TxId) (o : Outcome) (r : List Record) →
        all_fit c n r ≡ true → ack_of t o r ≡ repeat_of t o r }
{}
