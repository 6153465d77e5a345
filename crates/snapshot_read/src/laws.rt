//! The calls of a read give the rows of the model, and leave what its next view has.

ghost use Rattle.std.specs.Prelude.{◌≡◌, max, false, List, Option, Some, None};
ghost use Rattle.std.specs.List.{flat_map};
ghost use Rattle.score_base.specs.declared.ids.NodeId.{NodeId};
ghost use Rattle.score_base.specs.declared.ids.TxId.{TxId};
ghost use Rattle.script_lang.specs.Scripts.{ScriptData};
ghost use Rattle.journal_words.specs.Journals.{commit_id};
ghost use Rattle.grid_model.specs.declared.events.Event.TheVariants as event;
ghost use Rattle.grid_model.specs.declared.messages.Envelope.{Envelope};
ghost use Rattle.grid_model.specs.declared.messages.Message.TheVariants as message;
ghost use Rattle.grid_model.specs.declared.messages.ReadReq.{ReadReq};
ghost use Rattle.grid_model.specs.declared.stories.HeldRead.{HeldRead};
ghost use Rattle.grid_model.specs.NextViews.{behind_all, next_view};
ghost use Rattle.grid_model.specs.Nodes.{is_request, said_by, written};
ghost use Rattle.grid_model.specs.Rows.{dated, read_outs, release};
ghost use Rattle.grid_model.specs.Views.{Open, View};
ghost use Rattle.grid_store.specs.Given.{Given};
ghost use Rattle.snapshot_read.specs.declared.answers.Answer.{Answer};
ghost use Rattle.snapshot_read.specs.Calls.{held_with};
ghost use Rattle.snapshot_read.specs.Outs.{arrived_outs, serve_outs, Releases};
ghost use Rattle.snapshot_read.specs.Reads.{read_at, arrival, served_or_held};
ghost use Rattle.grid_store.specs.Given.{participant_in};
ghost use Rattle.snapshot_read.specs.Views.{view_with, due_for};

/// The outs of an arriving read, where a ceiling that is due is kept and then the read answered, are
/// the row of its request.
pub fn law_read()
    ensures { (s : Given) (x : NodeId) (q : ReadReq) → let h = read_at s x q in
        arrived_outs s.node q.t q.op (arrival s h) (served_or_held s h)
        ≡ read_outs s.node (participant_in s) x q (dated q.date (commit_id s.journal)) }
{}

/// Behind the row of a read request the next view has the records, the clock and the held reads that
/// the calls leave.
pub fn law_read_view()
    ensures journal { (s : Given) (x : NodeId) (q : ReadReq) (hs : List HeldRead)
        (desk : TxId → Option Open) (acks : TxId → List NodeId) → let h = read_at s x q in
        (next_view s.node (view_with s hs desk acks) (event.Deliver x (message.ReadReq q))
        (read_outs s.node (participant_in s) x q h.sid)).journal ≡ written (due_for s h) s.journal }
    ensures next { (s : Given) (x : NodeId) (q : ReadReq) (hs : List HeldRead)
        (desk : TxId → Option Open) (acks : TxId → List NodeId) → let h = read_at s x q in
        (next_view s.node (view_with s hs desk acks) (event.Deliver x (message.ReadReq q))
        (read_outs s.node (participant_in s) x q h.sid)).next ≡ max s.next h.sid }
    ensures held { (s : Given) (x : NodeId) (q : ReadReq) (hs : List HeldRead)
        (desk : TxId → Option Open) (acks : TxId → List NodeId) → let h = read_at s x q in
        (next_view s.node (view_with s hs desk acks) (event.Deliver x (message.ReadReq q))
        (read_outs s.node (participant_in s) x q h.sid)).held ≡ held_with (served_or_held s h) h hs }
{}

/// What `release`, called until it answers `None`, answers gives the outs of the model's release, and
/// it leaves the held reads that the next view has behind a message that is no read request.
pub fn law_release()
    ensures row { (s : Given) (n : NodeId) (hs left : List HeldRead) (answers : List Answer) →
        Releases s hs answers left → flat_map (serve_outs n) answers ≡ release s.cluster s.journal n hs }
    ensures held { (s : Given) (n : NodeId) (hs left : List HeldRead) (answers : List Answer)
        (e : Option Envelope) (o : Option ScriptData) (v : View) →
        Releases s hs answers left → is_request (said_by e) ≡ false → v.held ≡ hs →
        (behind_all e o v (release s.cluster s.journal n hs)).held ≡ left }
{}
