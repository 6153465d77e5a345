//! Laws: each turn of a desk is the row of its event on the view whose desk it is, what comes to no desk leaves it,
//! and every event keeps the desk in order.

ghost use Rattle.std.specs.Prelude.{◌≡◌, ℕ, nat_eq, not, List, [], is_some, true, false, None};
ghost use Rattle.std.specs.List.{IsDistinct};
ghost use Rattle.std.specs.Map.{keys_of};
ghost use Rattle.score_base.specs.declared.causes.Ballot.{Ballot};
ghost use Rattle.script_lang.specs.Scripts.{ScriptData};
ghost use Rattle.score_base.specs.declared.records.Record.{Record};
ghost use Rattle.placement.specs.Clusters.{ClusterData};
ghost use Rattle.grid_model.specs.declared.acts.Act.{Act};
ghost use Rattle.grid_model.specs.declared.events.Event.{Event};
ghost use Rattle.grid_model.specs.declared.events.Out.{Out};
ghost use Rattle.grid_model.specs.declared.messages.Message.{Message};
ghost use Rattle.grid_model.specs.declared.events.Event.TheVariants as event;
ghost use Rattle.grid_model.specs.declared.messages.Message.TheVariants as message;
ghost use Rattle.grid_model.specs.declared.messages.ReadRep.{ReadRep};
ghost use Rattle.grid_model.specs.Documents.{DocumentData};
ghost use Rattle.grid_model.specs.Fitness.{is_fit, is_fit_begin, is_fit_reply, is_part_at, is_same_ident};
ghost use Rattle.grid_model.specs.Rows.{first_ident, outs_of};
ghost use Rattle.grid_model.specs.NextViews.{next_view};
ghost use Rattle.grid_model.specs.Views.{View, participant, stage, view, is_apart};
ghost use Rattle.presumed_abort.specs.declared.stands.Stand.{Stand};
ghost use Rattle.presumed_abort.specs.declared.stands.Stand.TheVariants as stand;
ghost use Rattle.presumed_abort.specs.Stands.{standing, is_here};
ghost use Rattle.presumed_abort.specs.Turns.{Change, Keeps, Makes, changed, vote_turn, ack_turn};
ghost use Rattle.presumed_abort.specs.Replies.{begin_turn, reply_turn};
ghost use Rattle.presumed_abort.specs.Replays.{decided_desk, snapshot_of, is_stranger};
ghost use Rattle.presumed_abort.specs.Retries.{retry_turn, sent_again, told_of};
ghost use Rattle.presumed_abort.specs.Views.{AreApart, IsDeskOf, IsRow, OwnNumbers, is_at_desk, opened_view};

/// A fit vote.
pub fn law_vote_row()
    ensures { (n : ℕ) (v : View) (desk : List (ℕ × Stand)) (x t : ℕ) (b : Ballot)
        → IsDistinct nat_eq (keys_of desk) → IsDeskOf v desk → is_fit n v x (message.Vote t b) ≡ true
        → IsRow n v desk (event.Deliver x (message.Vote t b)) t (vote_turn x b (standing desk t)) }
{}

/// A fit acknowledgement, where no decided transaction is open besides.
pub fn law_ack_row()
    ensures { (n : ℕ) (v : View) (desk : List (ℕ × Stand)) (x t : ℕ)
        → IsDistinct nat_eq (keys_of desk) → IsDeskOf v desk → AreApart v → is_fit n v x (message.Ack t) ≡ true
        → IsRow n v desk (event.Deliver x (message.Ack t)) t (ack_turn x (standing desk t)) }
{}

/// A fit read reply, where each open transaction has its own number.
pub fn law_reply_row()
    ensures { (n : ℕ) (v : View) (desk : List (ℕ × Stand)) (x : ℕ) (q : ReadRep)
        → IsDistinct nat_eq (keys_of desk) → IsDeskOf v desk → OwnNumbers v → is_fit n v x (message.ReadRep q) ≡ true
        → IsRow n v desk (event.Deliver x (message.ReadRep q)) q.t (reply_turn v.cluster q (standing desk q.t)) }
{}

/// A fit begin: of a transaction that is not at the desk.
pub fn law_begin_row()
    ensures { (n : ℕ) (v : View) (desk : List (ℕ × Stand)) (s : ScriptData) (floor : ℕ)
        → IsDistinct nat_eq (keys_of desk) → IsDeskOf v desk → is_fit_begin n v s floor ≡ true
        → IsRow n v desk (event.Begin s floor) s.number
        (begin_turn v.cluster s (first_ident (participant v) floor)) }
{}

/// A question, where it is fit.
pub fn law_ask_row()
    ensures { (n : ℕ) (v : View) (desk : List (ℕ × Stand)) (x t : ℕ)
        → IsDistinct nat_eq (keys_of desk) → IsDeskOf v desk → is_fit n v x (message.Ask t) ≡ true
        → IsRow n v desk (event.Deliver x (message.Ask t)) t (sent_again (told_of t x (standing desk t))) }
{}

/// A retry, where each open transaction has its own number.
pub fn law_retry_row()
    ensures { (n : ℕ) (v : View) (desk : List (ℕ × Stand)) (t : ℕ)
        → IsDistinct nat_eq (keys_of desk) → IsDeskOf v desk → OwnNumbers v
        → IsRow n v desk (event.Retry t) t (retry_turn v.cluster (standing desk t)) }
{}

/// An event that comes to no desk leaves the desk as it is: what a participant answers, its questions, and a
/// journal that is made small.
pub fn law_other_row()
    ensures { (n : ℕ) (v : View) (desk : List (ℕ × Stand)) (e : Event)
        → is_at_desk e ≡ false → IsDeskOf v desk → IsDeskOf (next_view n v e (outs_of n v e)) desk }
{}

/// A message and a begin that are not fit give nothing and leave the view as it is, and with it the desk.
pub fn law_unfit_row()
    ensures outs { (n : ℕ) (v : View) (x : ℕ) (said : Message)
        → is_fit n v x said ≡ false → outs_of n v (event.Deliver x said) ≡ [] }
    ensures view { (n : ℕ) (v : View) (x : ℕ) (said : Message)
        → is_fit n v x said ≡ false → next_view n v (event.Deliver x said) (outs_of n v (event.Deliver x said)) ≡ v }
    ensures begin_outs { (n : ℕ) (v : View) (s : ScriptData) (floor : ℕ)
        → is_fit_begin n v s floor ≡ false → outs_of n v (event.Begin s floor) ≡ [] }
    ensures begin_view { (n : ℕ) (v : View) (s : ScriptData) (floor : ℕ)
        → is_fit_begin n v s floor ≡ false
        → next_view n v (event.Begin s floor) (outs_of n v (event.Begin s floor)) ≡ v }
{}

/// What the rows ask of a view and of its desk stays so behind every event: no decided transaction is open
/// besides, each open one has its own number, and no number stands twice at the desk.
pub fn law_kept()
    ensures apart { (n : ℕ) (v : View) (e : Event) (outs : List Out)
        → AreApart v → AreApart (next_view n v e outs) }
    ensures own { (n : ℕ) (v : View) (e : Event)
        → OwnNumbers v → OwnNumbers (next_view n v e (outs_of n v e)) }
    ensures unique { (t : ℕ) (x : Change) (desk : List (ℕ × Stand))
        → IsDistinct nat_eq (keys_of desk) → IsDistinct nat_eq (keys_of (changed t x desk)) }
{}

/// The readers answer what fitness asks: whether the sender is a part, whether a reply has the snapshot, whether
/// a number is free for a begin; and where it is free it does not stand at the desk.
pub fn law_fit()
    ensures part { (v : View) (desk : List (ℕ × Stand)) (t x : ℕ)
        → IsDeskOf v desk → is_part_at v.cluster (stage v t) x ≡ not (is_stranger x (standing desk t)) }
    ensures reply { (v : View) (desk : List (ℕ × Stand)) (q : ReadRep)
        → IsDeskOf v desk
        → is_fit_reply q (stage v q.t) ≡ is_same_ident q.sid (snapshot_of q.op (standing desk q.t)) }
    ensures begin { (v : View) (desk : List (ℕ × Stand)) (t : ℕ)
        → IsDeskOf v desk → is_apart (stage v t) ≡ not (is_here (standing desk t)) }
    ensures free { (v : View) (desk : List (ℕ × Stand)) (t : ℕ)
        → IsDeskOf v desk → is_here (standing desk t) ≡ false → standing desk t ≡ None }
{}

/// A desk that a journal leaves is that of a view in which nothing is open and nothing acknowledged.
pub fn law_replay()
    ensures { (v : View)
        → ((t : ℕ) → v.desk t ≡ None) → ((t : ℕ) → v.acks t ≡ []) → IsDeskOf v (decided_desk v.journal) }
{}

/// A node that has just been opened has the desk that its journal leaves, and all that the rows ask of it.
pub fn law_opened()
    ensures desk { (c : ClusterData) (r : List Record) → IsDeskOf (opened_view c r) (decided_desk r) }
    ensures apart { (c : ClusterData) (r : List Record) → AreApart (opened_view c r) }
    ensures own { (c : ClusterData) (r : List Record) → OwnNumbers (opened_view c r) }
    ensures unique { (r : List Record) → IsDistinct nat_eq (keys_of (decided_desk r)) }
{}

/// In the view behind any history each open transaction has its own number.
pub fn law_own_numbers()
    ensures { (d : DocumentData) (past : List Act) (n : ℕ) → OwnNumbers (view d past n) }
{}

/// In the view behind any history no decided transaction is open besides.
pub fn law_apart()
    ensures { (d : DocumentData) (past : List Act) (n : ℕ) → AreApart (view d past n) }
{}

/// What is due makes its change though its transaction was taken away: nothing else is left of that.
pub fn law_release()
    ensures { (t : ℕ) (x : Change) (desk : List (ℕ × Stand))
        → Makes x → is_some (standing desk t) ≡ true
        → changed t x (changed t (Keeps stand.Away) desk) ≡ changed t x desk }
{}
