//! The law of the messages sent.
ghost use Rattle.std.specs.Prelude.{◌≡◌, ℕ, true, List, [], ◌∷◌};
ghost use Rattle.std.specs.List.{list_all};
ghost use Rattle.grid_model.specs.declared.acts.Act.{Act};
ghost use Rattle.grid_model.specs.declared.events.Out.{Out};
ghost use Rattle.grid_model.specs.Documents.{DocumentData};
ghost use Rattle.grid_model.specs.Histories.{after, sent};
ghost use Rattle.grid_model.specs.Schedules.{numbered, next_number, next_left, left_in};
ghost use Rattle.grid_model.specs.States.{state_of};
ghost use Rattle.node_core.specs.Links.{posts};
ghost use Rattle.sent_list.specs.SentLists.{SentData, SentStart, SentStep, ShowsSent, least_left, with_sent, takes_sent, sends_or_silent};

/// The list tells what the acts tell of messages: it does at the start; behind an act that takes away no
/// message but one that was sent; and behind the acts of a node's outs, where these messages are sent. The
/// least-numbered message that it has left is that of the acts.
pub fn law_sent()
    ensures start { ShowsSent SentStart [] }
    ensures step { (x : SentData) (past : List Act) (a : Act) →
        ShowsSent x past → takes_sent (sent past) a ≡ true → ShowsSent (SentStep a x) (a ∷ past) }
    ensures outs { (x : SentData) (past : List Act) (n : ℕ) (os : List Out) →
        ShowsSent x past → list_all sends_or_silent os ≡ true →
        ShowsSent (with_sent (posts n os) x) (after past (numbered (next_number past) n os)) }
    ensures left { (d : DocumentData) (x : SentData) (past : List Act) →
        ShowsSent x past → least_left x ≡ left_in (state_of d past) }
{}
