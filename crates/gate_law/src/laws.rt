//! Laws of these definitions, for those who reason about runs.

ghost use Rattle.std.specs.Prelude.{◌≡◌, ◌≤◌, ◌==◌, ◌⊎◌, ℕ, Bool, List, Result, true, false, [], ◌∷◌, Some, is_some};
ghost use Rattle.std.specs.Prelude.{length, if◌then◌else◌};
ghost use Rattle.std.specs.List.{flat_map};
ghost use Rattle.soup_session.specs.States.{is_open};
ghost use Rattle.soup_session.specs.Table.{PortCall};
ghost use Rattle.gate_law.specs.Settings.{Settings, has_client, has_port, terms};
ghost use Rattle.gate_law.specs.Events.{Event, ClientUp, PortUp, Batch, Close, History, empty};
ghost use Rattle.gate_law.specs.Lists.{Lists, port_called_all};
ghost use Rattle.gate_law.specs.Sessions.{is_no_send, port_outs, port_state, sends, to_port};
ghost use Rattle.gate_law.specs.Outcome.{is_stepped, message_in};
ghost use Rattle.gate_law.specs.After.{lists_after, is_within_day, lists, order_turns};
ghost use Rattle.gate_law.specs.Due.{Gives};
ghost use Rattle.gate_law.specs.Promises.{Asks};
ghost use Rattle.gate_law.specs.Holds.{Holds, IsRun, told_by_batches};
ghost use Rattle.order_law.specs.Headline.{Headline, said_in};
ghost use Rattle.order_law.specs.History as history;
ghost use Rattle.order_law.specs.History.{Terms, Heard, OrderTurn};
ghost use Rattle.order_law.specs.Told.{told};
ghost use Rattle.gate_law.specs.Clients.{AreFrom};
ghost use Rattle.order_law.specs.ouch_codec.declared.outbound.Outbound.{Outbound};
ghost use Rattle.order_law.specs.ouch_codec.declared.refusal.DecodeRefusal.{DecodeRefusal};

/// An event of a number that the settings don't have, or of a link that isn't the current one, gives an empty batch and
/// changes nothing. It does nothing: its contract is the law.
pub fn other_events_change_nothing()
    ensures batch { (s : Settings) (e : Event) (b : Batch) (v : Lists) → is_stepped s e v ≡ false → Gives s e b v
        → b ≡ empty }
    ensures lists { (s : Settings) (e : Event) (v : Lists) → is_stepped s e v ≡ false → lists_after s e empty v ≡ v }
{}

/// A link that comes up beside a current one is closed, and nothing else; the current link's own number again is
/// nothing. It does nothing: its contract is the law.
pub fn second_links_are_closed()
    ensures clients { (s : Settings) (client link at current : ℕ) (b : Batch) (v : Lists) → has_client s client ≡ true
        → v.client_link client ≡ Some current → Gives s (ClientUp client link at) b v
        → b ≡ (if current == link then empty else record empty { client = Some client; client_out = Close link ∷ [] }) }
    ensures ports { (s : Settings) (p link at current : ℕ) (b : Batch) (v : Lists) → has_port s p ≡ true
        → v.port_link p ≡ Some current → Gives s (PortUp p link at) b v
        → b ≡ (if current == link then empty else record empty { port = Some p; port_out = Close link ∷ [] }) }
{}

/// Where each batch is the one that is given, what clients were told by the batches is what the order level's turns
/// tell them. It does nothing: its contract is the law.
pub fn runs_tell_what_is_told()
    ensures { (s : Settings) (h : History) → IsRun s h → (client : ℕ)
        → told_by_batches client h ≡ history.issued client (order_turns s h) }
{}

/// What is read off the packets that a port's session writes are the messages that it is sent, in order: where it is
/// sent messages alone, and where they follow another call. It does nothing: its contract is the law.
pub fn packets_have_the_messages_sent()
    ensures sends { (s : Settings) (p link at : ℕ) (before : List PortCall) (ms : List (List ℕ))
        → flat_map message_in (to_port (Some link) (port_outs s p before (sends at ms))) ≡ ms }
    ensures after { (s : Settings) (p link at : ℕ) (before : List PortCall) (c : PortCall) (ms : List (List ℕ))
        → is_no_send c ≡ true
        → flat_map message_in (to_port (Some link) (port_outs s p before (c ∷ sends at ms))) ≡ ms }
{}

/// The order level has no more turns than there were events. It does nothing: its contract is the law.
pub fn turns_are_no_more_than_events()
    ensures { (s : Settings) (h : History) → length (order_turns s h) ≤ length h }
{}

/// Where each message came from a client that passes a test, so does the client for whom a payload's bodies are;
/// where it tells none, they are for nobody. `none` and `some` say it of a turn that tells what is told. It does
/// nothing: its contract is the law.
pub fn payloads_are_told_to_clients_that_came()
    ensures either { (terms : List Terms) (is_ours : ℕ → Bool) (before : history.OrderHistory) (p : ℕ)
        (m : Result Outbound DecodeRefusal)
        → AreFrom (λ (client : ℕ). is_ours client ≡ true) before
        → (((told terms (Heard p m) before).bodies ≡ []) × ((told terms (Heard p m) before).client ≡ 0))
        ⊎ (is_ours (told terms (Heard p m) before).client ≡ true) }
    ensures none { (terms : List Terms) (before : history.OrderHistory) (p : ℕ) (m : Result Outbound DecodeRefusal)
        (t : OrderTurn)
        → told terms (Heard p m) before ≡ said_in t → t.bodies ≡ [] → t.client ≡ 0 }
    ensures some { (terms : List Terms) (is_ours : ℕ → Bool) (before : history.OrderHistory) (p : ℕ)
        (m : Result Outbound DecodeRefusal) (t : OrderTurn)
        → AreFrom (λ (client : ℕ). is_ours client ≡ true) before → told terms (Heard p m) before ≡ said_in t
        → (t.bodies ≡ [] → ⊥) → is_ours t.client ≡ true }
{}

/// Messages that are sent leave the port's state. It does nothing: its contract is the law.
pub fn sends_leave_the_state()
    ensures { (s : Settings) (p at : ℕ) (ms : List (List ℕ)) (v : Lists)
        → port_state s p ((port_called_all p (sends at ms) v).port_calls p) ≡ port_state s p (v.port_calls p) }
{}

/// In every history a link of a port is current just where the port's session is open. It does nothing: its contract
/// is the law.
pub fn links_are_current_while_sessions_are_open()
    ensures { (s : Settings) (h : History) → IsRun s h → (p : ℕ)
        → is_open (port_state s p ((lists s h).port_calls p)) ≡ is_some ((lists s h).port_link p) }
{}

/// The promise of a history is kept from its first event on: by an event whose batch is the one that is given, where
/// what is sent is what was asked and the order level keeps its headline; and past the most events by an empty batch.
/// It does nothing: its contract is the law.
pub fn steps_keep_the_promises()
    ensures first { (s : Settings) → Headline (terms s) [] → Holds s [] }
    ensures step { (s : Settings) (h : History) (e : Event) (b : Batch) → is_within_day h ≡ true → Holds s h
        → Gives s e b (lists s h)
        → Asks s e b (lists s h) → Headline (terms s) (order_turns s (record { event = e; batch = b } ∷ h))
        → Holds s (record { event = e; batch = b } ∷ h) }
    ensures past { (s : Settings) (h : History) (e : Event) → is_within_day h ≡ false → Holds s h
        → Holds s (record { event = e; batch = empty } ∷ h) }
{}
