//! What the core writes to its markets.

ghost use Rattle.std.specs.Prelude.{ℕ, ◌≡◌, ◌+◌, ◌==◌, ◌⊎◌, List, [], ◌∷◌, None, Ok, Some, length, false, true};
ghost use Rattle.soup_packets.specs.declared.packet.Packet.{Packet};
ghost use Rattle.soup_packets.specs.Spelling.{packet_bytes};
ghost use Rattle.order_law.specs.ouch_codec.Values.{decoded};
ghost use Rattle.order_law.specs.ouch_codec.declared.outbound.Outbound.{Outbound};
ghost use Rattle.order_law.specs.Headline.{Each, Headline};
ghost use Rattle.order_law.specs.History.{handled};
ghost use Rattle.order_law.specs.Lawful.{judgement};
ghost use Rattle.soup_session.specs.Delivered.{delivered};
ghost use Rattle.soup_session.specs.Reading.{said_of};
ghost use Rattle.soup_session.specs.States.{is_open};
ghost use Rattle.soup_session.specs.Table.{PortStanding, blank, wanted};
ghost use Rattle.soup_session.specs.declared.port_state.PortState.TheVariants.{Down, LoggingIn, Up};
ghost use Rattle.soup_session.specs.declared.said.Said.TheVariants.{Accepted, Nothing, Sequenced};
ghost use Rattle.gate_law.specs.Settings.{Settings, has_port, terms};
ghost use Rattle.gate_law.specs.Events.{Event, PortGone, PortPacket, PortTick, PortUp, Batch, History, Write};
ghost use Rattle.gate_law.specs.Lists.{Lists};
ghost use Rattle.gate_law.specs.Outcome.{is_stepped, messages};
ghost use Rattle.gate_law.specs.After.{is_within_day, lists, lists_after, order_turns};
ghost use Rattle.gate_law.specs.Due.{Gives, port_named};
ghost use Rattle.gate_law.specs.Promises.{Asks};
ghost use Rattle.gate_law.specs.Holds.{Holds};
ghost use Rattle.world_law.specs.Asked.{BytesAsked};
ghost use Rattle.world_law.specs.Ports.{AreDecoded, SendsAsked, LogsIn, NoFaults, PortAfter, StepHolds, TickLeaves};
ghost use Rattle.world_law.specs.Ports.{is_of_client, login_due, port_standing, with_message};

/// Each message that a batch of the core writes to a port was asked of the port, in every history that keeps the
/// promise, within the day. It does nothing: its contract is the law.
pub fn what_is_written_was_asked()
    ensures { (s : Settings) (h : History) (e : Event) (b : Batch) (p : ℕ) → is_within_day h ≡ true
        → Holds s (record { event = e; batch = b } ∷ h) → b.port ≡ Some p
        → Each (BytesAsked (terms s) p (order_turns s (record { event = e; batch = b } ∷ h))) (messages b) }
{}

/// What a port's session was given in order is what the order level handled of the port, message by message, and the
/// number that the session wants next is the one behind them, in every history that keeps the promise and has no
/// fault. It does nothing: its contract is the law.
pub fn what_is_delivered_is_handled()
    ensures decoded { (s : Settings) (h : History) → Holds s h → NoFaults h → (p : ℕ)
        → AreDecoded (delivered (port_standing s (lists s h) p).arrived) (handled p (order_turns s h)) }
    ensures number { (s : Settings) (h : History) → Holds s h → NoFaults h → (p : ℕ)
        → wanted (port_standing s (lists s h) p) ≡ length (handled p (order_turns s h)) + 1 }
{}

/// An event that names another port, a client's of another port too, leaves a port as it was: its link is told
/// nothing and stays, its session stands as it stood, and nothing more of it is handled; and so does an event that does
/// nothing. It does nothing: its contract is the law.
pub fn events_of_others_leave_a_port()
    ensures other { (s : Settings) (p : ℕ) (v : Lists) (e : Event) (b : Batch) → Gives s e b v
        → (port_named s e == p) ≡ false
        → PortAfter s e b v p [] (v.port_link p) (port_standing s v p) (handled p v.turns) }
    ensures unstepped { (s : Settings) (p : ℕ) (v : Lists) (e : Event) (b : Batch) → Gives s e b v
        → is_stepped s e v ≡ false
        → PortAfter s e b v p [] (v.port_link p) (port_standing s v p) (handled p v.turns) }
{}

/// A history that keeps the promise has, of its last event, what the event gives and asks, and the order level's
/// promise; and its lists are those after the event. It does nothing: its contract is the law.
pub fn histories_hold_at_each_step()
    ensures step { (s : Settings) (h : History) (e : Event) (b : Batch) → is_within_day h ≡ true
        → Holds s (record { event = e; batch = b } ∷ h) → StepHolds s e b (lists s h) }
    ensures lists { (s : Settings) (h : History) (e : Event) (b : Batch) → is_within_day h ≡ true
        → lists s (record { event = e; batch = b } ∷ h) ≡ lists_after s e b (lists s h) }
{}

/// A link that comes up while a port is down is its current one, and is told one login, with the session's name and
/// the number that it wants; a current link that is gone leaves the port down. It does nothing: its contract is the
/// law.
pub fn ports_log_in_for_what_they_want()
    ensures up { (s : Settings) (p : ℕ) (v : Lists) (b : Batch) → has_port s p ≡ true → (link at : ℕ)
        → Gives s (PortUp p link at) b v → v.port_link p ≡ None → (port_standing s v p).state ≡ Down
        → PortAfter s (PortUp p link at) b v p (Write link (packet_bytes (login_due s v p)) ∷ []) (Some link)
        (record (port_standing s v p) { state = LoggingIn }) (handled p v.turns) × (b.fault ≡ None) }
    ensures gone { (s : Settings) (p : ℕ) (v : Lists) (b : Batch) → has_port s p ≡ true → (link at : ℕ)
        → Gives s (PortGone p link at) b v → v.port_link p ≡ Some link
        → is_open (port_standing s v p).state ≡ true
        → PortAfter s (PortGone p link at) b v p [] None (record (port_standing s v p) { state = Down })
        (handled p v.turns) × (b.fault ≡ None) }
{}

/// As time passes on a port's current link, a heartbeat is written, or the link is closed, or nothing comes of it; and
/// nothing comes of it where there is no link. It does nothing: its contract is the law.
pub fn ticks_beat_or_close()
    ensures linked { (s : Settings) (p : ℕ) (v : Lists) (b : Batch) → has_port s p ≡ true → (link at : ℕ)
        → Gives s (PortTick p at) b v → v.port_link p ≡ Some link
        → TickLeaves s p at b v link × (b.fault ≡ None) }
    ensures unlinked { (s : Settings) (p : ℕ) (v : Lists) (b : Batch) → has_port s p ≡ true → (at : ℕ)
        → Gives s (PortTick p at) b v → v.port_link p ≡ None → is_open (port_standing s v p).state ≡ false
        → PortAfter s (PortTick p at) b v p [] None (port_standing s v p) (handled p v.turns) × (b.fault ≡ None) }
{}

/// A login that is accepted with the number that the session wants brings the port up: it is sent all that is
/// outstanding on it, in order, which was asked of it. It does nothing: its contract is the law.
pub fn accepted_logins_ask_again()
    ensures { (s : Settings) (p link at : ℕ) (packet : Packet) (b : Batch) (v : Lists) → has_port s p ≡ true
        → v.port_link p ≡ Some link → (session : List ℕ) (number : ℕ) → Gives s (PortPacket p link at packet) b v
        → Asks s (PortPacket p link at packet) b v → (port_standing s v p).state ≡ LoggingIn
        → said_of packet ≡ Accepted session (Some number) → number ≡ wanted (port_standing s v p)
        → ((port_standing s v p).session ≡ blank) ⊎ ((port_standing s v p).session ≡ session)
        → LogsIn s (PortPacket p link at packet) b v p link session number }
{}

/// A sequenced packet with the number that the session wants is handled, where the order level judges its message no
/// fault: nothing is written, and the next number is wanted. It does nothing: its contract is the law.
pub fn wanted_messages_are_handled()
    ensures handled { (s : Settings) (p link at : ℕ) (packet : Packet) (b : Batch) (v : Lists) → has_port s p ≡ true
        → v.port_link p ≡ Some link → (m : Outbound) → Gives s (PortPacket p link at packet) b v
        → Headline (terms s) (lists_after s (PortPacket p link at packet) b v).turns
        → (port_standing s v p).state ≡ Up → (port_standing s v p).number ≡ wanted (port_standing s v p)
        → said_of packet ≡ Sequenced → decoded packet.payload ≡ Ok m → judgement (terms s) p (Ok m) v.turns ≡ None
        → PortAfter s (PortPacket p link at packet) b v p [] (Some link)
        (with_message packet.payload (port_standing s v p)) (m ∷ handled p v.turns) × (b.fault ≡ None) }
    ensures wanted { (payload : List ℕ) (x : PortStanding) → x.number ≡ wanted x
        → wanted (with_message payload x) ≡ wanted x + 1 }
    ensures number { (payload : List ℕ) (x : PortStanding) → x.number ≡ wanted x
        → (with_message payload x).number ≡ wanted (with_message payload x) }
{}

/// A packet that says nothing, as the market's heartbeat, leaves an open port as it was. It does nothing: its contract
/// is the law.
pub fn heartbeats_leave_a_port()
    ensures { (s : Settings) (p link at : ℕ) (packet : Packet) (b : Batch) (v : Lists) → has_port s p ≡ true
        → v.port_link p ≡ Some link → Gives s (PortPacket p link at packet) b v
        → Asks s (PortPacket p link at packet) b v → is_open (port_standing s v p).state ≡ true
        → said_of packet ≡ Nothing
        → PortAfter s (PortPacket p link at packet) b v p [] (Some link) (port_standing s v p) (handled p v.turns)
        × (b.fault ≡ None) }
{}

/// What an event of a client sends on a port is messages that were asked of the port, written on its current link one
/// behind the other, and none while the port isn't up; nothing else of the port changes, and nothing is at fault. It
/// does nothing: its contract is the law.
pub fn clients_send_what_they_ask()
    ensures { (s : Settings) (p : ℕ) (v : Lists) (b : Batch) (e : Event) → is_of_client e ≡ true → StepHolds s e b v
        → (ms : List (List ℕ)) × SendsAsked s e b v p ms }
{}
