//! What each end of a link makes of what the other one writes, and what holds of every world that steps lead to.

ghost use Rattle.std.specs.Prelude.{ℕ, ◌≡◌, ◌<◌, ◌≤◌, ◌+◌, ◌^◌, ◌⊎◌, List, [], ◌++◌, drop, length, map, reverse};
ghost use Rattle.std.specs.Prelude.{Option, Ok, Some, true};
ghost use Rattle.ouch_codec.specs.declared.inbound.Inbound.{Inbound};
ghost use Rattle.ouch_codec.specs.declared.outbound.Outbound.{Outbound};
ghost use Rattle.ouch_codec.specs.declared.outbound.Outbound.TheVariants as market;
ghost use Rattle.ouch_codec.specs.Values.{decoded};
ghost use Rattle.soup_session.specs.Reading.{said_of};
ghost use Rattle.soup_session.specs.Table.{blank};
ghost use Rattle.soup_session.specs.Writing.{login, padded_right};
ghost use Rattle.soup_session.specs.declared.said.Said.TheVariants as said;
ghost use Rattle.market_law.specs.Run.{Move};
ghost use Rattle.market_sim.specs.Outbound.{outbound_bytes};
ghost use Rattle.market_sim.specs.Sim.{SimState, accepts_login, login_number, market_session, opening_sim, sim_step};
ghost use Rattle.market_sim.specs.declared.event.SimEvent.{SimEvent};
ghost use Rattle.gate_law.specs.Settings.{Settings, terms};
ghost use Rattle.gate_law.specs.Limits.{is_served};
ghost use Rattle.gate_law.specs.Holds.{Holds};
ghost use Rattle.order_machine.specs.Runs.{IsTableRun};
ghost use Rattle.world_law.specs.Moves.{IsAfterMoves, moves_by};
ghost use Rattle.world_law.specs.Ports.{NoFaults};
ghost use Rattle.world_law.specs.Promises.{AsksOnce, FillsOrKills, FindOne, RestsAlike, StayWithin, turns_of};
ghost use Rattle.world_law.specs.World.{LeadsTo, World, WorldStep};

/// What a market's message is written as is decoded as the message. It does nothing: its contract is the law.
pub fn written_messages_are_decoded()
    ensures { (m : Outbound) → (m ≡ market.Skipped → ⊥) → decoded (outbound_bytes m) ≡ Ok m }
{}

/// The market serves a login of the gateway's session from the number that it asks for: 1 to the next one that the
/// market has, with the session blank or the market's, a user of 6 bytes at most and a password of 10. It does
/// nothing: its contract is the law.
pub fn logins_have_their_number()
    ensures { (user password session : List ℕ) (number count : ℕ) → length user ≤ 6 → length password ≤ 10
        → (session ≡ blank) ⊎ (session ≡ market_session) → 1 ≤ number → number ≤ count + 1 → number < 2 ^ 63
        → login_number count (login (padded_right 6 user) (padded_right 10 password) session number).payload
        ≡ Some number }
{}

/// The session reads the market's Login Accepted as the market's session, and the number from which it sends. It does
/// nothing: its contract is the law.
pub fn accepted_logins_have_their_number()
    ensures { (number : ℕ) → 1 ≤ number → number < 2 ^ 63
        → said_of (accepts_login number) ≡ said.Accepted market_session (Some number) }
{}

/// From the number behind all that is handled on, a market has kept just what isn't, the oldest first. It does nothing:
/// its contract is the law.
pub fn logins_bring_what_is_not_handled()
    ensures { (newer handled : List Outbound)
        → drop (length handled) (map outbound_bytes (reverse (newer ++ handled))) ≡ map outbound_bytes (reverse newer) }
{}

/// The market's end of a session is always as a run of the market's machine leaves it, whatever comes: each event adds
/// the move that it is to the machine, or none. It does nothing: its contract is the law.
pub fn markets_are_runs_of_the_machine()
    ensures first { IsAfterMoves [] opening_sim }
    ensures step { (moves : List Move) (s : SimState) (e : SimEvent) (read : Option Inbound) → IsAfterMoves moves s
        → IsAfterMoves (moves_by s e read ++ moves) (sim_step s e read).state }
{}

/// In every world that steps lead to, no batch of the gateway has a fault. It does nothing: its contract is the law.
pub fn no_batch_has_a_fault()
    ensures { (s : Settings) (steps : List WorldStep) (w : World) → is_served s ≡ true → LeadsTo s steps w
        → Holds s w.history → IsTableRun (terms s) (turns_of s w) → NoFaults w.history }
{}

/// There, each new order enters its market at most once, and each replace replaces at most once, with the terms that
/// were asked. It does nothing: its contract is the law.
pub fn what_is_asked_is_done_once()
    ensures { (s : Settings) (steps : List WorldStep) (w : World) → is_served s ≡ true → LeadsTo s steps w
        → Holds s w.history → IsTableRun (terms s) (turns_of s w) → (p : ℕ) → AsksOnce s w p }
{}

/// There, what is executed and open of an order in a market's book is at most the greatest quantity that was accepted
/// for it. It does nothing: its contract is the law.
pub fn orders_stay_within_what_was_accepted()
    ensures { (s : Settings) (steps : List WorldStep) (w : World) → is_served s ≡ true → LeadsTo s steps w
        → Holds s w.history → IsTableRun (terms s) (turns_of s w) → (p : ℕ) → StayWithin s w p }
{}

/// There, what is executed of a fill-or-kill order of which no replace was accepted is nothing or all of it: in the
/// market's book, and at rest in what its client read. It does nothing: its contract is the law.
pub fn fill_or_kill_executes_all_or_nothing()
    ensures { (s : Settings) (steps : List WorldStep) (w : World) → is_served s ≡ true → LeadsTo s steps w
        → Holds s w.history → IsTableRun (terms s) (turns_of s w) → (p : ℕ) → FillsOrKills s w p }
{}

/// There, once all that a port's market said is handled, what each client read of an order of the port is what the
/// market's book has of it. It does nothing: its contract is the law.
pub fn at_rest_both_agree()
    ensures { (s : Settings) (steps : List WorldStep) (w : World) → is_served s ≡ true → LeadsTo s steps w
        → Holds s w.history → IsTableRun (terms s) (turns_of s w) → (p : ℕ) → RestsAlike s w p }
{}

/// There, the Cancel Orders of one request find at most one token live. It does nothing: its contract is the law.
pub fn cancels_of_a_request_find_one_token()
    ensures { (s : Settings) (steps : List WorldStep) (w : World) → is_served s ≡ true → LeadsTo s steps w
        → Holds s w.history → IsTableRun (terms s) (turns_of s w) → (p : ℕ) → FindOne w p }
{}
