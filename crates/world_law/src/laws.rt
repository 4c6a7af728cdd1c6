//! What holds of every run of the gateway against markets that it alone asks.

ghost use Rattle.std.specs.Prelude.{ℕ, ◌≡◌, ◌<◌, ◌≤◌, ◌^◌, List, ◌∷◌, ◌++◌, filter, length, None, Ok};
ghost use Rattle.order_law.specs.ouch_codec.declared.outbound.Outbound.{Outbound};
ghost use Rattle.order_law.specs.History.{Terms, terms_of, Came, Entry, OrderHistory, OrderTurn, accepted, handled};
ghost use Rattle.order_law.specs.History.{issued, is_new_order, outstanding};
ghost use Rattle.order_law.specs.History.{token_of};
ghost use Rattle.order_law.specs.Headline.{Each, EachWith, SaysIn, TurnHolds};
ghost use Rattle.order_law.specs.Verdicts.{Port};
ghost use Rattle.fix_fields.specs.Field.{Message};
ghost use Rattle.order_law.specs.Lawful.{judgement};
ghost use Rattle.order_law.specs.Reading.{reading};
ghost use Rattle.order_machine.specs.Runs.{TurnsLeave};
ghost use Rattle.order_machine.specs.Table.{TableState};
ghost use Rattle.market_law.specs.Run.{Move, ran};
ghost use Rattle.market_law.specs.Rows.{row};
ghost use Rattle.market_law.specs.Moves.{times};
ghost use Rattle.market_law.specs.Said.{names};
ghost use Rattle.world_law.specs.Asked.{AlwaysOfOrders, BytesAsked, CameAsked};
ghost use Rattle.world_law.specs.FillOrKill.{AllOrNone, IsFillOrKill};
ghost use Rattle.world_law.specs.Rows.{ReadsAsBook};
ghost use Rattle.world_law.specs.Totals.{StaysWithin};

/// The tokens of all that a port was ever asked lead to its orders, after every turn. It does nothing: its contract is
/// the law.
pub fn asked_tokens_lead_to_their_orders()
    ensures { (terms : List Terms) (h : OrderHistory) (s : TableState) → length h < 2 ^ 59 → TurnsLeave terms h s
        → (port : ℕ) → AlwaysOfOrders terms port h }
{}

/// Where all that came to a port's market was asked of that port, in whatever order, late, lost or again: the next of
/// its messages is no fault where all that it said before it is handled. It does nothing: its contract is the law.
pub fn what_is_said_is_no_fault()
    ensures { (terms : List Terms) (port : ℕ) (h : OrderHistory) (s : TableState) (moves : List Move)
        (newer : List Outbound) (m : Outbound)
        → length h < 2 ^ 59 → TurnsLeave terms h s → Each (CameAsked terms port h) moves
        → (ran moves).said ≡ newer ++ m ∷ handled port h → judgement terms port (Ok m) h ≡ None }
{}

/// There, each token is named at most once by an Accepted, Replaced or Rejected. It does nothing: its contract is the
/// law.
pub fn each_token_is_named_once()
    ensures { (terms : List Terms) (port : ℕ) (h : OrderHistory) (s : TableState) (moves : List Move)
        → length h < 2 ^ 59 → TurnsLeave terms h s → Each (CameAsked terms port h) moves
        → (u : List ℕ) → times (names u) (ran moves).said ≤ 1 }
{}

/// There, once all that the market said is handled, what a client read of each order of the port is what the market's
/// book has of it. It does nothing: its contract is the law.
pub fn readings_are_books_at_rest()
    ensures { (terms : List Terms) (port : ℕ) (h : OrderHistory) (s : TableState) (moves : List Move)
        → length h < 2 ^ 59 → TurnsLeave terms h s → Each (CameAsked terms port h) moves
        → (ran moves).said ≡ handled port h
        → Each (λ (new : Entry). (terms_of terms new.client).port ≡ port
        → ReadsAsBook (reading new.order (issued new.client h)) (row (ran moves).machine.book (token_of new)))
        (filter (λ (e : Entry). is_new_order e.message) (accepted terms h)) }
{}

/// What a port is sent as it comes up, and what a client's message sends, was asked of the port. It does nothing: its
/// contract is the law.
pub fn what_is_sent_was_asked()
    ensures again { (terms : List Terms) (port : ℕ) (h : OrderHistory) (messages : List (List ℕ))
        → EachWith (SaysIn terms h port) (outstanding terms port h) messages → Each (BytesAsked terms port h) messages }
    ensures turn { (terms : List Terms) (before : OrderHistory) (t : OrderTurn) (client : ℕ) (m : Message) (port : Port)
        → t.event ≡ Came client m port → TurnHolds terms t before
        → Each (BytesAsked terms (terms_of terms client).port (t ∷ before)) t.sends }
{}

/// There, what is executed and open of an order in the market's book is at most the greatest OrderQty (38) that was
/// accepted for it. It does nothing: its contract is the law.
pub fn books_stay_within_what_was_accepted()
    ensures { (terms : List Terms) (port : ℕ) (h : OrderHistory) (s : TableState) (moves : List Move)
        → length h < 2 ^ 59 → TurnsLeave terms h s → Each (CameAsked terms port h) moves
        → Each (StaysWithin terms port (accepted terms h)) (ran moves).machine.book }
{}

/// There, a fill or kill order (TimeInForce, 59=4) of which no replace was accepted has all of its shares executed or
/// none, in the market's book; and in what its client read of it, once all that the market said is handled. It does
/// nothing: its contract is the law.
pub fn fill_or_kill_orders_trade_all_or_nothing()
    ensures book { (terms : List Terms) (port : ℕ) (h : OrderHistory) (s : TableState) (moves : List Move)
        → length h < 2 ^ 59 → TurnsLeave terms h s → Each (CameAsked terms port h) moves
        → Each (λ (new : Entry). IsFillOrKill terms port (accepted terms h) new
        → AllOrNone new (row (ran moves).machine.book (token_of new)).executed)
        (filter (λ (e : Entry). is_new_order e.message) (accepted terms h)) }
    ensures reading { (terms : List Terms) (port : ℕ) (h : OrderHistory) (s : TableState) (moves : List Move)
        → length h < 2 ^ 59 → TurnsLeave terms h s → Each (CameAsked terms port h) moves
        → (ran moves).said ≡ handled port h
        → Each (λ (new : Entry). IsFillOrKill terms port (accepted terms h) new
        → AllOrNone new (reading new.order (issued new.client h)).executed)
        (filter (λ (e : Entry). is_new_order e.message) (accepted terms h)) }
{}
