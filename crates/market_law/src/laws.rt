//! What holds of every run of the machine.

ghost use Rattle.std.specs.Prelude.{ℕ, ◌≡◌, ◌≤◌, List, Option};
ghost use Rattle.order_law.specs.ouch_codec.declared.inbound.Inbound.{Inbound};
ghost use Rattle.order_law.specs.Headline.{Each};
ghost use Rattle.order_law.specs.Life.{life};
ghost use Rattle.market_law.specs.Machine.{BookOrder};
ghost use Rattle.market_law.specs.Run.{Move, life_in_book, ran};
ghost use Rattle.market_law.specs.Moves.{IsAllOrNothing, IsKnown, IsOneOf, IsSmall, IsWithin, times};
ghost use Rattle.market_law.specs.Said.{EachSaid, names};

/// The book of each order is the life of all that the machine said, whatever came and whatever it chose. It does
/// nothing: its contract is the law, for callers to cite.
pub fn books_are_lives()
    ensures { (moves : List Move) → Each (λ (c : BookOrder). (side : ℕ) →
        life c.entered.token side (ran moves).said ≡ life_in_book side c) (ran moves).machine.book }
{}

/// Where tokens lead to their orders and all that came is one of these messages, each message is lawful of what was
/// said before it, and answers one of them. It does nothing: its contract is the law, for callers to cite.
pub fn what_is_said_is_lawful()
    ensures { (root_of : List ℕ → Option (List ℕ)) (asked : List Inbound) (moves : List Move)
        → Each (IsKnown root_of (IsOneOf asked)) moves → EachSaid root_of (IsOneOf asked) (ran moves).said }
{}

/// Each token is named at most once by an Accepted, Replaced or Rejected. It does nothing: its contract is the law, for
/// callers to cite.
pub fn tokens_are_used_once()
    ensures { (root_of : List ℕ → Option (List ℕ)) (asked : List Inbound) (moves : List Move)
        → Each (IsKnown root_of (IsOneOf asked)) moves → (u : List ℕ) → times (names u) (ran moves).said ≤ 1 }
{}

/// What is executed and open of an order never passes the most that was asked for it. It does nothing: its contract is
/// the law, for callers to cite.
pub fn orders_stay_within_what_was_asked()
    ensures { (root_of : List ℕ → Option (List ℕ)) (asked : List Inbound) (limit : List ℕ → ℕ) (moves : List Move)
        → Each (IsKnown root_of (IsOneOf asked)) moves → Each (IsSmall root_of limit) moves
        → Each (IsWithin limit) (ran moves).machine.book }
{}

/// An order whose minimum quantity is all of its shares, as that of a fill or kill order is, has executed none of them
/// or all, as long as no replace of it was taken. It does nothing: its contract is the law, for callers to cite.
pub fn fill_or_kill_trades_all_or_nothing()
    ensures { (moves : List Move) → Each IsAllOrNothing (ran moves).machine.book }
{}
