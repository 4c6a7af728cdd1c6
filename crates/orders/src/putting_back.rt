//! How an order is put back to what it had before it was changed.

ghost use Rattle.std.specs.Prelude.{◌≡◌, ℕ, List, [], Option, None, IfOk, false, is_some, length, map, option_map};
ghost use Rattle.std.specs.Prelude.{unwrap_or};
ghost use Rattle.order_machine.specs.order_law.declared.stage.Stage.TheVariants.{Waiting};
ghost use Rattle.order_machine.specs.History.{Entry};
ghost use Rattle.order_machine.specs.OrderRecord.{Cancelling as CancellingRecord, OrderRecord, at, mark};
ghost use Rattle.orders.specs.Changes.{changed_by};
ghost use Rattle.orders.specs.PutBack.{GoesOn, are_some, can_have_had, needs_memory, put_back};
ghost use Rattle.orders.specs.Seen.{cancel_seen, replace_seen};
ghost use Rattle.orders.specs.EarlierTrades.{first_trades, told_before};

use crate::boxed::Boxed;
use crate::change::{Change, breaks, renames};
use crate::copying::copied_cancel;
use crate::earlier_order::EarlierOrder;
use crate::earlier_trades::{EarlierTrades, put_trades_back};
use crate::order::Order;
use crate::replaces::Replaces;
use crate::requests::Cancelling;
use fix_types::ClOrdId;
use order_law::Stage;
use std::alloc::{AllocError, Global};

impl Order {
    /// What it has before a message of the market changes it. It takes the memory of the requests that are pending;
    /// where the message gives it another ClOrdID, of that too.
    pub fn before(&self, alloc: Global, change: Change) -> Result<EarlierOrder, AllocError>
        ensures { IfOk result (λ earlier. put_back earlier (changed_by change self.now) ≡ self.now) }
    {
        if renames(change) {
            let cl_ord_id = ClOrdId::copied(alloc, self.cl_ord_id.as_slice())?;
            self.before_with(alloc, Some(cl_ord_id), self.trades_before(change))
        } else {
            self.before_with(alloc, None, self.trades_before(change))
        }
    }

    /// Whether what it has before a change takes memory: a request is pending, or the change gives another ClOrdID.
    pub fn needs_memory(&self, change: Change) -> bool
        ensures { result ≡ needs_memory change self.now }
    {
        renames(change) || (is_replace_pending(&self.replaces) || is_cancel_pending(&self.cancel))
    }

    /// What it has before a change, where that takes no memory.
    pub fn before_lightly(&self, change: Change) -> EarlierOrder
        ensures { needs_memory change self.now ≡ false → put_back result (changed_by change self.now) ≡ self.now }
    {
        self.before_alone(self.trades_before(change))
    }

    /// What it has before a request is pending on it. It takes the memory of the requests that are pending.
    pub fn before_request(&self, alloc: Global) -> Result<EarlierOrder, AllocError>
        ensures { IfOk result (λ earlier. (replaces : List Entry) (cancel : Option CancellingRecord)
            → put_back earlier (at self.now replaces cancel) ≡ self.now) }
    {
        self.before_with(alloc, None, self.trades_so_far())
    }

    /// Puts the order back to what it had. An order that can't have had this stays. Takes no memory.
    pub fn put_back(&mut self, earlier: EarlierOrder)
        ensures { self.new ≡ put_back earlier self.old }
    {
        if self.can_have_had(&earlier) {
            self.token = earlier.token;
            self.earlier.truncate(earlier.earlier_count);
            put_id_back(&mut self.cl_ord_id, earlier.cl_ord_id);
            self.progress = earlier.progress;
            put_trades_back(&mut self.trades, earlier.trades);
            put_requests_back(&mut self.replaces, earlier.replaces);
            put_requests_back(&mut self.cancel, earlier.cancel);
        }
    }

    /// What it has, with its ClOrdID and its trades as given.
    fn before_with(
        &self,
        alloc: Global,
        cl_ord_id: Option<ClOrdId>,
        trades: EarlierTrades,
    ) -> Result<EarlierOrder, AllocError>
        requires { self.now.stage ≡ Waiting → trades.count ≡ 0 }
        ensures { IfOk result (λ earlier. (now : OrderRecord) → GoesOn cl_ord_id trades self.now now
            → put_back earlier now ≡ self.now) }
    {
        let token = self.token;
        Ok(EarlierOrder {
            token,
            earlier_count: self.earlier.len(),
            cl_ord_id,
            progress: self.progress,
            trades,
            replaces: self.replaces.copied(alloc)?,
            cancel: copied_cancel(alloc, &self.cancel)?,
        })
    }

    /// What it has, with its ClOrdID, its trades as given, and no pending request.
    fn before_alone(&self, trades: EarlierTrades) -> EarlierOrder
        requires { self.now.stage ≡ Waiting → trades.count ≡ 0 }
        ensures { self.now.replaces ≡ [] → self.now.cancel ≡ None → (now : OrderRecord)
            → GoesOn None trades self.now now → put_back result now ≡ self.now }
    {
        let token = self.token;
        EarlierOrder {
            token,
            earlier_count: self.earlier.len(),
            cl_ord_id: None,
            progress: self.progress,
            trades,
            replaces: Replaces::new(),
            cancel: None,
        }
    }

    /// What its trades are before a change.
    fn trades_before(&self, change: Change) -> EarlierTrades
        ensures trades { told_before result (changed_by change self.now).trades ≡ self.now.trades }
        ensures waiting { self.now.stage ≡ Waiting → result.count ≡ 0 }
    {
        match breaks(change) {
            None => self.trades_so_far(),
            Some(match_number) => self.trades_before_mark(match_number),
        }
    }

    /// As many trades as it has.
    fn trades_so_far(&self) -> EarlierTrades
        ensures trades { result ≡ first_trades (length self.now.trades) }
        ensures waiting { self.now.stage ≡ Waiting → result.count ≡ 0 }
    {
        EarlierTrades {
            count: self.trades.len(),
            unbroken: None,
        }
    }

    /// As many trades as it has, of which the one that stands under a match number isn't broken.
    fn trades_before_mark(&self, match_number: u64) -> EarlierTrades
        ensures trades { told_before result (map (mark match_number) self.now.trades) ≡ self.now.trades }
        ensures waiting { self.now.stage ≡ Waiting → result.count ≡ 0 }
    {
        EarlierTrades {
            count: self.trades.len(),
            unbroken: self.trades.standing_place(match_number),
        }
    }

    /// Whether it can have had this: as many tokens, and, as it waited, the total that its client asked.
    fn can_have_had(&self, earlier: &EarlierOrder) -> bool
        ensures { result ≡ can_have_had earlier.now self.now }
    {
        earlier.earlier_count <= self.earlier.len()
            && (earlier.progress.stage != Stage::Waiting
                || earlier.progress.total == self.first_total)
    }
}

/// Whether a replace is pending.
fn is_replace_pending(replaces: &Replaces) -> bool
    ensures { (client order_id : ℕ) → result ≡ are_some (map (replace_seen client order_id) replaces.now) }
{
    !replaces.is_empty()
}

/// Whether a cancel is pending.
fn is_cancel_pending(cancel: &Option<Boxed<Cancelling>>) -> bool
    ensures { (client order_id : ℕ) → result ≡ is_some (option_map (cancel_seen client order_id) cancel.now) }
{
    match cancel {
        None => false,
        Some(_) => true,
    }
}

/// Puts the ClOrdID of an order back to what it was, where it was another. Takes no memory.
fn put_id_back(cl_ord_id: &mut ClOrdId, earlier: Option<ClOrdId>)
    ensures { cl_ord_id.new ≡ unwrap_or earlier cl_ord_id.old }
{
    if let Some(was) = earlier {
        *cl_ord_id = was;
    }
}

/// Puts pending requests back to what they were. Takes no memory.
fn put_requests_back<T: Drop>(requests: &mut T, earlier: T)
    ensures { requests.new ≡ earlier }
{
    *requests = earlier;
}
