//! How far an order has come, in numbers.

ghost use Rattle.std.specs.Prelude.{◌≡◌, ◌≢◌, ◌≤◌, ◌<◌, ◌+◌, ◌-◌, ◌*◌, ◌^◌, false, true};
ghost use Rattle.order_machine.specs.fixed_point.Decimal.{most_shares};
ghost use Rattle.order_machine.specs.order_law.declared.stage.Stage.TheVariants.{Waiting, Working, Closed};

use order_law::Stage;

/// How far an order has come: its stage and its quantities. A step gives another value.
#[derive(Clone, Copy)]
pub struct Progress {
    /// Shares times price of the trades that stand, in 1/10,000.
    pub value: u128,
    /// OrderQty (38), in shares.
    pub total: u64,
    /// CumQty (14), in shares: without the trades that were broken.
    pub executed: u64,
    /// In shares.
    pub cancelled: u64,
    /// The shares of all its trades, those that were broken too.
    ever: u64,
    /// Price (44), in 1/10,000.
    pub price: u32,
    /// What is open in the market's book, in shares.
    pub unfilled: u32,
    /// How many tokens it has had: each put it into the book with 999,999 shares at most.
    pub tokens: u32,
    pub stage: Stage,
    /// The market rejected it.
    pub is_refused: bool,
    ghost small: { ever + unfilled + cancelled ≤ most_shares * tokens },
    ghost tokens_set: { (1 ≤ tokens) × (tokens ≤ 65_536) },
    ghost executed_set: { executed ≤ ever },
    ghost value_set: { value ≤ ever * 4_294_967_295 },
    ghost closed_set: { stage ≡ Closed → unfilled ≡ 0 },
    ghost waiting_set: { stage ≡ Waiting → (unfilled ≡ 0) × (ever ≡ 0) × (cancelled ≡ 0) },
    ghost price_set: { price < 2 ^ 32 },
    ghost total_set: { total ≤ most_shares * tokens },
}

impl Progress {
    /// Of an order that waits for the market's answer.
    pub fn entered(total: u32, price: u32) -> Progress
        requires { total ≤ most_shares }
        ensures stage { result.stage ≡ Waiting }
        ensures refused { result.is_refused ≡ false }
        ensures total { result.total ≡ total }
        ensures price { result.price ≡ price }
        ensures unfilled { result.unfilled ≡ 0 }
        ensures executed { result.executed ≡ 0 }
        ensures cancelled { result.cancelled ≡ 0 }
        ensures value { result.value ≡ 0 }
        ensures tokens { result.tokens ≡ 1 }
    {
        Progress {
            stage: Stage::Waiting,
            is_refused: false,
            total: u64::from(total),
            price,
            unfilled: 0,
            executed: 0,
            cancelled: 0,
            value: 0,
            tokens: 1,
            ever: 0,
        }
    }

    /// In the book with these shares at this price.
    pub fn opened(self, shares: u32, price: u32) -> Progress
        requires waits { self.stage ≡ Waiting }
        requires shares { shares ≤ most_shares }
        ensures stage { result.stage ≡ Working }
        ensures refused { result.is_refused ≡ self.is_refused }
        ensures total { result.total ≡ self.executed + shares }
        ensures price { result.price ≡ price }
        ensures unfilled { result.unfilled ≡ shares }
        ensures executed { result.executed ≡ self.executed }
        ensures cancelled { result.cancelled ≡ self.cancelled }
        ensures value { result.value ≡ self.value }
        ensures tokens { result.tokens ≡ self.tokens }
    {
        Progress {
            stage: Stage::Working,
            is_refused: self.is_refused,
            total: self.executed + u64::from(shares),
            price,
            unfilled: shares,
            executed: self.executed,
            cancelled: self.cancelled,
            value: self.value,
            tokens: self.tokens,
            ever: self.ever,
        }
    }

    /// The same under a further token, in the place of what was open.
    pub fn replaced(self, shares: u32, price: u32) -> Progress
        requires works { self.stage ≡ Working }
        requires shares { shares ≤ most_shares }
        requires tokens { self.tokens < 65_536 }
        ensures stage { result.stage ≡ Working }
        ensures refused { result.is_refused ≡ self.is_refused }
        ensures total { result.total ≡ self.executed + shares }
        ensures price { result.price ≡ price }
        ensures unfilled { result.unfilled ≡ shares }
        ensures executed { result.executed ≡ self.executed }
        ensures cancelled { result.cancelled ≡ self.cancelled }
        ensures value { result.value ≡ self.value }
        ensures tokens { result.tokens ≡ self.tokens + 1 }
    {
        Progress {
            stage: self.stage,
            is_refused: self.is_refused,
            total: self.executed + u64::from(shares),
            price,
            unfilled: shares,
            executed: self.executed,
            cancelled: self.cancelled,
            value: self.value,
            tokens: self.tokens + 1,
            ever: self.ever,
        }
    }

    /// All that was open is cancelled, and the order is over.
    pub fn gone(self) -> Progress
        ensures stage { result.stage ≡ Closed }
        ensures refused { result.is_refused ≡ self.is_refused }
        ensures total { result.total ≡ self.total }
        ensures price { result.price ≡ self.price }
        ensures unfilled { result.unfilled ≡ 0 }
        ensures executed { result.executed ≡ self.executed }
        ensures cancelled { result.cancelled ≡ self.cancelled + self.unfilled }
        ensures value { result.value ≡ self.value }
        ensures tokens { result.tokens ≡ self.tokens }
    {
        Progress {
            stage: Stage::Closed,
            is_refused: self.is_refused,
            total: self.total,
            price: self.price,
            unfilled: 0,
            executed: self.executed,
            cancelled: self.cancelled + u64::from(self.unfilled),
            value: self.value,
            tokens: self.tokens,
            ever: self.ever,
        }
    }

    /// Some shares are taken off what is open.
    pub fn reduced(self, shares: u32) -> Progress
        requires works { self.stage ≡ Working }
        requires open { shares ≤ self.unfilled }
        ensures stage { result.stage ≡ self.stage }
        ensures refused { result.is_refused ≡ self.is_refused }
        ensures total { result.total ≡ self.executed + (self.unfilled - shares) }
        ensures price { result.price ≡ self.price }
        ensures unfilled { result.unfilled ≡ self.unfilled - shares }
        ensures executed { result.executed ≡ self.executed }
        ensures cancelled { result.cancelled ≡ self.cancelled + shares }
        ensures value { result.value ≡ self.value }
        ensures tokens { result.tokens ≡ self.tokens }
    {
        let unfilled = self.unfilled - shares;
        Progress {
            stage: self.stage,
            is_refused: self.is_refused,
            total: self.executed + u64::from(unfilled),
            price: self.price,
            unfilled,
            executed: self.executed,
            cancelled: self.cancelled + u64::from(shares),
            value: self.value,
            tokens: self.tokens,
            ever: self.ever,
        }
    }

    /// Shares were traded at this price, and something is still open.
    pub fn traded(self, shares: u32, price: u32) -> Progress
        requires works { self.stage ≡ Working }
        requires open { shares ≤ self.unfilled }
        ensures stage { result.stage ≡ self.stage }
        ensures refused { result.is_refused ≡ self.is_refused }
        ensures total { result.total ≡ (self.executed + shares) + (self.unfilled - shares) }
        ensures price { result.price ≡ self.price }
        ensures unfilled { result.unfilled ≡ self.unfilled - shares }
        ensures executed { result.executed ≡ self.executed + shares }
        ensures cancelled { result.cancelled ≡ self.cancelled }
        ensures value { result.value ≡ self.value + shares * price }
        ensures tokens { result.tokens ≡ self.tokens }
    {
        Progress {
            stage: self.stage,
            is_refused: self.is_refused,
            total: (self.executed + u64::from(shares)) + u64::from(self.unfilled - shares),
            price: self.price,
            unfilled: self.unfilled - shares,
            executed: self.executed + u64::from(shares),
            cancelled: self.cancelled,
            value: self.value + u128::from(shares) * u128::from(price),
            tokens: self.tokens,
            ever: self.ever + u64::from(shares),
        }
    }

    /// All that is open was traded at this price. Its total stays.
    pub fn filled(self, shares: u32, price: u32) -> Progress
        requires works { self.stage ≡ Working }
        requires open { shares ≡ self.unfilled }
        ensures stage { result.stage ≡ Closed }
        ensures refused { result.is_refused ≡ self.is_refused }
        ensures total { result.total ≡ self.total }
        ensures price { result.price ≡ self.price }
        ensures unfilled { result.unfilled ≡ self.unfilled - shares }
        ensures executed { result.executed ≡ self.executed + shares }
        ensures cancelled { result.cancelled ≡ self.cancelled }
        ensures value { result.value ≡ self.value + shares * price }
        ensures tokens { result.tokens ≡ self.tokens }
    {
        let traded = self.traded(shares, price);
        Progress {
            stage: Stage::Closed,
            is_refused: traded.is_refused,
            total: self.total,
            price: traded.price,
            unfilled: traded.unfilled,
            executed: traded.executed,
            cancelled: traded.cancelled,
            value: traded.value,
            tokens: traded.tokens,
            ever: traded.ever,
        }
    }

    /// A trade is taken back. What is open stays open.
    pub fn broken(self, shares: u32, price: u32) -> Progress
        ensures stage { result.stage ≡ self.stage }
        ensures refused { result.is_refused ≡ self.is_refused }
        ensures total_closed { self.stage ≡ Closed → result.total ≡ self.total }
        ensures total_open { self.stage ≢ Closed → result.total ≡ (self.executed - shares) + self.unfilled }
        ensures price { result.price ≡ self.price }
        ensures unfilled { result.unfilled ≡ self.unfilled }
        ensures executed { result.executed ≡ self.executed - shares }
        ensures cancelled { result.cancelled ≡ self.cancelled }
        ensures value { result.value ≡ self.value - shares * price }
        ensures tokens { result.tokens ≡ self.tokens }
    {
        let executed = self.executed.saturating_sub(u64::from(shares));
        let total = match self.stage {
            Stage::Closed => self.total,
            Stage::Waiting | Stage::Working => executed + u64::from(self.unfilled),
        };
        let unfilled = self.unfilled;
        Progress {
            stage: self.stage,
            is_refused: self.is_refused,
            total,
            price: self.price,
            unfilled,
            executed,
            cancelled: self.cancelled,
            value: self
                .value
                .saturating_sub(u128::from(shares) * u128::from(price)),
            tokens: self.tokens,
            ever: self.ever,
        }
    }

    /// The market rejects it.
    pub fn refused(self) -> Progress
        requires waits { self.stage ≡ Waiting }
        ensures stage { result.stage ≡ Closed }
        ensures refused { result.is_refused ≡ true }
        ensures total { result.total ≡ self.total }
        ensures price { result.price ≡ self.price }
        ensures unfilled { result.unfilled ≡ self.unfilled }
        ensures executed { result.executed ≡ self.executed }
        ensures cancelled { result.cancelled ≡ self.cancelled }
        ensures value { result.value ≡ self.value }
        ensures tokens { result.tokens ≡ self.tokens }
    {
        Progress {
            stage: Stage::Closed,
            is_refused: true,
            total: self.total,
            price: self.price,
            unfilled: self.unfilled,
            executed: self.executed,
            cancelled: self.cancelled,
            value: self.value,
            tokens: self.tokens,
            ever: self.ever,
        }
    }
}
