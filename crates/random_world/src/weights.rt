//! How often each kind of step is drawn.

use seeded_choices::Chance;

/// A kind of step.
#[derive(Clone, Copy, Debug, PartialEq, Eq)]
pub enum Kind {
    ToMarket,
    ToCore,
    Message,
    Act,
    Lose,
    Connect,
    Tick,
    LogOn,
}

/// How often each kind of step is drawn, beside the others.
#[derive(Clone, Copy)]
pub struct Weights {
    rows: [(Kind, u32); 8],
}

impl Weights {
    /// Those of a world: with few deliveries or many, with few losses or many.
    pub fn of(chance: &mut Chance) -> Weights {
        let deliveries = one_of(chance, [4, 12, 20, 40]);
        let acts = one_of(chance, [10, 20, 30, 40]);
        let losses = one_of(chance, [0, 2, 3, 12]);
        let ticks = one_of(chance, [1, 3, 3, 8]);
        Weights {
            rows: [
                (Kind::ToMarket, deliveries),
                (Kind::ToCore, deliveries),
                (Kind::Message, 30),
                (Kind::Act, acts),
                (Kind::Lose, losses),
                (Kind::Connect, losses.saturating_add(2)),
                (Kind::Tick, ticks),
                (Kind::LogOn, 2),
            ],
        }
    }

    /// A kind of step.
    pub fn kind(&self, chance: &mut Chance) -> Kind {
        let mut left = chance.number_below(self.total());
        for (kind, weight) in &self.rows {
            if left < *weight {
                return *kind;
            }
            left -= *weight;
        }
        Kind::ToCore
    }

    /// All weights together.
    fn total(&self) -> u32 {
        let mut total = 0u32;
        for (_, weight) in &self.rows {
            total = total.saturating_add(*weight);
        }
        total
    }
}

/// One of these.
fn one_of(chance: &mut Chance, numbers: [u32; 4]) -> u32 {
    numbers[chance.number_below(4) as usize]
}
