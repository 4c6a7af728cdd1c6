//! Where tokens lead.

ghost use Rattle.std.specs.Prelude.{◌≡◌, ◌≤◌, ◌<◌, IfOk, length};
ghost use Rattle.std.specs.List.{list_all};
ghost use Rattle.order_accounts.specs.Places.{lead};
ghost use Rattle.order_accounts.specs.Shelved as spec;

use crate::places::place_of;
use ouch_codec::Outbound;
use std::alloc::{AllocError, Global};
use std::marker::Model;

/// Where tokens lead: each place that a token names leads on to one, so that all tokens of an order may lead to the
/// same. Contracts see a list of places.
#[derive(Drop)]
pub(crate) struct Chains {
    leads: Vec<usize>,
}

impl Model for Chains {
    ghost use Rattle.std.specs.Prelude.{List, ℕ, ◌≤◌, length};

    ghost Value = { List ℕ };

    ghost view = { λ c. c.leads.items };

    ghost invariant = { λ c. 1 ≤ length c.leads.items };
}

impl Chains {
    /// Of so many places, and one at least: where each token leads once these messages were heard, the oldest first.
    pub(crate) fn of(
        alloc: Global,
        heard: &[Outbound],
        count: usize,
    ) -> Result<Chains, AllocError> {
        let mut chains = Chains::apart(alloc, count.max(1))?;
        for message in heard {
            chains.follow(message);
        }
        Ok(chains)
    }

    /// Of so many places, each of which leads to itself.
    fn apart(alloc: Global, count: usize) -> Result<Chains, AllocError>
        requires { 1 ≤ count }
    {
        let mut leads = Vec::with_capacity(alloc, count)?;
        for place in 0..count {
            leads.push(place)?;
        }
        Ok(Chains { leads })
    }

    /// How many places there are.
    pub(crate) fn count(&self) -> usize
        ensures count { result ≡ length self.now }
        ensures some { 1 ≤ result }
    {
        self.leads.len()
    }

    /// The place that a token leads to.
    pub(crate) fn lead(&self, token: &[u8; 14]) -> usize
        ensures place { result ≡ lead self.now token.now }
        ensures within { result < length self.now }
    {
        let count = self.leads.len();
        self.leads[place_of(&token[1..], count)] % count
    }

    /// Whether all tokens that took another's place by these messages lead where that one leads.
    pub(crate) fn are_whole(&self, heard: &[Outbound]) -> bool
        ensures { result ≡ list_all (spec.stays self.now) heard.now }
    {
        for message in heard {
            if !self.stays(message) {
                return false;
            }
        }
        true
    }

    /// Whether a token that took another's place by a message leads where that one leads.
    fn stays(&self, message: &Outbound) -> bool
        ensures { result ≡ spec.stays self.now message.now }
    {
        match message {
            Outbound::Replaced(message) => {
                self.lead(&message.token) == self.lead(&message.previous_token)
            }
            _ => true,
        }
    }

    /// A token that takes another's place is to lead where that one leads.
    fn follow(&mut self, message: &Outbound) {
        if let Outbound::Replaced(message) = message {
            let lead = self.lead(&message.previous_token);
            let count = self.leads.len();
            let place = place_of(&message.token[1..], count);
            self.leads[place] = lead;
        }
    }
}
