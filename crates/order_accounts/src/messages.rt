//! Messages of the market, by where their tokens lead.

ghost use Rattle.std.specs.Prelude.{◌≡◌, ◌++◌, ◌∷◌, [], ℕ, List, true, IfOk, OnOk, length, reverse};
ghost use Rattle.order_law.specs.Life as spec;
ghost use Rattle.ouch_codec.specs.declared.outbound.Outbound.{Outbound};
ghost use Rattle.order_accounts.specs.Shelved.{AreBelow, AreShelved, HasMessages, message_at, picked};

use crate::chains::Chains;
use crate::life::{Life, life_of};
use crate::shelves::Shelves;
use ouch_codec::Outbound;
use std::alloc::{AllocError, Global};
use std::marker::Model;

/// Messages of the market that were heard on a port, their places on shelves by where their tokens lead. Contracts see
/// all of them, the oldest first.
#[derive(Drop)]
pub struct MessageShelves {
    heard: Vec<Outbound>,
    chains: Chains,
    shelves: Shelves<usize>,
    /// Each chain of tokens leads to one shelf. Else no shelf is used.
    is_whole: bool,
}

impl Model for MessageShelves {
    ghost use Rattle.std.specs.Prelude.{◌≡◌, List, true};
    ghost use Rattle.ouch_codec.specs.declared.outbound.Outbound.{Outbound};
    ghost use Rattle.order_accounts.specs.Shelved.{HasMessages};

    ghost Value = { List Outbound };

    ghost view = { λ m. m.heard.items };

    ghost invariant = { λ m. m.is_whole ≡ true → HasMessages m.chains m.heard.items m.shelves };
}

impl MessageShelves {
    /// These messages, the oldest first, on so many shelves, and one at least.
    pub fn of(
        alloc: Global,
        heard: Vec<Outbound>,
        count: usize,
    ) -> Result<MessageShelves, AllocError>
        ensures { IfOk result (λ shelves. shelves ≡ heard.items) }
    {
        let chains = Chains::of(alloc, heard.as_slice(), count)?;
        let shelves = shelved(alloc, &chains, heard.as_slice())?;
        let is_whole = chains.are_whole(heard.as_slice());
        Ok(MessageShelves {
            heard,
            chains,
            shelves,
            is_whole,
        })
    }

    /// The life that the order with this first token and side has by all of these messages: it is read from those on
    /// its shelf, or from all where a chain of tokens leads to several.
    ///
    /// Source: OUCH 4.2, "Outbound Messages" (Order Token).
    pub fn life(&self, alloc: Global, root: &[u8; 14], side: u8) -> Result<Life, AllocError>
        ensures { IfOk result (λ life. life ≡ spec.life root.now side (reverse self.now)) }
    {
        if self.is_whole {
            let shelf = self.shelves.shelf(self.chains.lead(root));
            let near = self.those_at(alloc, shelf)?;
            life_of(alloc, root, side, near.as_slice())
        } else {
            life_of(alloc, root, side, self.heard.as_slice())
        }
    }

    /// The messages at these places, copied.
    fn those_at(&self, alloc: Global, places: &[usize]) -> Result<Vec<Outbound>, AllocError>
        requires { AreBelow (length self.now) places.now }
        ensures { IfOk result (λ messages. messages.items ≡ picked self.now places.now) }
    {
        let mut messages = Vec::new(alloc);
        for place in places {
            messages.push(self.heard[*place])?;
        }
        Ok(messages)
    }
}

/// The places of messages on the shelves that their tokens lead to.
fn shelved(alloc: Global, chains: &Chains, heard: &[Outbound]) -> Result<Shelves<usize>, AllocError>
    ensures same { IfOk result (λ shelves. length shelves ≡ length chains.now) }
    ensures shelved { IfOk result (AreShelved (message_at chains.now) heard.now) }
{
    let mut shelves = Shelves::new(alloc, chains.count())?;
    for place in 0..heard.len() {
        shelve(chains, &heard[place], place, &mut shelves)?;
    }
    Ok(shelves)
}

/// Puts the place of a message on the shelf that its token leads to; that of one without a token nowhere.
fn shelve(
    chains: &Chains,
    message: &Outbound,
    place: usize,
    shelves: &mut Shelves<usize>,
) -> Result<(), AllocError>
    requires { length shelves.old ≡ length chains.now }
    ensures same { OnOk result (length shelves.new ≡ length shelves.old) }
    ensures put { OnOk result ((heard : List Outbound) → length heard ≡ place
        → AreShelved (message_at chains.now) heard shelves.old
        → AreShelved (message_at chains.now) (heard ++ message.now ∷ []) shelves.new) }
{
    match message.order_token() {
        Some(token) => shelves.put(chains.lead(token), place),
        None => Ok(()),
    }
}
