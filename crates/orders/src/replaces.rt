//! The pending replaces of an order.

ghost use Rattle.std.specs.Prelude.{◌≡◌, ◌++◌, ◌∷◌, [], ◌==◌, IfOk, OnOk, OnErr, MatchOption, length};

use crate::boxed::Boxed;
use crate::requests::Replacing;
use std::alloc::{AllocError, Global};
use std::marker::Model;

/// The pending replaces of an order, the oldest first. It takes no memory while there is none. Contracts see the list.
#[derive(Drop)]
pub struct Replaces {
    held: Option<Boxed<Vec<Replacing>>>,
}

impl Model for Replaces {
    ghost use Rattle.std.specs.Prelude.{List};
    ghost use Rattle.orders.specs.declared.requests.Replacing.{Replacing};
    ghost use Rattle.orders.specs.HeldReplaces.{held_replaces};

    ghost Value = { List Replacing };

    ghost view = { λ r. held_replaces r.held };
}

impl Replaces {
    /// None. Takes no memory.
    pub fn new() -> Replaces
        ensures { result ≡ [] }
    {
        Replaces { held: None }
    }

    /// All of them, in order. Takes no memory.
    pub fn as_slice(&self) -> &[Replacing]
        ensures { result.now ≡ self.now }
    {
        match &self.held {
            None => &[],
            Some(boxed) => boxed.get().as_slice(),
        }
    }

    /// Whether there is none. Takes no memory.
    pub fn is_empty(&self) -> bool
        ensures { result ≡ (length self.now == 0) }
    {
        self.as_slice().is_empty()
    }

    /// One more, the newest. `AllocError` leaves them as they were.
    pub fn push(&mut self, alloc: Global, replacing: Replacing) -> Result<(), AllocError>
        ensures pushed { OnOk result (self.new ≡ self.old ++ replacing ∷ []) }
        ensures err { OnErr result (self.new ≡ self.old) }
    {
        match &mut self.held {
            None => {
                let boxed = Boxed::new(alloc, only(alloc, replacing)?)?;
                self.held = Some(boxed);
            }
            Some(boxed) => boxed.held.push(replacing)?,
        }
        Ok(())
    }

    /// The oldest, out of the list. Takes no memory.
    pub fn take_first(&mut self) -> Option<Replacing>
        ensures { MatchOption result ((self.old ≡ []) × (self.new ≡ [])) (λ first. self.old ≡ first ∷ self.new) }
    {
        let first = match &mut self.held {
            None => None,
            Some(boxed) => take_first_of(&mut boxed.held),
        };
        if self.is_empty() {
            self.held = None;
        }
        first
    }

    /// None is left. Takes no memory.
    pub fn clear(&mut self)
        ensures { self.new ≡ [] }
    {
        self.held = None;
    }

    /// The same replaces in memory of their own.
    pub fn copied(&self, alloc: Global) -> Result<Replaces, AllocError>
        ensures { IfOk result (λ copy. copy ≡ self.now) }
    {
        match &self.held {
            None => Ok(Replaces::new()),
            Some(boxed) => {
                let copies = all_copied(alloc, boxed.get().as_slice())?;
                let held = Boxed::new(alloc, copies)?;
                Ok(Replaces { held: Some(held) })
            }
        }
    }
}

/// A list of one.
fn only(alloc: Global, replacing: Replacing) -> Result<Vec<Replacing>, AllocError>
    ensures { IfOk result (λ replaces. replaces.items ≡ replacing ∷ []) }
{
    let mut replaces = Vec::with_capacity(alloc, 1)?;
    replaces.push(replacing)?;
    Ok(replaces)
}

/// The first of a list, out of it.
fn take_first_of(replaces: &mut Vec<Replacing>) -> Option<Replacing>
    ensures { MatchOption result
        ((replaces.old.items ≡ []) × (replaces.new.items ≡ []))
        (λ first. replaces.old.items ≡ first ∷ replaces.new.items) }
{
    if replaces.is_empty() {
        return None;
    }
    Some(replaces.remove(0))
}

/// Each replace again, in memory of its own.
fn all_copied(alloc: Global, replaces: &[Replacing]) -> Result<Vec<Replacing>, AllocError>
    ensures { IfOk result (λ copies. copies.items ≡ replaces.now) }
{
    let mut copies = Vec::with_capacity(alloc, replaces.len())?;
    for replacing in replaces {
        copies.push(replacing.copied(alloc)?)?;
    }
    Ok(copies)
}
