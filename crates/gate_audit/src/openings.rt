//! The orders that were accepted, each with its first token, by the reports of the batches alone.

ghost use Rattle.std.specs.Prelude.{◌≡◌, ◌<◌, ◌+◌, ◌∷◌, ◌++◌, [], IfOk, IsErrOf, List, map, reverse};
ghost use Rattle.std.specs.Result.{OkIff};
ghost use Rattle.order_law.specs.tokens.TokenText.{HasToken};
ghost use Rattle.order_law.specs.Verdicts.{last_token};
ghost use Rattle.gate_events.specs.Seen.{batch_seen};
ghost use Rattle.gate_journal.specs.Kept.{turns};
ghost use Rattle.gate_audit.specs.Counted.{IsOf};
ghost use Rattle.gate_audit.specs.Pairs as read;
ghost use Rattle.gate_audit.specs.Pairs.{SaidToClient, said_to};
ghost use Rattle.gate_audit.specs.Passes.{told_more, told_whole};

use crate::growing::push_slowly;
use crate::opening::Opening;
use crate::reports::{first_byte, gives_token, opens_order, text};
use fix_fields::{Fields, Text};
use gate_core::{Batch, IssuedReport};
use gate_journal::History;
use order_accounts::ReadingFault;
use std::alloc::Global;
use tokens::Token;

/// The orders that were opened so far, and how many tokens were given.
#[derive(Drop)]
pub struct Openings {
    pub given: u64,
    /// The oldest first.
    pub orders: Vec<Opening>,
}

impl Openings {
    /// Before any report.
    pub fn new(alloc: Global) -> Openings
        ensures { IsOf [] result }
    {
        Openings {
            given: 0,
            orders: Vec::new(alloc),
        }
    }

    /// What a batch told. `TooLarge` where it gives more tokens than there are, or else `NoMemory`.
    pub fn take(&mut self, alloc: Global, batch: &Batch) -> Result<(), ReadingFault>
        ensures all { IfOk result (λ u. (all : List SaidToClient) → IsOf all self.old
            → IsOf (told_more (batch_seen batch.now) all) self.new) }
        ensures large { (all : List SaidToClient) → IsOf all self.old → IsErrOf result ReadingFault.TooLarge
            → read.HasTokenNumbers (told_more (batch_seen batch.now) all) → ⊥ }
    {
        match batch.client {
            Some(client) => self.hear_all(alloc, client.number(), &batch.reports),
            None => Ok(()),
        }
    }

    /// What a client was told by a batch.
    fn hear_all(
        &mut self,
        alloc: Global,
        client: u16,
        reports: &[IssuedReport],
    ) -> Result<(), ReadingFault>
        ensures all { IfOk result (λ u. (all : List SaidToClient) → IsOf all self.old
            → IsOf (reverse (map (said_to client) reports.now) ++ all) self.new) }
        ensures large { (all : List SaidToClient) → IsOf all self.old → IsErrOf result ReadingFault.TooLarge
            → read.HasTokenNumbers (reverse (map (said_to client) reports.now) ++ all) → ⊥ }
    {
        for report in reports {
            let fields = report.to_fields(alloc)?;
            self.hear(alloc, client, &fields)?;
        }
        Ok(())
    }

    /// One report or reject more.
    pub fn hear(&mut self, alloc: Global, client: u16, report: &Fields) -> Result<(), ReadingFault>
        ensures all { IfOk result (λ u. (all : List SaidToClient) → IsOf all self.old
            → IsOf (said_to client report.now ∷ all) self.new) }
        ensures large { (all : List SaidToClient) → IsOf all self.old → IsErrOf result ReadingFault.TooLarge
            → read.HasTokenNumbers (said_to client report.now ∷ all) → ⊥ }
    {
        if gives_token(report) {
            self.given = next_token(self.given)?;
        }
        if opens_order(report) {
            let order = opened(alloc, self.given, client, report)?;
            push_slowly(&mut self.orders, order)?;
        }
        Ok(())
    }
}

/// The orders that the reports of a history opened, the oldest first, and how many tokens were given.
///
/// A token is given with each new order and each replace that is accepted, of whichever client. `TooLarge` where more
/// were given than there are, or else `NoMemory`.
///
/// Source: FIX 4.4 Volume 6, "ExecType"; OUCH 4.2, "Enter Order Message".
pub fn openings_of(alloc: Global, history: &History) -> Result<Openings, ReadingFault>
    ensures opened { IfOk result (IsOf (told_whole (turns history.now))) }
    ensures large { IsErrOf result ReadingFault.TooLarge
        → read.HasTokenNumbers (told_whole (turns history.now)) → ⊥ }
{
    let mut openings = Openings::new(alloc);
    let mut ahead = history.turns();
    while let Some((_, batch, behind)) = ahead.split_first(alloc)? {
        openings.take(alloc, &batch)?;
        ahead = behind;
    }
    Ok(openings)
}

/// The number of the next token, where so many were given. `TooLarge` where there is none.
fn next_token(given: u64) -> Result<u64, ReadingFault>
    ensures { OkIff result (given < last_token) (given + 1) }
{
    if given >= Token::MOST {
        return Err(ReadingFault::TooLarge);
    }
    Ok(given + 1)
}

/// The order that this report to a client opens, with the token of this number. `TooLarge` where it has none.
fn opened(alloc: Global, number: u64, client: u16, report: &Fields) -> Result<Opening, ReadingFault>
    ensures opened { IfOk result (λ opening. opening ≡ read.opened_order_at number (said_to client report.now)) }
    ensures large { IsErrOf result ReadingFault.TooLarge → HasToken number → ⊥ }
{
    let Ok(root) = Token::of(number) else {
        return Err(ReadingFault::TooLarge);
    };
    Ok(Opening {
        client,
        order: Text::copied(alloc, text(report, 37))?,
        id: Text::copied(alloc, text(report, 11))?,
        side: first_byte(text(report, 54)),
        root,
    })
}
