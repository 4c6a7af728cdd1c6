//! A history whose older pages may leave memory.

ghost use Rattle.std.specs.Prelude.{◌≡◌, ◌++◌, ◌∷◌, [], None, IfOk, IfSome, MatchResult, OnErr};
ghost use Rattle.gate_events.specs.Seen.{batch_seen};
ghost use Rattle.journal_pages.specs.declared.version.Version.TheVariants.{Two};
ghost use Rattle.journal_records.specs.journal_days.Cut.{texts, with_records};
ghost use Rattle.journal_records.specs.Parts.{turn_records};

use crate::history::History;
use gate_events::{Batch, Event};
use journal_days::DayPages;
use journal_pages::NotedPages;
use journal_records::append_turn;
use std::alloc::{AllocError, Global};
use std::marker::Model;

/// A history that grows: events, each with the batch that it gave, the oldest first, as the pages of a day. Its older
/// pages may leave memory, once a file has them. Contracts see all events, batches and pages, as they do of a
/// `History`.
#[derive(Drop)]
pub struct GrowingHistory {
    /// The last pages; one at least, where there are some.
    pages: DayPages,
    /// How many pages before them left memory.
    left: usize,
    front: NotedPages,
}

impl Model for GrowingHistory {
    ghost use Rattle.std.specs.Prelude.{◌≡◌, ◌++◌, [], None, length};
    ghost use Rattle.journal_pages.specs.declared.version.Version.TheVariants.{Two};
    ghost use Rattle.journal_records.specs.journal_days.Day.{day_fault};
    ghost use Rattle.gate_journal.specs.Kept.{Kept, kept_in};

    ghost Value = { Kept };

    ghost view = { λ h. kept_in (h.front.pages ++ h.pages) };

    ghost invariant = { λ h. (day_fault Two (h.front.pages ++ h.pages) ≡ None)
        × (length h.front.pages ≡ h.left) × (h.pages ≡ [] → h.front.pages ≡ []) };
}

/// The pages of a history that are in memory, and how many before them aren't.
#[derive(Clone, Copy, Drop)]
pub struct RecentPages<'a> {
    pub left: usize,
    pub pages: &'a [Vec<u8>],
}

impl GrowingHistory {
    ghost use Rattle.gate_journal.specs.Kept.{kept_in, kept_turn, nothing_kept, turns};
    ghost use Rattle.gate_journal.specs.Tail.{AreLast};
    ghost use Rattle.journal_records.specs.journal_days.Day.{day_fault};

    /// No events, and no pages. Takes no memory.
    pub fn new(alloc: Global) -> GrowingHistory
        ensures { result ≡ nothing_kept }
    {
        GrowingHistory {
            pages: DayPages::new(alloc),
            left: 0,
            front: NotedPages::new(),
        }
    }

    /// One event more, with the batch that it gave, as `History::push` has it.
    pub fn push(&mut self, event: &Event, batch: &Batch) -> Result<(), AllocError>
        ensures events { IfOk result (λ nothing. self.new.events ≡ self.old.events ++ event.now ∷ []) }
        ensures batches { IfOk result (λ nothing. self.new.batches
            ≡ self.old.batches ++ batch_seen batch.now ∷ []) }
        ensures turns { IfOk result (λ nothing. turns self.new
            ≡ kept_turn event.now (batch_seen batch.now) ∷ turns self.old) }
        ensures pages { IfOk result (λ nothing. self.new.pages
            ≡ with_records self.old.pages (turn_records event.now (batch_seen batch.now))) }
        ensures err { OnErr result (self.new ≡ self.old) }
    {
        append_turn(event, batch, &mut self.pages)?;
        Ok(())
    }

    /// The pages that are in memory: all of them, or the last.
    pub fn recent(&self) -> RecentPages<'_>
        ensures last { AreLast result.left (texts result.pages.now) self.now.pages }
        ensures day { day_fault Two self.now.pages ≡ None }
        ensures same { self.now ≡ kept_in self.now.pages }
    {
        RecentPages {
            left: self.left,
            pages: self.pages.as_slice(),
        }
    }

    /// All pages, where all are in memory.
    pub fn whole(&self) -> Option<&[Vec<u8>]>
        ensures pages { IfSome result (λ pages. texts pages.now ≡ self.now.pages) }
        ensures same { self.now ≡ kept_in self.now.pages }
    {
        if self.left == 0 {
            Some(self.pages.as_slice())
        } else {
            None
        }
    }

    /// The history itself, where all of its pages are in memory; else this again.
    pub fn into_whole(self) -> Result<History, GrowingHistory>
        ensures { MatchResult result (λ whole. whole ≡ self) (λ same. same ≡ self) }
    {
        if self.left != 0 {
            return Err(self);
        }
        let GrowingHistory { pages, .. } = self;
        Ok(History::of(pages))
    }

    /// Has all pages but the last leave memory. Contracts see them still. Takes no memory.
    pub fn drop_older(&mut self)
        ensures { self.new ≡ self.old }
    {
        let older = self.pages.as_slice().len().saturating_sub(1);
        for _ in 0..older {
            self.drop_first();
        }
    }

    /// Has the first page in memory leave it, where another one stands behind it.
    fn drop_first(&mut self)
        ensures { self.new ≡ self.old }
    {
        let [first, _, ..] = self.pages.as_slice() else {
            return;
        };
        if self.left == usize::MAX {
            return;
        }
        self.front.note(first.as_slice());
        self.pages.drop_first();
        self.left += 1;
    }
}
