//! Pages of a day, judged as they come.

ghost use Rattle.std.specs.Prelude.{◌≡◌, ◌++◌, ◌∷◌, [], None, Some, MatchResult, is_none, length, min};
ghost use Rattle.journal_days.specs.Begun.{begun_fault, version_seen};
ghost use Rattle.journal_days.specs.Day.{day_fault, version_of};

use crate::day::{has_no_batch, judge_in_day, page_behind};
use crate::numbers::judged_number_behind;
use journal_pages::{NotedPages, PageFault, Place, Version};
use std::marker::Model;

/// The first pages of a day, judged one behind another; others may come behind them. Contracts see the pages. Takes no
/// memory.
#[derive(Drop)]
pub struct DayJudge {
    /// That of the first page.
    version: Option<Version>,
    /// The place of the last page, from 0.
    last: u32,
    /// That of the page behind it.
    next: u32,
    /// The number of the page behind it.
    number: u64,
    place: Place,
    taken: NotedPages,
}

impl Model for DayJudge {
    ghost use Rattle.std.specs.Prelude.{ℕ, List};
    ghost use Rattle.journal_days.specs.Judged.{HasJudged};

    ghost Value = { List (List ℕ) };

    ghost view = { λ j. j.taken.pages };

    ghost invariant = { λ j. HasJudged j.version j.last j.next j.number j.place j.taken.pages };
}

impl DayJudge {
    /// Of no pages: a day on which nothing came.
    pub fn new() -> DayJudge
        ensures { result ≡ [] }
    {
        DayJudge {
            version: None,
            last: 0,
            next: 0,
            number: 0,
            place: Place::BetweenBatches,
            taken: NotedPages::new(),
        }
    }

    /// Judges a page behind those before, as one behind which others may stand, and takes it. Where something is wrong
    /// with it its place, from 0, and what, as `judge_day` has it; the judge is as it was then.
    pub fn take(&mut self, page: &[u8]) -> Result<(), (u32, PageFault)>
        ensures taken { MatchResult result
            (λ nothing. (self.new ≡ self.old ++ page.now ∷ []) × (begun_fault (version_of self.new) self.new ≡ None))
            (λ fault. (self.new ≡ self.old)
            × (begun_fault (version_of (self.old ++ page.now ∷ [])) (self.old ++ page.now ∷ [])
            ≡ Some (fault.0, fault.1))) }
    {
        let version = self.version_with(page);
        let later = match judge_in_day(version, page, self.number, self.place, false) {
            Ok(later) => later,
            Err(fault) => return Err((self.next, fault)),
        };
        self.taken.note(page);
        self.version = Some(version);
        self.last = self.next;
        self.next = page_behind(self.next);
        self.number = judged_number_behind(version, page);
        self.place = later;
        Ok(())
    }

    /// The version of the pages with this one behind them.
    fn version_with(&self, page: &[u8]) -> Version
        ensures { result ≡ version_of (self.now ++ page.now ∷ []) }
    {
        match self.version {
            Some(version) => version,
            None => Version::named(page),
        }
    }

    /// Whether the pages are a day as they are: no batch is open.
    pub fn is_whole(&self) -> bool
        ensures { result ≡ is_none (day_fault (version_of self.now) self.now) }
    {
        has_no_batch(&self.place)
    }

    /// Nothing, where the pages are a day as they are; else `Order`, and the place of the last one, from 0: it ends
    /// inside a batch.
    pub fn end(&self) -> Result<(), (u32, PageFault)>
        ensures { MatchResult result (λ nothing. day_fault (version_of self.now) self.now ≡ None)
            (λ fault. day_fault (version_of self.now) self.now ≡ Some (fault.0, fault.1)) }
    {
        if has_no_batch(&self.place) {
            return Ok(());
        }
        Err((self.last, PageFault::Order))
    }

    /// How many pages there are; 2^32 - 1 where there are more.
    pub fn count(&self) -> u32
        ensures { result ≡ min (length self.now) 4_294_967_295 }
    {
        self.next
    }
}
