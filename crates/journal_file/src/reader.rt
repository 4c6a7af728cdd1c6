//! A day's file, read page by page.

ghost use Rattle.std.specs.Prelude.{◌≡◌, ◌⊎◌, ◌≤◌, ◌++◌, ◌∷◌, [], IfErr, IfOk, MatchOption, MatchResult, None, Some};
ghost use Rattle.std.specs.Prelude.{List, ℕ};
ghost use Rattle.std.specs.Io.KnownBytes.{IsAtEnd};
ghost use Rattle.journal_days.specs.Begun.{begun_fault};
ghost use Rattle.journal_days.specs.Cut.{texts};
ghost use Rattle.journal_days.specs.Day.{day_fault, version_of};
ghost use Rattle.gate_journal.specs.Kept.{GoOnBy, kept_in};
ghost use Rattle.journal_pages.specs.declared.version.Version.TheVariants.{Two};
ghost use Rattle.journal_file.specs.File.{front_fault, sized_page};
ghost use Rattle.journal_file.specs.Said.{IsNoFile, IsNoMemory, Says};
ghost use Rattle.journal_file.specs.Reader.{Advances, AreNotWhole, GrowsStill, HasFailed, HasMore, IsGiven, IsNoFileBy};
ghost use Rattle.journal_file.specs.Reader.{IsNoneBy, IsRefused, IsWrongPage};
ghost use Rattle.journal_file.specs.Reader.{ReadsOn, StandsInFront, nothing_begun};
ghost use Rattle.journal_file.specs.declared.reader.Mode.{Mode};
ghost use Rattle.journal_file.specs.declared.reader.Mode.TheVariants.{Pages};
ghost use Rattle.journal_file.specs.File.{stands_at};
ghost use Rattle.journal_pages.specs.Page.{page_name};
ghost use Rattle.std.specs.Prelude.{true};

use crate::ending::Ending;
use crate::fault::FileFault;
use crate::read_fault::{ReadFault, wrong_page};
use crate::reading::{DayFile, TORN_LIMIT, first_of_sum, has_at, is_unfinished, read_file};
use crate::window::Window;
use gate_journal::TurnPages;
use journal_days::DayJudge;
use journal_pages::{Noted, NotedPages, PageFault, Version};
use std::alloc::Global;
use std::io::{Error, ErrorKind, Read};
use std::marker::Model;
use std::mem;

/// How many steps a call makes at most.
const MOST_STEPS: u64 = 1_000_000_000_000;

/// How a file is read.
#[derive(Clone, Copy)]
pub(crate) enum Mode {
    /// It isn't seen yet how.
    Unseen,
    /// Page by page: they stand behind their sums, and are of version 2.
    Pages,
    /// It was read whole, and ends so.
    Whole(Ending),
    /// It was read whole, and then the input had more.
    Grown,
}

/// What comes next of a day's file.
#[derive(Drop)]
pub enum NextTurns {
    /// Whole turns, as the pages in which they stand.
    Turns(TurnPages),
    /// Its end: behind the last whole page the file ends so.
    End(Ending),
}

/// A day's file that is read page by page, with the pages of a few turns in memory. Contracts see the bytes that were
/// read, and the pages that were given.
#[derive(Drop)]
pub struct DayReader {
    mode: Mode,
    window: Window,
    /// All pages that were taken.
    judge: DayJudge,
    /// Those of them that weren't given: a batch is open behind them.
    held: Vec<Vec<u8>>,
    yielded: NotedPages,
}

impl Model for DayReader {
    ghost use Rattle.journal_days.specs.Cut.{texts};
    ghost use Rattle.journal_file.specs.Reader.{Reading, IsReading};

    ghost Value = { Reading };

    ghost view = { λ d. record {
      mode = d.mode;
      read = d.window.read;
      left = d.window.left;
      taken = d.judge;
      held = texts d.held.items;
      yielded = d.yielded.pages;
    } };

    ghost invariant = { λ d. IsReading d.mode d.window.read d.window.left d.judge (texts d.held.items)
        d.yielded.pages };
}

impl DayReader {
    /// Of a file of which nothing was read. Takes no memory.
    pub fn new(alloc: Global) -> DayReader
        ensures { result ≡ nothing_begun }
    {
        DayReader {
            mode: Mode::Unseen,
            window: Window::new(alloc),
            judge: DayJudge::new(),
            held: Vec::new(alloc),
            yielded: NotedPages::new(),
        }
    }

    /// Whether the file begins as a log writes it: a page of version 2 stands behind a length and a sum. Takes no
    /// memory.
    pub fn is_named(&self) -> bool
        ensures { result ≡ true → stands_at 16 (page_name Two) self.now.read ≡ true }
    {
        matches!(self.mode, Mode::Pages)
    }

    /// What was read of the file. Takes no memory.
    pub fn into_read(self) -> Noted
        ensures { result.bytes ≡ self.read }
    {
        self.window.into_noted()
    }

    /// The next turns of the file that `input` gives, or its end.
    ///
    /// Turns come as soon as no batch is open behind the pages in which they stand. A file whose first page isn't of
    /// version 2, behind its length and its sum, is read whole, and given at once in pages of version 2. Behind the
    /// end each call gives it again, unless the input has more by then.
    ///
    /// `NoFile` where the file is none, by its first wrong page, as `read_file` has it; the pages before it were given,
    /// but for those in which the last batch began. `NoMemory` where memory runs out; `Read` where a read fails, and
    /// where a file that was read whole has more than that. After each of them a further call goes on where this one
    /// stopped.
    pub fn next<R: Read>(&mut self, alloc: Global, input: &mut R) -> Result<NextTurns, ReadFault>
        ensures read { ReadsOn (R.remaining input.old) (R.remaining input.new) self.old.read self.new.read }
        ensures given { IfOk result (λ next. IsGiven (R.remaining input.new) self.old.yielded self.new next) }
        ensures refused { IfErr result (λ fault. (self.new.yielded ≡ self.old.yielded)
            × IsRefused (R.remaining input.new) self.new.read fault) }
    {
        for _ in 0..MOST_STEPS {
            match self.step(alloc, input) {
                Ok(Some(next)) => return Ok(next),
                Ok(None) => {}
                Err(fault) => return Err(fault),
            }
        }
        Err(ReadFault::Read(Error::from(ErrorKind::Other)))
    }

    /// A step to what comes next: a read, or a page.
    fn step<R: Read>(
        &mut self,
        alloc: Global,
        input: &mut R,
    ) -> Result<Option<NextTurns>, ReadFault>
        ensures { Advances (R.remaining input.old) (R.remaining input.new) self.old self.new result }
    {
        match self.mode {
            Mode::Unseen => self.begin(alloc, input),
            Mode::Pages => self.page(alloc, input),
            Mode::Whole(ending) => self.end_whole(input, ending),
            Mode::Grown => Err(ReadFault::Read(Error::from(ErrorKind::InvalidData))),
        }
    }

    /// Sees how the file is to be read, or reads more of it.
    fn begin<R: Read>(
        &mut self,
        alloc: Global,
        input: &mut R,
    ) -> Result<Option<NextTurns>, ReadFault>
        requires { self.old.mode ≡ Mode.Unseen }
        ensures { Advances (R.remaining input.old) (R.remaining input.new) self.old self.new result }
    {
        if has_at(self.window.left(), 16, b"GJ02") {
            self.mode = Mode::Pages;
            return Ok(None);
        }
        let has_more = match self.read_more(input) {
            Ok(has_more) => has_more,
            Err(fault) => return Err(fault),
        };
        if has_more {
            return Ok(None);
        }
        match self.begin_whole(alloc) {
            Ok(part) => Ok(Some(NextTurns::Turns(part))),
            Err(fault) => Err(fault),
        }
    }

    /// All turns of a file that was read whole.
    fn begin_whole(&mut self, alloc: Global) -> Result<TurnPages, ReadFault>
        requires { self.old.mode ≡ Mode.Unseen }
        ensures read { self.new.read ≡ self.old.read }
        ensures given { IfOk result (λ part. GoOnBy self.old.yielded part self.new.yielded) }
        ensures refused { IfErr result (λ fault. (self.new.yielded ≡ self.old.yielded)
            × IsNoFileBy self.new.read fault) }
    {
        let DayFile { day, ending } = match read_file(alloc, self.window.left()) {
            Ok(read) => read,
            Err((number, fault)) => return Err(refusal(number, fault)),
        };
        let part = day.into_pages();
        note_pages(&mut self.yielded, part.pages());
        self.mode = Mode::Whole(ending);
        Ok(part)
    }

    /// The end of a file that was read whole, where the input has no more.
    fn end_whole<R: Read>(
        &mut self,
        input: &mut R,
        ending: Ending,
    ) -> Result<Option<NextTurns>, ReadFault>
        requires { self.old.mode ≡ Mode.Whole ending }
        ensures { Advances (R.remaining input.old) (R.remaining input.new) self.old self.new result }
    {
        let has_more = match self.window.read(input) {
            Ok(has_more) => has_more,
            Err(fault) => return Err(fault),
        };
        if has_more {
            self.mode = Mode::Grown;
            return Ok(None);
        }
        Ok(Some(NextTurns::End(ending)))
    }

    /// Reads more, and says whether there was any; where there was none all is as it was.
    fn read_more<R: Read>(&mut self, input: &mut R) -> Result<bool, ReadFault>
        requires { GrowsStill self.old.mode }
        ensures { MatchResult result
            (λ more. HasMore (R.remaining input.old) (R.remaining input.new) self.old self.new more)
            (λ fault. HasFailed (R.remaining input.old) (R.remaining input.new) self.old self.new fault) }
    {
        self.window.read(input)
    }

    /// Gives the pages that are held, where they are whole turns; else takes the page in front, or reads more.
    fn page<R: Read>(
        &mut self,
        alloc: Global,
        input: &mut R,
    ) -> Result<Option<NextTurns>, ReadFault>
        requires { self.old.mode ≡ Pages }
        ensures { Advances (R.remaining input.old) (R.remaining input.new) self.old self.new result }
    {
        if !self.held.is_empty() && self.judge.is_whole() {
            return Ok(Some(NextTurns::Turns(self.give(alloc))));
        }
        let size = match first_of_sum(self.window.left()) {
            Ok((page, _)) => page.len(),
            Err(fault) => return self.broken(input, fault),
        };
        if size == 0 {
            return self.over(input);
        }
        match self.take(size) {
            Ok(()) => Ok(None),
            Err(fault) => Err(fault),
        }
    }

    /// The pages that are held, which are whole turns.
    fn give(&mut self, alloc: Global) -> TurnPages
        requires pages { self.old.mode ≡ Pages }
        requires whole { day_fault (version_of self.old.taken) self.old.taken ≡ None }
        ensures read { self.new.read ≡ self.old.read }
        ensures given { GoOnBy self.old.yielded result self.new.yielded }
    {
        let held = mem::replace(&mut self.held, Vec::new(alloc));
        note_pages(&mut self.yielded, held.as_slice());
        TurnPages::of_judged(held)
    }

    /// Takes the page of so many bytes that stands in front, where it can stand behind those before.
    fn take(&mut self, size: usize) -> Result<(), ReadFault>
        requires pages { self.old.mode ≡ Pages }
        requires front { StandsInFront size self.old.left }
        requires some { 1 ≤ size }
        ensures read { self.new.read ≡ self.old.read }
        ensures yielded { self.new.yielded ≡ self.old.yielded }
        ensures refused { IfErr result (λ fault. IsNoneBy self.new.read fault) }
    {
        let (_, text) = self.window.left().split_at(16);
        let (page, _) = text.split_at(size);
        if let Err(fault) = hold(&mut self.judge, &mut self.held, page) {
            return Err(fault);
        }
        self.window.pass(16 + size);
        Ok(())
    }

    /// The end of a day that is over, where an end stands in front: the pages are a day, and nothing stands behind it.
    fn over<R: Read>(&mut self, input: &mut R) -> Result<Option<NextTurns>, ReadFault>
        requires pages { self.old.mode ≡ Pages }
        requires front { StandsInFront 0 self.old.left }
        requires whole { AreNotWhole self.old.taken self.old.held }
        ensures { Advances (R.remaining input.old) (R.remaining input.new) self.old self.new result }
    {
        if let Err(fault) = self.judge.end() {
            return Err(wrong_page(fault));
        }
        if self.window.left().len() > 16 {
            return Err(wrong_page((self.judge.count(), PageFault::Head)));
        }
        let has_more = match self.read_more(input) {
            Ok(has_more) => has_more,
            Err(fault) => return Err(fault),
        };
        if has_more {
            return Ok(None);
        }
        Ok(Some(NextTurns::End(Ending::Over)))
    }

    /// Reads more where no page stands in front, for this reason; where there is no more, or more than a write that was
    /// cut short leaves, how the file ends.
    fn broken<R: Read>(
        &mut self,
        input: &mut R,
        fault: FileFault,
    ) -> Result<Option<NextTurns>, ReadFault>
        requires pages { self.old.mode ≡ Pages }
        requires front { front_fault Two self.old.left ≡ Some fault }
        requires whole { AreNotWhole self.old.taken self.old.held }
        ensures { Advances (R.remaining input.old) (R.remaining input.new) self.old self.new result }
    {
        if fault == FileFault::Sum && self.window.left().len() >= TORN_LIMIT {
            return Err(ReadFault::NoFile(self.judge.count(), fault));
        }
        let has_more = match self.read_more(input) {
            Ok(has_more) => has_more,
            Err(fault) => return Err(fault),
        };
        if has_more {
            return Ok(None);
        }
        match self.ending(fault) {
            Ok(ending) => Ok(Some(NextTurns::End(ending))),
            Err(fault) => Err(fault),
        }
    }

    /// How a file ends that was read to its end, and in front of the rest of which no page stands, for this reason.
    fn ending(&self, fault: FileFault) -> Result<Ending, ReadFault>
        requires pages { self.now.mode ≡ Pages }
        requires front { front_fault Two self.now.left ≡ Some fault }
        requires whole { AreNotWhole self.now.taken self.now.held }
        ensures { MatchResult result (λ ending. Says self.now.read (kept_in self.now.yielded) ending)
            (λ fault. IsNoFileBy self.now.read fault) }
    {
        let left = self.window.left();
        if !is_unfinished(Version::Two, left) {
            return Err(ReadFault::NoFile(self.judge.count(), fault));
        }
        if let Err(fault) = self.judge.end() {
            return Err(wrong_page(fault));
        }
        if left.is_empty() {
            return Ok(Ending::GoesOn);
        }
        Ok(Ending::Torn(left.len()))
    }
}

/// Why a file that was read whole is none, or that memory ran out.
fn refusal(number: u32, fault: FileFault) -> ReadFault
    ensures { (file : List ℕ) → IsNoMemory number fault ⊎ IsNoFile file number fault → IsNoFileBy file result }
{
    if fault == FileFault::Page(PageFault::NoMemory) {
        return ReadFault::NoMemory;
    }
    ReadFault::NoFile(number, fault)
}

/// Notes pages behind others. It does nothing when it runs.
fn note_pages(noted: &mut NotedPages, pages: &[Vec<u8>])
    ensures { noted.new.pages ≡ noted.old.pages ++ texts pages.now }
{
    for page in pages {
        noted.note(page.as_slice());
    }
}

/// Judges a page behind those before, and holds a copy of it.
fn hold(judge: &mut DayJudge, held: &mut Vec<Vec<u8>>, page: &[u8]) -> Result<(), ReadFault>
    ensures { MatchResult result
        (λ nothing. (judge.new ≡ judge.old ++ page.now ∷ []) × (begun_fault (version_of judge.new) judge.new ≡ None)
        × (texts held.new.items ≡ texts held.old.items ++ page.now ∷ []))
        (λ fault. (judge.new ≡ judge.old) × (texts held.new.items ≡ texts held.old.items)
        × IsWrongPage judge.old page.now fault) }
{
    let Ok(copy) = Vec::from_slice(*held.allocator(), page) else {
        return Err(ReadFault::NoMemory);
    };
    if held.reserve(1).is_err() {
        return Err(ReadFault::NoMemory);
    }
    if let Err(fault) = judge.take(page) {
        return Err(wrong_page(fault));
    }
    held.push_reserved(copy);
    Ok(())
}
