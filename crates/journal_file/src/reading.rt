//! A day's file, read.

ghost use Rattle.std.specs.Prelude.{◌≡◌, ◌⊎◌, ◌<◌, ◌^◌, ◌++◌, ◌∷◌, [], Some, length, min, true, false};
ghost use Rattle.std.specs.Prelude.{MatchOption, MatchResult, IfOk, OnOk, ◌≤◌};
ghost use Rattle.std.specs.Int.{w64, to_be_bytes};
ghost use Rattle.journal_days.specs.Cut.{texts};
ghost use Rattle.journal_days.specs.Day.{day_fault, version_of};
ghost use Rattle.journal_file.specs.Endings as endings;
ghost use Rattle.journal_file.specs.Endings.{EndsBy};
ghost use Rattle.journal_file.specs.File as spec;
ghost use Rattle.journal_file.specs.File.{front_fault, sized_page};
ghost use Rattle.journal_file.specs.Said.{IsNoFile, IsNoMemory, IsOpenAt, IsPartedDay, Says};
ghost use Rattle.journal_file.specs.Said.{ReadsInFront, ReadsNothingElse};
ghost use Rattle.journal_pages.specs.declared.fault.PageFault.TheVariants.{Head};
ghost use Rattle.journal_pages.specs.declared.version.Version.TheVariants.{One, Two};
ghost use Rattle.journal_file.specs.declared.ending.Ending.TheVariants.{Over};
ghost use Rattle.journal_file.specs.declared.fault.FileFault.TheVariants as faults;

use crate::ending::Ending;
use crate::fault::FileFault;
use crate::sum::sum_of;
use gate_journal::History;
use journal_days::DayJudge;
use journal_pages::{PageFault, Version};
use std::alloc::{AllocError, Global};

/// What a write that was cut short leaves has fewer bytes than this: 64 MiB.
pub(crate) const TORN_LIMIT: usize = 67_108_864;

/// What stands in front of a file, and what behind it.
type Parts<'a> = (&'a [u8], &'a [u8]);

/// A day's file, read: the history that its whole pages are, and how it ends behind them.
#[derive(Drop)]
pub struct DayFile {
    pub day: History,
    pub ending: Ending,
}

/// Whole pages of a file, and how it ends behind them; or the place of the page with which something is wrong, and
/// what.
type Parted = Result<(Vec<Vec<u8>>, Ending), (u32, FileFault)>;

/// The history that a file's whole pages are, and how the file ends behind them: the day goes on, it is over, or the
/// write of its last page was cut short. Of a file that is damaged the place of the first page with which something
/// is wrong, from 0, and what.
///
/// The first wrong page is named, be it that its bytes aren't whole or that it can't stand behind those before: where
/// no whole page and no end stands, `CutShort` for too few bytes or `Sum` for a sum that isn't theirs, with the place
/// that a page there would have, unless a write that was cut short left these bytes: fewer than 64 MiB, at none of
/// which a page or an end begins. Of a whole page what `judge_day` refuses. `Head` where bytes stand behind an end,
/// with the place of the page that they would be. A file of the first form is read where it is over. `NoMemory` has
/// the place 0.
pub fn read_file(alloc: Global, file: &[u8]) -> Result<DayFile, (u32, FileFault)>
    ensures read { MatchResult result (λ read. Says file.now read.day read.ending)
        (λ fault. IsNoMemory fault.0 fault.1 ⊎ IsNoFile file.now fault.0 fault.1) }
    ensures in_front { IfOk result (λ read. ReadsInFront file.now read.day) }
    ensures nothing_else { IfOk result (λ read. ReadsNothingElse file.now read.day) }
{
    let read = read_parts(alloc, file)?;
    Ok(read)
}

/// The same, by the definition alone.
fn read_parts(alloc: Global, file: &[u8]) -> Result<DayFile, (u32, FileFault)>
    ensures { MatchResult result (λ read. Says file.now read.day read.ending)
        (λ fault. IsNoMemory fault.0 fault.1 ⊎ IsNoFile file.now fault.0 fault.1) }
{
    let (pages, ending) = pages_of(alloc, form_of(file), file)?;
    match History::read(alloc, pages.as_slice()) {
        Ok(day) => Ok(DayFile { day, ending }),
        Err(_) => Err((0, FileFault::Page(PageFault::NoMemory))),
    }
}

/// The form of a file, by the name of its first page.
fn form_of(file: &[u8]) -> Version
    ensures { result ≡ spec.form_of file.now }
{
    if has_at(file, 16, b"GJ02") {
        return Version::Two;
    }
    if has_at(file, 8, b"GJ01") || is_end_of_one(file) {
        return Version::One;
    }
    Version::Two
}

/// Whether a file is an end of the first form, and nothing else.
fn is_end_of_one(file: &[u8]) -> bool
    ensures { result ≡ spec.is_end_of_one file.now }
{
    match number_in_front(file) {
        Some((size, rest)) => rest.is_empty() && size == 0,
        None => false,
    }
}

/// Whether a page's name stands at a place.
pub(crate) fn has_at(file: &[u8], place: usize, name: &[u8; 4]) -> bool
    ensures { result ≡ spec.stands_at place name.now file.now }
{
    match file.get(place..) {
        Some(rest) => rest.starts_with(name),
        None => false,
    }
}

/// The whole pages of a file of a form, which are a day, and how it ends behind them; or why it is no file.
fn pages_of(alloc: Global, form: Version, file: &[u8]) -> Parted
    requires { form ≡ spec.form_of file.now }
    ensures { MatchResult result (λ read. IsPartedDay form file.now (texts read.0.items) read.1)
        (λ fault. IsNoMemory fault.0 fault.1 ⊎ IsNoFile file.now fault.0 fault.1) }
{
    let mut judge = DayJudge::new();
    let mut pages = Vec::new(alloc);
    let mut rest = file;
    'pages: loop {
        let (page, behind) = match first_sized(form, rest) {
            Ok(parts) => parts,
            Err(fault) => return unfinished(form, &judge, pages, rest, fault),
        };
        if page.is_empty() {
            return whole(&judge, pages, behind);
        }
        if let Err((number, fault)) = judge.take(page) {
            return Err((number, FileFault::Page(fault)));
        }
        if push_page(&mut pages, page).is_err() {
            return Err((0, FileFault::Page(PageFault::NoMemory)));
        }
        rest = behind;
    }
}

/// The pages before an end: they are a day, and nothing may stand behind.
fn whole(judge: &DayJudge, pages: Vec<Vec<u8>>, behind: &[u8]) -> Parted
    ensures { MatchResult result
        (λ read. (read.0 ≡ pages) × (read.1 ≡ Over) × (behind.now ≡ [])
        × (day_fault (version_of judge.now) judge.now ≡ None))
        (λ fault. IsOpenAt judge.now fault.0 fault.1 ⊎ ((fault.0 ≡ min (length judge.now) 4_294_967_295)
        × (fault.1 ≡ faults.Page Head) × (1 ≤ length behind.now)
        × (day_fault (version_of judge.now) judge.now ≡ None))) }
{
    if let Err((number, fault)) = judge.end() {
        return Err((number, FileFault::Page(fault)));
    }
    if behind.is_empty() {
        Ok((pages, Ending::Over))
    } else {
        Err((judge.count(), FileFault::Page(PageFault::Head)))
    }
}

/// The pages before bytes in front of which no page stands, for this reason: the day goes on where a write that was cut
/// short left them, or there are none, and the pages are a day.
fn unfinished(
    form: Version,
    judge: &DayJudge,
    pages: Vec<Vec<u8>>,
    rest: &[u8],
    fault: FileFault,
) -> Parted
    ensures { MatchResult result
        (λ read. (read.0 ≡ pages) × EndsBy form rest.now read.1
        × (day_fault (version_of judge.now) judge.now ≡ None))
        (λ why. (IsOpenAt judge.now why.0 why.1 × (endings.is_unfinished form rest.now ≡ true))
        ⊎ ((why.0 ≡ min (length judge.now) 4_294_967_295) × (why.1 ≡ fault)
        × (endings.is_unfinished form rest.now ≡ false))) }
{
    if !is_unfinished(form, rest) {
        return Err((judge.count(), fault));
    }
    if let Err((number, fault)) = judge.end() {
        return Err((number, FileFault::Page(fault)));
    }
    if rest.is_empty() {
        return Ok((pages, Ending::GoesOn));
    }
    Ok((pages, Ending::Torn(rest.len())))
}

/// Whether the day may go on in front of these bytes, once they are cut.
pub(crate) fn is_unfinished(form: Version, rest: &[u8]) -> bool
    ensures { result ≡ endings.is_unfinished form rest.now }
{
    match form {
        Version::One => false,
        Version::Two => rest.len() < TORN_LIMIT && !stands_somewhere(rest),
    }
}

/// Whether a page or an end stands whole at some place of these bytes.
fn stands_somewhere(bytes: &[u8]) -> bool
    ensures { result ≡ endings.stands_somewhere bytes.now }
{
    let mut rest = bytes;
    while let [_, behind @ ..] = rest {
        if stands_in_front(rest) {
            return true;
        }
        rest = behind;
    }
    false
}

/// Whether a page or an end stands whole in front of these bytes.
fn stands_in_front(bytes: &[u8]) -> bool
    ensures { result ≡ endings.stands_in_front bytes.now }
{
    match first_of_sum(bytes) {
        Ok(_) => true,
        Err(_) => false,
    }
}

/// A page more, copied.
fn push_page(pages: &mut Vec<Vec<u8>>, page: &[u8]) -> Result<(), AllocError>
    ensures { OnOk result (texts pages.new.items ≡ texts pages.old.items ++ page.now ∷ []) }
{
    let copy = Vec::from_slice(*pages.allocator(), page)?;
    pages.push(copy)?;
    Ok(())
}

/// The page in front of these bytes, behind what stands before it, and what stands behind it; or why there is none:
/// `CutShort` where there are fewer bytes than stand before a page, or than its length says, `Sum` where its sum isn't
/// that of its bytes.
fn first_sized<'a>(form: Version, bytes: &'a [u8]) -> Result<Parts<'a>, FileFault>
    ensures { MatchResult result (λ parts. bytes.now ≡ sized_page form parts.0.now ++ parts.1.now)
        (λ fault. front_fault form bytes.now ≡ Some fault) }
{
    match form {
        Version::One => first_of_length(bytes),
        Version::Two => first_of_sum(bytes),
    }
}

/// The same of the first form.
fn first_of_length<'a>(bytes: &'a [u8]) -> Result<Parts<'a>, FileFault>
    ensures { MatchResult result (λ parts. bytes.now ≡ sized_page One parts.0.now ++ parts.1.now)
        (λ fault. front_fault One bytes.now ≡ Some fault) }
{
    let Some((size, rest)) = number_in_front(bytes) else {
        return Err(FileFault::Page(PageFault::CutShort));
    };
    if (rest.len() as u64) < size {
        return Err(FileFault::Page(PageFault::CutShort));
    }
    Ok(rest.split_at(size as usize))
}

/// The same of the second form.
pub(crate) fn first_of_sum<'a>(bytes: &'a [u8]) -> Result<Parts<'a>, FileFault>
    ensures { MatchResult result (λ parts. bytes.now ≡ sized_page Two parts.0.now ++ parts.1.now)
        (λ fault. front_fault Two bytes.now ≡ Some fault) }
{
    let Some((size, rest)) = number_in_front(bytes) else {
        return Err(FileFault::Page(PageFault::CutShort));
    };
    let Some((sum, text)) = number_in_front(rest) else {
        return Err(FileFault::Page(PageFault::CutShort));
    };
    if (text.len() as u64) < size {
        return Err(FileFault::Page(PageFault::CutShort));
    }
    let (page, behind) = text.split_at(size as usize);
    if sum_of(page) != sum {
        return Err(FileFault::Sum);
    }
    Ok((page, behind))
}

/// The number of the eight bytes in front, the high byte first, and what stands behind them; `None` of fewer.
fn number_in_front<'a>(bytes: &'a [u8]) -> Option<(u64, &'a [u8])>
    ensures { MatchOption result (length bytes.now < 8)
        (λ parts. (bytes.now ≡ to_be_bytes w64 parts.0 ++ parts.1.now) × (parts.0 < 2 ^ 64)) }
{
    let [a, b, c, d, e, f, g, h, rest @ ..] = bytes else {
        return None;
    };
    Some((u64::from_be_bytes([*a, *b, *c, *d, *e, *f, *g, *h]), rest))
}
