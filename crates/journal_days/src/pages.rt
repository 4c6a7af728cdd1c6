//! Pages that records are written into.

ghost use Rattle.std.specs.Prelude.{◌≡◌, ◌+◌, ◌<◌, ◌≤◌, ◌++◌, ◌∷◌, [], ℕ, List, drop, length, true, false};
ghost use Rattle.std.specs.Prelude.{◌%◌, ◌^◌, IfOk, OnOk, OnErr};
ghost use Rattle.std.specs.Option.{option_map};
ghost use Rattle.journal_pages.specs.Record.{Record, payload_limit};
ghost use Rattle.journal_pages.specs.Seen.{record_of, record_seen};
ghost use Rattle.journal_pages.specs.declared.version.Version.TheVariants.{One};
ghost use Rattle.journal_days.specs.Day.{day_records};
ghost use Rattle.journal_pages.specs.Ordered.{AreWritable, IsWritable};
ghost use Rattle.journal_days.specs.Cut as spec;
ghost use Rattle.journal_days.specs.Cut.{cut_back, last_cut, next_number, page_with, record_text, texts};
ghost use Rattle.journal_days.specs.Cut.{with_records, with_text};

use crate::numbers::next_number;
use crate::records::DayRecords;
use journal_pages::{RecordHead, RecordView, Version};
use std::alloc::{AllocError, Global};
use std::marker::Model;

/// What a page begins with: the journal's name and version.
const PAGE_NAME: &[u8; 4] = b"GJ02";

/// How many bytes stand before a record's payload.
const HEAD: usize = 23;

/// A page has at most so many bytes, but for one with a single record.
const PAGE_LIMIT: usize = 65_536;

/// Where pages end: how many there are, and how many bytes the last one has.
#[derive(Clone, Copy)]
pub struct PagesMark {
    pub pages: usize,
    pub bytes: usize,
}

/// The journal's pages, the oldest first. Contracts see the bytes of each.
#[derive(Drop)]
pub struct DayPages {
    pages: Vec<Vec<u8>>,
    /// The number of the page that comes next, where the last page is known to be records to its end.
    next: Option<u64>,
}

impl Model for DayPages {
    ghost use Rattle.std.specs.Prelude.{◌≡◌, List, ℕ, Some};
    ghost use Rattle.journal_days.specs.Cut.{texts};
    ghost use Rattle.journal_days.specs.Counted.{IsCounted};

    ghost Value = { List (List ℕ) };

    ghost view = { λ d. texts d.pages.items };

    ghost invariant = { λ d. (n : ℕ) → d.next ≡ Some n → IsCounted n (texts d.pages.items) };
}

impl DayPages {
    /// No pages. Takes no memory.
    pub fn new(alloc: Global) -> DayPages
        ensures { result ≡ [] }
    {
        DayPages {
            pages: Vec::new(alloc),
            next: None,
        }
    }

    /// These pages, copied. A growth for each, and one more.
    pub fn copied(alloc: Global, pages: &[Vec<u8>]) -> Result<DayPages, AllocError>
        ensures { IfOk result (λ copy. copy ≡ texts pages.now) }
    {
        let mut copies = Vec::with_capacity(alloc, pages.len())?;
        for page in pages {
            push_page(&mut copies, Vec::from_slice(alloc, page.as_slice())?)?;
        }
        Ok(DayPages {
            pages: copies,
            next: None,
        })
    }

    /// The records of pages of version 1, written anew in version 2. Two growths at most for each record.
    pub fn rewritten(alloc: Global, pages: &[Vec<u8>]) -> Result<DayPages, AllocError>
        ensures written { IfOk result (λ written. written ≡ with_records [] (day_records One (texts pages.now))) }
        ensures writable { IfOk result (λ written. AreWritable (day_records One (texts pages.now))) }
    {
        let mut written = DayPages::new(alloc);
        let mut ahead = DayRecords::of(Version::One, pages);
        while let Some((record, behind)) = ahead.split_first() {
            written.append_view(&record)?;
            ahead = behind;
        }
        Ok(written)
    }

    /// One record more, as it was read.
    fn append_view(&mut self, record: &RecordView<'_>) -> Result<(), AllocError>
        ensures { OnOk result (self.new ≡ with_text self.old (record_text (record_seen record.now))) }
    {
        let head = RecordHead {
            kind: record.kind,
            source: record.source,
            link: record.link,
            at: record.at,
        };
        self.append(&head, record.payload, &[])
    }

    /// One record more, of this head and a payload in two pieces, one behind the other: in the last page where it has
    /// room, else in a new one. `AllocError` leaves the pages as they were. Two growths at most.
    pub fn append(&mut self, head: &RecordHead, front: &[u8], back: &[u8]) -> Result<(), AllocError>
        requires { length front.now + length back.now < payload_limit }
        ensures ok { OnOk result (self.new
            ≡ with_text self.old (record_text (record_of head.now (front.now ++ back.now)))) }
        ensures err { OnErr result (self.new ≡ self.old) }
    {
        self.next = None;
        append_record(&mut self.pages, head, front, back)
    }

    /// The same of a record whose bytes say it: so the number of the page behind stays known, and no page is read again
    /// for it.
    pub fn append_writable(
        &mut self,
        head: &RecordHead,
        front: &[u8],
        back: &[u8],
    ) -> Result<(), AllocError>
        requires limit { length front.now + length back.now < payload_limit }
        requires writable { IsWritable (record_of head.now (front.now ++ back.now)) }
        ensures ok { OnOk result (self.new
            ≡ with_text self.old (record_text (record_of head.now (front.now ++ back.now)))) }
        ensures err { OnErr result (self.new ≡ self.old) }
    {
        let size = HEAD + front.len() + back.len();
        if !last_has_room(self.pages.as_slice(), size) {
            return self.begin_writable(head, front, back);
        }
        append_last(&mut self.pages, head, front, back)?;
        self.next = number_after(self.next);
        Ok(())
    }

    /// The same of a record for which the last page has no room: it begins a page.
    fn begin_writable(
        &mut self,
        head: &RecordHead,
        front: &[u8],
        back: &[u8],
    ) -> Result<(), AllocError>
        requires limit { length front.now + length back.now < payload_limit }
        requires writable { IsWritable (record_of head.now (front.now ++ back.now)) }
        requires full { spec.last_has_room self.old (23 + length front.now + length back.now) ≡ false }
        ensures ok { OnOk result (self.new
            ≡ with_text self.old (record_text (record_of head.now (front.now ++ back.now)))) }
        ensures err { OnErr result (self.new ≡ self.old) }
    {
        let number = number_of(self.next, self.pages.as_slice());
        begin_page(&mut self.pages, number, head, front, back)?;
        self.next = Some(number.wrapping_add(1));
        Ok(())
    }

    /// The bytes of each page, the oldest first.
    pub fn as_slice(&self) -> &[Vec<u8>]
        ensures { texts result.now ≡ self.now }
    {
        &self.pages
    }

    /// The pages themselves, the oldest first. Takes no memory.
    pub fn into_vec(self) -> Vec<Vec<u8>>
        ensures { texts result.items ≡ self }
    {
        self.pages
    }

    /// Drops the first page, where there is one. Takes no memory.
    pub fn drop_first(&mut self)
        ensures { self.new ≡ drop 1 self.old }
    {
        if self.pages.is_empty() {
            return;
        }
        let _ = self.pages.remove(0);
        if self.pages.is_empty() {
            self.next = None;
        }
    }

    /// Where the pages end now: `undo` brings them back to it, whatever records came behind. Takes no memory.
    pub fn mark(&self) -> PagesMark
        ensures { (rs : List Record) → cut_back result.pages result.bytes (with_records self.now rs) ≡ self.now }
    {
        PagesMark {
            pages: self.pages.len(),
            bytes: last_size(&self.pages),
        }
    }

    /// Leaves so many pages, and so many bytes of the last one. Takes no memory.
    pub fn undo(&mut self, mark: PagesMark)
        ensures { self.new ≡ cut_back mark.pages mark.bytes self.old }
    {
        self.next = None;
        self.pages.truncate(mark.pages);
        cut_last(&mut self.pages, mark.bytes);
    }
}

/// How many bytes the last page has, 0 where there is none.
fn last_size(pages: &[Vec<u8>]) -> usize
    ensures { result ≡ spec.last_size (texts pages.now) }
{
    match pages.last() {
        Some(last) => last.as_slice().len(),
        None => 0,
    }
}

/// Leaves so many bytes of the last page.
fn cut_last(pages: &mut Vec<Vec<u8>>, bytes: usize)
    ensures { texts pages.new.items ≡ last_cut bytes (texts pages.old.items) }
{
    let Some(mut last) = pages.pop() else {
        return;
    };
    last.truncate(bytes);
    pages.push_reserved(last);
}

/// The number one further, as a number of 64 bits.
fn number_after(next: Option<u64>) -> Option<u64>
    ensures { result ≡ option_map (λ n. (n + 1) % 2 ^ 64) next }
{
    match next {
        Some(number) => Some(number.wrapping_add(1)),
        None => None,
    }
}

/// One record more behind these pages.
fn append_record(
    pages: &mut Vec<Vec<u8>>,
    head: &RecordHead,
    front: &[u8],
    back: &[u8],
) -> Result<(), AllocError>
    requires { length front.now + length back.now < payload_limit }
    ensures ok { OnOk result (texts pages.new.items
        ≡ with_text (texts pages.old.items) (record_text (record_of head.now (front.now ++ back.now)))) }
    ensures err { OnErr result (texts pages.new.items ≡ texts pages.old.items) }
{
    let size = HEAD + front.len() + back.len();
    if !last_has_room(pages.as_slice(), size) {
        let number = next_number(pages.as_slice());
        return begin_page(pages, number, head, front, back);
    }
    append_last(pages, head, front, back)
}

/// Whether a record of this size goes into the last page.
fn last_has_room(pages: &[Vec<u8>], size: usize) -> bool
    ensures { result ≡ spec.last_has_room (texts pages.now) size }
{
    match pages.last() {
        Some(last) => has_room(last.as_slice(), size),
        None => false,
    }
}

/// Whether a record of this size goes into a page.
fn has_room(page: &[u8], size: usize) -> bool
    ensures { result ≡ spec.has_room page.now size }
{
    size <= PAGE_LIMIT && page.len() <= PAGE_LIMIT - size
}

/// One record more in the last page.
fn append_last(
    pages: &mut Vec<Vec<u8>>,
    head: &RecordHead,
    front: &[u8],
    back: &[u8],
) -> Result<(), AllocError>
    requires some { 1 ≤ length pages.old.items }
    requires limit { length front.now + length back.now < payload_limit }
    requires room { spec.last_has_room (texts pages.old.items) (23 + length front.now + length back.now) ≡ true }
    ensures ok { OnOk result (texts pages.new.items
        ≡ with_text (texts pages.old.items) (record_text (record_of head.now (front.now ++ back.now)))) }
    ensures err { OnErr result (texts pages.new.items ≡ texts pages.old.items) }
{
    let last = pages.len() - 1;
    append_text(&mut pages[last], head, front, back)
}

/// A new page with one record. It has the number of the page behind these.
fn begin_page(
    pages: &mut Vec<Vec<u8>>,
    number: u64,
    head: &RecordHead,
    front: &[u8],
    back: &[u8],
) -> Result<(), AllocError>
    requires limit { length front.now + length back.now < payload_limit }
    requires number { number ≡ spec.next_number (texts pages.old.items) }
    ensures ok { OnOk result (texts pages.new.items ≡ texts pages.old.items
        ++ page_with (next_number (texts pages.old.items))
        (record_text (record_of head.now (front.now ++ back.now))) ∷ []) }
    ensures err { OnErr result (texts pages.new.items ≡ texts pages.old.items) }
{
    let page = page_of(*pages.allocator(), number, head, front, back)?;
    push_page(pages, page)
}

/// The number of the page behind these: this one, where it is known.
fn number_of(next: Option<u64>, pages: &[Vec<u8>]) -> u64
    requires { (n : ℕ) → next ≡ Some n → spec.next_number (texts pages.now) ≡ n }
    ensures { result ≡ spec.next_number (texts pages.now) }
{
    match next {
        Some(number) => number,
        None => next_number(pages),
    }
}

/// One page more.
fn push_page(pages: &mut Vec<Vec<u8>>, page: Vec<u8>) -> Result<(), AllocError>
    ensures ok { OnOk result (texts pages.new.items ≡ texts pages.old.items ++ page.items ∷ []) }
    ensures err { OnErr result (texts pages.new.items ≡ texts pages.old.items) }
{
    pages.push(page)?;
    Ok(())
}

/// A page with this number and one record, with room for more.
fn page_of(
    alloc: Global,
    number: u64,
    head: &RecordHead,
    front: &[u8],
    back: &[u8],
) -> Result<Vec<u8>, AllocError>
    requires { length front.now + length back.now < payload_limit }
    ensures { IfOk result (λ page. page.items
        ≡ page_with number (record_text (record_of head.now (front.now ++ back.now)))) }
{
    let mut page = Vec::with_capacity(alloc, PAGE_LIMIT)?;
    page.extend_from_slice(PAGE_NAME)?;
    page.extend_from_slice(&number.to_be_bytes())?;
    append_text(&mut page, head, front, back)?;
    Ok(page)
}

/// One record more in a page.
#[inline(always)]
fn append_text(
    page: &mut Vec<u8>,
    head: &RecordHead,
    front: &[u8],
    back: &[u8],
) -> Result<(), AllocError>
    requires { length front.now + length back.now < payload_limit }
    ensures ok { OnOk result (page.new.items
        ≡ page.old.items ++ record_text (record_of head.now (front.now ++ back.now))) }
    ensures err { OnErr result (page.new.items ≡ page.old.items) }
{
    head.append(page, front, back)
}
