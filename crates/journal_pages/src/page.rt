//! A page.

ghost use Rattle.std.specs.Prelude.{◌≡◌, ◌++◌, ◌⊎◌, Some, None, MatchResult, true, length, drop};
ghost use Rattle.std.specs.List.{flat_map};
ghost use Rattle.journal_pages.specs.Page as format;
ghost use Rattle.journal_pages.specs.Page.{is_page, page_fault, page_front, page_records};
ghost use Rattle.journal_pages.specs.Record.{record_bytes};
ghost use Rattle.journal_pages.specs.declared.fault.PageFault.TheVariants.{NoMemory};
ghost use Rattle.journal_pages.specs.declared.version.Version.TheVariants.{Two};

use crate::bytes::PageBytes;
use crate::fault::PageFault;
use crate::place::Place;
use crate::reading::{HEAD, front, long_number_at};
use crate::records::Records;
use crate::version::Version;
use std::alloc::{AllocError, Global};
use wire_law::WholeWire;

/// Bytes that are a page of version 2: its name, a number, and records in their order, each with what its kind has.
#[derive(Drop)]
pub struct Page {
    pub bytes: PageBytes,
    ghost whole: { is_page bytes ≡ true },
}

impl Page {
    ghost use Rattle.journal_pages.specs.Ordered.{AreSound, order_fault};
    ghost use Rattle.journal_pages.specs.Seen.{records_ahead};
    ghost use Rattle.journal_pages.specs.declared.place.Place.TheVariants.{PageStart};

    /// The page of version 2 that a text is, whatever its number. Records are judged one after another, each for
    /// `CutShort`, `Kind`, `Payload` and `Order`, in this order; the first that is found is given. `NoMemory` says
    /// nothing of the text: one growth.
    pub fn read(alloc: Global, text: &[u8]) -> Result<Page, PageFault>
        ensures { MatchResult result (λ page. page.bytes ≡ text.now)
            (λ fault. (fault ≡ NoMemory) ⊎ (page_fault Two text.now ≡ Some fault)) }
    {
        judge(Version::Two, text)?;
        Ok(Page {
            bytes: PageBytes::of(alloc, text)?,
        })
    }

    /// Its records, one by one, lent where they lie: all of them, so that written one behind another, behind the name
    /// and the number, they are the page, and in its order. Takes no memory.
    pub fn records(&self) -> Records<'_>
        ensures records { records_ahead result ≡ page_records Two self.now.bytes }
        ensures whole { self.now.bytes
            ≡ page_front (format.page_number self.now.bytes) ++ flat_map record_bytes (records_ahead result) }
        ensures ordered { order_fault PageStart (records_ahead result) ≡ None }
        ensures sound { AreSound (records_ahead result) }
    {
        let text = self.bytes.as_slice();
        is_spelled(text);
        let (_, records) = text.split_at(Version::Two.front_size());
        Records::of(records)
    }
}

impl WholeWire for Page {
    ghost use Rattle.journal_pages.specs.Pages.{IsPage, IsPage-bytes, bytes_of, one_page};

    ghost bytes = { bytes_of };

    ghost is_spelled = { IsPage };

    ghost again = { IsPage-bytes };

    ghost one_value = { one_page };

    fn put(&self, out: &mut Vec<u8>) -> Result<(), AllocError> {
        out.extend_from_slice(self.bytes.as_slice())
    }

    fn get(alloc: Global, b: &[u8]) -> Result<Option<Self>, AllocError> {
        match Page::read(alloc, b) {
            Ok(page) => Ok(Some(page)),
            Err(PageFault::NoMemory) => Err(AllocError),
            Err(_) => Ok(None),
        }
    }
}

/// A page is its name, its number and its records, written one behind another. It does nothing: its contract says it.
fn is_spelled(text: &[u8])
    requires { is_page text.now ≡ true }
    ensures { text.now ≡ page_front (format.page_number text.now) ++ flat_map record_bytes (page_records Two text.now) }
{}

/// The number of a page of version 2: how many records of the history stand before it. Of a text that is shorter than
/// what stands before a page's records it is 0. Takes no memory.
pub fn page_number(text: &[u8]) -> u64
    ensures { result ≡ format.page_number text.now }
{
    if text.len() < 12 {
        return 0;
    }
    long_number_at(text, 4)
}

/// Nothing, where a text is a page of a version; else the first thing that is wrong with it. Takes no memory.
pub fn judge(version: Version, text: &[u8]) -> Result<(), PageFault>
    ensures { MatchResult result (λ nothing. page_fault version text.now ≡ None)
        (λ fault. page_fault version text.now ≡ Some fault) }
{
    let start = version.front_size();
    if !version.is_of(text) || text.len() < start {
        return Err(PageFault::Head);
    }
    if text.len() == start {
        return Err(PageFault::CutShort);
    }
    let mut place = Place::PageStart;
    let mut at = start;
    while at < text.len() {
        let (_, rest) = text.split_at(at);
        let next = front(rest)?;
        place = place.after(&next)?;
        at += HEAD + next.payload.len();
    }
    Ok(())
}
