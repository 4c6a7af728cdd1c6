//! The journal's pages: events and what they gave, as records of bytes that can be kept, sent and read again.
//!
//! A page is `GJ02`, the number of records before it in the history (8 bytes) and records; a record is a kind (1 byte),
//! a source (2), a link (8), a moment (8), the length of the payload (4) and the payload, numbers with the high byte
//! first. A text that isn't such records is refused whole, for the first thing that is wrong with it. Pages of version
//! 1, `GJ01` and records without a number, are judged and read too.
//!
//! `Noted` and `NotedPages` are bytes that only clauses see: those that a file was given, say. They take no memory, and
//! noting them costs nothing.
//!
//! The format is the gateway's own.
#![tactic(auto)]

mod bytes;
mod fault;
mod head;
mod kind;
mod laws;
mod list;
mod page;
mod pages;
mod place;
mod reading;
mod records;
mod version;
mod view;

pub use bytes::PageBytes;
pub use fault::PageFault;
pub use head::RecordHead;
pub use kind::RecordKind;
pub use laws::{written_lists_are_read, written_records_are_read};
pub use list::Noted;
pub use page::{Page, judge, page_number};
pub use pages::NotedPages;
pub use place::Place;
pub use reading::front;
pub use records::Records;
pub use version::Version;
pub use view::RecordView;
