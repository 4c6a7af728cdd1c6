//! The versions of the format.

ghost use Rattle.std.specs.Prelude.{◌≡◌, take, bytes_eq};

/// A version of the journal's pages. Pages are written in the second; both are read.
#[derive(Clone, Copy, Debug, PartialEq, Eq)]
pub enum Version {
    /// A page is `GJ01` and records.
    One,
    /// A page is `GJ02`, eight bytes that are the number of records before it in the history, and records.
    Two,
}

impl Version {
    ghost use Rattle.journal_pages.specs.Page.{front_size, page_name, version_named};

    /// The version that a page's name says: the first where the page begins with `GJ01`, else the second.
    pub fn named(page: &[u8]) -> Version
        ensures { result ≡ version_named page.now }
    {
        if page.starts_with(b"GJ01") {
            Version::One
        } else {
            Version::Two
        }
    }

    /// Whether a page begins with this version's name.
    pub(crate) fn is_of(self, page: &[u8]) -> bool
        ensures { result ≡ bytes_eq (take 4 page.now) (page_name self) }
    {
        match self {
            Version::One => page.starts_with(b"GJ01"),
            Version::Two => page.starts_with(b"GJ02"),
        }
    }

    /// How many bytes stand before a page's first record.
    pub fn front_size(self) -> usize
        ensures { result ≡ front_size self }
    {
        match self {
            Version::One => 4,
            Version::Two => 12,
        }
    }
}
