//! The forms of an export.

/// A form of an export.
#[derive(Clone, Copy, Debug, PartialEq, Eq)]
pub enum Format {
    /// Values that are separated by commas, behind a line with the names of the columns.
    Csv,
    /// An object of JSON a line.
    Json,
    /// A message a line, with `|` between its fields.
    Messages,
}

/// The form of this name, `csv` where nothing is said; `None` of any other name.
pub fn format_of(said: Option<&str>) -> Option<Format> {
    match said {
        None | Some("csv") => Some(Format::Csv),
        Some("json") => Some(Format::Json),
        Some("messages") => Some(Format::Messages),
        Some(_) => None,
    }
}
