//! How a day's file ends.

/// How a day's file ends, by what stands behind its last whole page.
#[derive(Clone, Copy, Debug, PartialEq, Eq)]
pub enum Ending {
    /// The day goes on: nothing stands there.
    GoesOn,
    /// The day is over: an end stands there, and nothing behind it.
    Over,
    /// The day goes on, and what was written last was cut short: so many bytes stand there, at none of which a page
    /// or an end begins. Nobody was told what they say.
    Torn(usize),
}
