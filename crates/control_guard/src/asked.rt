//! What may be asked for.

/// What is shown.
#[derive(Clone, Copy)]
pub enum View {
    /// `/`: the page.
    Page,
    /// `/status.json`.
    Json,
    /// `/metrics`.
    Metrics,
}

/// What is done.
#[derive(Clone, Copy)]
pub enum Act {
    /// The day is ended, once the market's answers were awaited for a while.
    End,
    /// The day is ended at once.
    EndNow,
    /// The link of the client of this number, from 1, is ended.
    Disconnect(u16),
}

/// What a path asks for.
#[derive(Clone, Copy)]
pub enum Asked {
    Show(View),
    Do(Act),
}
