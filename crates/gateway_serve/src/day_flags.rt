//! How far the end of a day has come.

use std::sync::atomic::{AtomicBool, Ordering};

/// How far the end of a day has come, as the links of clients and ports see it.
#[derive(Drop)]
pub(crate) struct DayFlags {
    /// No further link of a client is taken.
    is_closing: AtomicBool,
    /// The links of clients end.
    are_clients_over: AtomicBool,
    /// The links of ports end.
    is_over: AtomicBool,
}

impl DayFlags {
    /// Of a day that isn't ended. Takes no memory.
    pub(crate) fn new() -> DayFlags {
        DayFlags {
            is_closing: AtomicBool::new(false),
            are_clients_over: AtomicBool::new(false),
            is_over: AtomicBool::new(false),
        }
    }

    /// From now on no further link of a client is taken.
    pub(crate) fn close(&self) {
        self.is_closing.store(true, Ordering::SeqCst);
    }

    pub(crate) fn is_closing(&self) -> bool {
        self.is_closing.load(Ordering::SeqCst)
    }

    /// From now on the links of clients end.
    pub(crate) fn end_clients(&self) {
        self.close();
        self.are_clients_over.store(true, Ordering::SeqCst);
    }

    /// The flag that the links of clients look at.
    pub(crate) fn clients(&self) -> &AtomicBool {
        &self.are_clients_over
    }

    /// Whether the links of ports end.
    pub(crate) fn is_over(&self) -> bool {
        self.is_over.load(Ordering::SeqCst)
    }

    /// The flag that the links of ports look at. It is set once the last client's links have ended.
    pub(crate) fn ports(&self) -> &AtomicBool {
        &self.is_over
    }
}
