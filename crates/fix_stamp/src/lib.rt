//! Moments as FIX writes them: `YYYYMMDD-HH:MM:SS.sss` in UTC.
//!
//! A moment is handed in, in milliseconds since 1970; no clock is read here.
//!
//! Source: FIX 4.4 Volume 1, "FIX Data Types", UTCTimestamp.
#![tactic(auto)]

mod moment;

pub use moment::stamp;
