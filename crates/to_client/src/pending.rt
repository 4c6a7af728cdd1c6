//! The requests on an order that were accepted and aren't answered.

use crate::shown::Request;
use orders::Replacing;

/// The requests on an order that were accepted and aren't answered: replaces, the oldest first, and a cancel that was
/// accepted after them.
#[derive(Clone, Copy)]
pub struct Pending<'a> {
    pub replaces: &'a [Replacing],
    pub cancel: Option<Request<'a>>,
}
