//! What became of the next event of a stream.

/// What became of the next event of a stream.
#[derive(Clone, Copy)]
pub enum Next {
    /// It was put.
    Put,
    /// It was given back.
    GivenBack,
    /// There is none yet.
    Nothing,
}
