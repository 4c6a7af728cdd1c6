//! What is asked of a script's program.

/// What the command line of a script's program asks for. By default none of it is.
#[derive(Clone, Copy, Debug, PartialEq, Eq)]
pub struct Flags {
    /// `--num`: the sequence number (34) of a frame is shown.
    pub num: bool,
    /// `--raw`: a frame is shown whole, as it goes over its link.
    pub raw: bool,
    /// `--cold`: no client is logged on and no port logged in before the first line.
    pub cold: bool,
}
