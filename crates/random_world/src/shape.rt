//! Which world a seed makes.

/// A world of a seed: how many steps are drawn, and between how many clients and ports.
#[derive(Clone, Copy, Debug, PartialEq, Eq)]
pub struct Shape {
    pub seed: u64,
    /// Besides, each client logs on first, and last all that is on its way is delivered.
    pub steps: u32,
    /// 1 to 64.
    pub clients: u16,
    /// 1 to 16.
    pub ports: u16,
}
