//! Secrets that are compared.

ghost use Rattle.std.specs.Prelude.{◌≡◌, ◌&&◌, bytes_eq};

/// Whether both are the same. It looks at each byte of two texts of one length, so that the time it takes doesn't tell
/// how many of the first bytes are right.
pub(crate) fn is_same_secret(given: &[u8], wanted: &[u8]) -> bool
    ensures { result ≡ bytes_eq given.now wanted.now }
{
    given.len() == wanted.len() && are_same(given, wanted, true)
}

/// Whether two texts of one length are the same, and `so_far` holds, which tells of what stood before them.
fn are_same(given: &[u8], wanted: &[u8], so_far: bool) -> bool
    ensures { result ≡ so_far && bytes_eq given.now wanted.now }
{
    match (given, wanted) {
        ([one, given @ ..], [other, wanted @ ..]) => are_same(
            given,
            wanted,
            (one == other) & so_far,
        ),
        _ => so_far && given.len() == wanted.len(),
    }
}
