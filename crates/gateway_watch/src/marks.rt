//! The ages at which a wait is told.

ghost use Rattle.std.specs.Prelude.{◌≡◌};
ghost use Rattle.std.specs.List.{list_any};
ghost use Rattle.gateway_watch.specs.Waits as spec;

/// Ten seconds, and each doubling, for two years and more, in milliseconds.
const MARKS: [u64; 24] = [
    10_000,
    20_000,
    40_000,
    80_000,
    160_000,
    320_000,
    640_000,
    1_280_000,
    2_560_000,
    5_120_000,
    10_240_000,
    20_480_000,
    40_960_000,
    81_920_000,
    163_840_000,
    327_680_000,
    655_360_000,
    1_310_720_000,
    2_621_440_000,
    5_242_880_000,
    10_485_760_000,
    20_971_520_000,
    41_943_040_000,
    83_886_080_000,
];

/// Whether a wait passes a mark as it gets from one age to another, in milliseconds.
pub(crate) fn passes(before: u64, age: u64) -> bool
    ensures { result ≡ spec.passes before age }
{
    passes_any(&MARKS, before, age)
}

/// Whether it passes one of these.
fn passes_any(marks: &[u64], before: u64, age: u64) -> bool
    ensures { result ≡ list_any (spec.passes_mark before age) marks.now }
{
    marks.iter().any(|mark| before < *mark && *mark <= age)
}
