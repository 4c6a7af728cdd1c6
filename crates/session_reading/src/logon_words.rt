//! What a Logon says.
//!
//! Source: FIX 4.4 Volume 2, "Logon".

ghost use Rattle.std.specs.Prelude.{◌≡◌, ◌||◌, not, true, unwrap_or, codes};
ghost use Rattle.fix_types.specs.fix_fields.Field as tags;
ghost use Rattle.session_law.specs.Messages as law;
ghost use Rattle.session_law.specs.Table as table;

use crate::words::{has, is_letter, number};
use fix_types::Fields;

/// Whether HeartBtInt (108) is 0 to 3,600 seconds, in decimal digits.
pub fn is_interval(m: &Fields) -> bool
    ensures { result ≡ table.is_interval (law.short_number 108 m.now) }
{
    match number(m, 108) {
        Some(interval) => interval <= 3600,
        None => false,
    }
}

/// HeartBtInt (108), in seconds.
pub fn interval_of(m: &Fields) -> u32
    requires { table.is_interval (law.short_number 108 m.now) ≡ true }
    ensures { result ≡ unwrap_or (law.short_number 108 m.now) 0 }
{
    match number(m, 108) {
        Some(interval) => interval as u32,
        None => 0,
    }
}

/// Whether ResetSeqNumFlag (141) is Y.
pub fn resets(m: &Fields) -> bool
    ensures { result ≡ table.resets m.now }
{
    is_letter(m, 141, b'Y')
}

/// Whether ResetSeqNumFlag (141) is missing, Y or N.
pub fn is_reset_flag(m: &Fields) -> bool
    ensures { result ≡ (not (tags.has 141 m.now) || (table.resets m.now || tags.is 141 (codes "N") m.now)) }
{
    !has(m, 141) || (resets(m) || is_letter(m, 141, b'N'))
}
