//! The text of a moment.

ghost use Rattle.std.specs.Prelude.{◌≡◌, ◌≤◌, ◌%◌, ◌+◌, pos, true};
ghost use Rattle.std.specs.List.{list_all};
ghost use Rattle.jiff_core.specs.Date.{epoch_day};
ghost use Rattle.fix_stamp.specs.Stamp.{stamp_text, is_value_byte, calendar_day as calendar_day_of};
ghost use Rattle.fix_stamp.specs.Stamp.{last_digit as last_digit_of};

use jiff::Timestamp;
use jiff::civil::Date;
use jiff::tz::Offset;

/// The greatest moment that is stamped as itself.
const GREATEST_MOMENT: u64 = 250_000_000_000_000;

const MILLISECONDS_OF_A_DAY: u64 = 86_400_000;

const SECONDS_OF_A_DAY: i64 = 86_400;

/// The text `YYYYMMDD-HH:MM:SS.sss` of a moment, in UTC, from its milliseconds since 1970. A moment above
/// 250,000,000,000,000, in the year 9892, is stamped as that one. Takes no memory.
///
/// It may be a field's value: no SOH stands in it.
///
/// Source: FIX 4.4 Volume 1, "FIX Data Types", UTCTimestamp.
pub fn stamp(ms: u64) -> [u8; 21]
    ensures text { result ≡ stamp_text ms }
    ensures value { list_all is_value_byte (stamp_text ms) ≡ true }
{
    let ms = ms.min(GREATEST_MOMENT);
    let CalendarDay { year, month, day } = calendar_day((ms / MILLISECONDS_OF_A_DAY) as u32);
    let time = ms % MILLISECONDS_OF_A_DAY;
    [
        last_digit(year / 1_000),
        last_digit(year / 100),
        last_digit(year / 10),
        last_digit(year),
        last_digit(month / 10),
        last_digit(month),
        last_digit(day / 10),
        last_digit(day),
        b'-',
        last_digit(time / 3_600_000 / 10),
        last_digit(time / 3_600_000),
        b':',
        last_digit(time / 60_000 % 60 / 10),
        last_digit(time / 60_000 % 60),
        b':',
        last_digit(time / 1_000 % 60 / 10),
        last_digit(time / 1_000 % 60),
        b'.',
        last_digit(time % 1_000 / 100),
        last_digit(time % 1_000 / 10),
        last_digit(time % 1_000),
    ]
}

/// A day of the calendar, from 1970 on.
#[derive(Clone, Copy)]
struct CalendarDay {
    year: u64,
    month: u64,
    day: u64,
}

/// The day so many days after 1 January 1970, up to the greatest moment's.
fn calendar_day(days: u32) -> CalendarDay
    requires { days ≤ 2_893_518 }
    ensures year { result.year ≡ (calendar_day_of days).year }
    ensures month { result.month ≡ (calendar_day_of days).month }
    ensures day { result.day ≡ (calendar_day_of days).day }
{
    let date = date_of_day(days);
    CalendarDay {
        year: date.year().unsigned_abs() as u64,
        month: date.month().unsigned_abs() as u64,
        day: date.day().unsigned_abs() as u64,
    }
}

/// jiff's date of a day number.
fn date_of_day(days: u32) -> Date
    requires { days ≤ 2_893_518 }
    ensures { epoch_day result ≡ pos days }
{
    let moment = Timestamp::from_second(i64::from(days) * SECONDS_OF_A_DAY).unwrap();
    Offset::UTC.to_datetime(moment).date()
}

/// The last digit of a number, as a character.
fn last_digit(number: u64) -> u8
    ensures { result ≡ last_digit_of number }
{
    b'0' + (number % 10) as u8
}
