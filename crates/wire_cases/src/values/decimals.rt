//! Prices, quantities, worths and averages.

use case_lines::first_word;
use fixed_point::{
    DecimalRefusal, Price4, Shares, average, parse_price, parse_qty, parse_worth, print_price,
};
use std::alloc::{AllocError, Global};
use std::str::{self, FromStr};

/// The number that a word says, where it is one of this type.
pub fn number<T: FromStr>(word: &str) -> Option<T>
where
    T::Err: Drop,
{
    word.parse::<T>().ok()
}

/// The number of a refusal, and what it prints.
fn refused(alloc: Global, refusal: DecimalRefusal) -> Result<String, AllocError> {
    format!(in alloc; "{} {}", refusal.number(), refusal)
}

/// The price that a text says, in 1/10,000.
pub fn price(alloc: Global, text: &str) -> Result<String, AllocError> {
    match parse_price(text.as_bytes()) {
        Ok(price) => format!(in alloc; "{}", price.units()),
        Err(refusal) => refused(alloc, refusal),
    }
}

/// The shares that a text behind the least number of them says.
pub fn quantity(alloc: Global, asked: &str) -> Result<String, AllocError> {
    let (least, text) = first_word(asked);
    let least = if least == "0" { 0 } else { 1 };
    match parse_qty(text.as_bytes(), least) {
        Ok(shares) => format!(in alloc; "{shares}"),
        Err(refusal) => refused(alloc, refusal),
    }
}

/// What a text is worth, in 1/10,000.
pub fn worth(alloc: Global, text: &str) -> Result<String, AllocError> {
    match parse_worth(text.as_bytes()) {
        Ok(worth) => format!(in alloc; "{worth}"),
        Err(refusal) => format!(in alloc; "{refusal}"),
    }
}

/// The text of so many 1/10,000.
pub fn printed(alloc: Global, word: &str) -> Result<String, AllocError> {
    let Some(units) = number::<u128>(word) else {
        return String::from_str(alloc, "no number");
    };
    let text = print_price(alloc, units)?;
    String::from_str(alloc, str::from_utf8(text.as_slice()).unwrap_or("no text"))
}

/// The average of a value over a number of shares.
pub fn averaged(alloc: Global, asked: &str) -> Result<String, AllocError> {
    let (value, count) = first_word(asked);
    match (number::<u128>(value), number::<u64>(count)) {
        (Some(value), Some(count)) => format!(in alloc; "{}", average(value, count)),
        _ => String::from_str(alloc, "no numbers"),
    }
}

/// Whether so many 1/10,000 are a price: its units then.
pub fn units(alloc: Global, word: &str) -> Result<String, AllocError> {
    match number::<u32>(word).and_then(Price4::of) {
        Some(price) => format!(in alloc; "{}", price.units()),
        None => String::from_str(alloc, "none"),
    }
}

/// Whether so many shares can be asked for: their number then.
pub fn shares(alloc: Global, word: &str) -> Result<String, AllocError> {
    match number::<u32>(word).and_then(Shares::of) {
        Some(shares) => format!(in alloc; "{}", shares.count()),
        None => String::from_str(alloc, "none"),
    }
}
