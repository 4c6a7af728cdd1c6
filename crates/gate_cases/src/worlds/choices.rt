//! Choices of a market, as a line writes them.

use case_lines::{first_word, number_of};
use market_law::{Breaking, Choice, Letter, Removal, Trading};
use tokens::Token;

/// `live`, `dead`, `refuse LETTER`, `nothing`, `trade TOKEN SHARES PRICE`, `off TOKEN SHARES`, `break NUMBER`, `event
/// LETTER`; a token by its number. `None` of anything else.
pub fn choice_of(text: &str) -> Option<Choice> {
    let (word, rest) = first_word(text);
    match word {
        "live" => Some(Choice::AcceptLive),
        "dead" => Some(Choice::AcceptDead),
        "nothing" => Some(Choice::Nothing),
        "refuse" => Some(Choice::Refuse(letter_of(rest)?)),
        "event" => Some(Choice::SystemEvent(letter_of(rest)?)),
        "break" => Some(Choice::Break(Breaking {
            match_number: number_of(rest)?,
        })),
        "trade" => trade_of(rest),
        "off" => removal_of(rest),
        _ => None,
    }
}

/// A letter.
fn letter_of(text: &str) -> Option<Letter> {
    match text.as_bytes() {
        [byte] => Letter::of(*byte),
        _ => None,
    }
}

/// `TOKEN SHARES PRICE`.
fn trade_of(text: &str) -> Option<Choice> {
    let (token, rest) = first_word(text);
    let (shares, price) = first_word(rest);
    let token = token_of(token)?;
    let shares = u32_of(shares)?;
    let price = u32_of(price)?;
    Some(Choice::Execute(Trading {
        token,
        shares,
        price,
    }))
}

/// `TOKEN SHARES`.
fn removal_of(text: &str) -> Option<Choice> {
    let (token, shares) = first_word(text);
    let token = token_of(token)?;
    let shares = u32_of(shares)?;
    Some(Choice::TakeOff(Removal { token, shares }))
}

/// The token of a number.
fn token_of(digits: &str) -> Option<[u8; 14]> {
    match Token::of(number_of(digits)?) {
        Ok(token) => Some(token.bytes()),
        Err(_) => None,
    }
}

/// A number of 32 bits.
fn u32_of(digits: &str) -> Option<u32> {
    u32::try_from(number_of(digits)?).ok()
}
