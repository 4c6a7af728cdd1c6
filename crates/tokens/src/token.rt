//! A token and its number.

ghost use Rattle.std.specs.Prelude.{◌≡◌, ◌≢◌, ◌↔◌, ℕ, IsOk, IfOk, MatchOption};
ghost use Rattle.wire_law.specs.Printable.{ArePrintable};
ghost use Rattle.tokens.specs.TokenText.{HasToken, token_text};

use std::marker::Model;
use thiserror::Error;
use wire_bytes::number_of;

/// The number has no token: it is 0, or has more than 13 digits.
#[derive(Clone, Copy, Debug, PartialEq, Eq, Drop, Error)]
#[error("no token has this number")]
pub struct TokenRefusal;

/// The 14 bytes by which the market knows an order. Contracts see the list of them.
#[derive(Clone, Copy, Debug, PartialEq, Eq)]
pub struct Token {
    bytes: [u8; 14],
}

impl Model for Token {
    ghost use Rattle.std.specs.Prelude.{ℕ, List};
    ghost use Rattle.wire_law.specs.Printable.{ArePrintable};

    ghost Value = { List ℕ };

    ghost view = { λ t. t.bytes };

    ghost invariant = { λ t. ArePrintable t.bytes };

    ghost inverse = { λ bytes. record { bytes = bytes } };
}

impl Token {
    /// The greatest number that has a token.
    pub const MOST: u64 = 9_999_999_999_999;

    /// The token of a number from 1 to `Token::MOST`. Refused for any other number. Takes no memory.
    pub fn of(number: u64) -> Result<Token, TokenRefusal>
        ensures has { IsOk result ↔ HasToken number }
        ensures text { IfOk result (λ token. token ≡ token_text number) }
    {
        if number == 0 || number > Token::MOST {
            return Err(TokenRefusal);
        }
        Ok(Token {
            bytes: text_of(number),
        })
    }

    /// The number whose token these bytes are; `None` where they are no number's: anything but `G` and 13 digits that
    /// aren't all 0. Takes no memory.
    pub fn number(bytes: &[u8; 14]) -> Option<u64>
        ensures { MatchOption result
            ((n : ℕ) → HasToken n → bytes.now ≢ token_text n)
            (λ n. HasToken n × (bytes.now ≡ token_text n)) }
    {
        let (first, digits) = bytes.split_at(1);
        if first[0] != b'G' {
            return None;
        }
        let number = number_of(digits)?;
        if number == 0 { None } else { Some(number) }
    }

    /// The bytes as they stand in a message.
    pub fn bytes(self) -> [u8; 14]
        ensures bytes { result ≡ self }
        ensures printable { ArePrintable result }
    {
        self.bytes
    }
}

/// `G` and the last 13 digits of a number.
fn text_of(number: u64) -> [u8; 14]
    ensures text { result ≡ token_text number }
    ensures printable { ArePrintable result }
{
    let mut bytes = [b'G'; 14];
    let mut rest = number;
    for i in 0..13 {
        bytes[13 - i] = b'0' + (rest % 10) as u8;
        rest /= 10;
    }
    bytes
}

/// No two numbers have one token. It does nothing: its contract is the law, for callers to cite.
pub fn one_number_a_token()
    ensures { (m n : ℕ) → HasToken m → HasToken n → token_text m ≡ token_text n → m ≡ n }
{}
