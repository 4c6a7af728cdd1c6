//! The words and numbers of a line. One space stands between two words, and none before the first or after the last.

ghost use Rattle.std.specs.Prelude.{◌≡◌, ◌≢◌, ◌↔◌, ◌≤◌, ◌<◌, ◌^◌, ◌-◌, ◌∷◌, ◌++◌, ◌==◌, [], length, replicate};
ghost use Rattle.std.specs.Prelude.{slice_index, true, Some, None, IsSome, IsNone, IfSome, MatchOption, is_some};
ghost use Rattle.std.specs.List.{list_all, position};
ghost use Rattle.tokens.specs.TokenText.{token_text};
ghost use Rattle.wire_law.specs.Printable.{is_printable, is_visible, ArePrintable};
ghost use Rattle.ouch_codec.specs.Letters.{side_letter, order_state_letter};
ghost use Rattle.script_lines.specs.Words.{words_of, number_in, IsNumberBelow};
ghost use Rattle.script_lines.specs.Forms.{is_number64, is_number32, is_share_count, is_token_number, is_stock};
ghost use Rattle.script_lines.specs.Forms.{is_side_word, is_state_word, is_printable_word};

use ouch_codec::{OrderState, Side};
use tokens::Token;
use wire_bytes::number_of;
use wire_law::{MOST_SHARES, are_visible, is_printable, padded};

/// The first word of a text and what stands behind the space after it; `None` where the text has no space.
pub fn first_word(text: &[u8]) -> Option<(&[u8], &[u8])>
    ensures whole { IfSome result (λ parts. text.now ≡ parts.0.now ++ 32 ∷ parts.1.now) }
    ensures words { MatchOption result
        (words_of text.now ≡ text.now ∷ [])
        (λ parts. words_of text.now ≡ parts.0.now ∷ words_of parts.1.now) }
{
    match first_space(text) {
        None => None,
        Some(at) => Some((&text[..at], &text[at + 1..])),
    }
}

/// The one word of a text; `None` where the text has a space.
pub fn only_word(text: &[u8]) -> Option<&[u8]>
    ensures { MatchOption result
        (length (words_of text.now) ≢ 1)
        (λ word. words_of text.now ≡ word.now ∷ []) }
{
    match first_space(text) {
        None => Some(text),
        Some(_) => None,
    }
}

/// The two words of a text; `None` where it has more or fewer.
pub fn two_words(text: &[u8]) -> Option<(&[u8], &[u8])>
    ensures { MatchOption result
        (length (words_of text.now) ≢ 2)
        (λ words. words_of text.now ≡ words.0.now ∷ words.1.now ∷ []) }
{
    let (first, rest) = first_word(text)?;
    let second = only_word(rest)?;
    Some((first, second))
}

/// The three words of a text; `None` where it has more or fewer.
pub fn three_words(text: &[u8]) -> Option<(&[u8], &[u8], &[u8])>
    ensures { MatchOption result
        (length (words_of text.now) ≢ 3)
        (λ words. words_of text.now ≡ words.0.now ∷ words.1.now ∷ words.2.now ∷ []) }
{
    let (first, rest) = first_word(text)?;
    let (second, third) = two_words(rest)?;
    Some((first, second, third))
}

/// The four words of a text; `None` where it has more or fewer.
pub fn four_words(text: &[u8]) -> Option<(&[u8], &[u8], &[u8], &[u8])>
    ensures { MatchOption result
        (length (words_of text.now) ≢ 4)
        (λ words. words_of text.now ≡ words.0.now ∷ words.1.now ∷ words.2.now ∷ words.3.now ∷ []) }
{
    let (first, rest) = first_word(text)?;
    let (second, third, fourth) = three_words(rest)?;
    Some((first, second, third, fourth))
}

/// The six words of a text; `None` where it has more or fewer.
pub fn six_words(text: &[u8]) -> Option<(&[u8], &[u8], &[u8], &[u8], &[u8], &[u8])>
    ensures { MatchOption result
        (length (words_of text.now) ≢ 6)
        (λ words. words_of text.now ≡ words.0.now ∷ words.1.now ∷ words.2.now ∷ words.3.now ∷ words.4.now
        ∷ words.5.now ∷ []) }
{
    let (first, rest) = first_word(text)?;
    let (second, rest) = first_word(rest)?;
    let (third, fourth, fifth, sixth) = four_words(rest)?;
    Some((first, second, third, fourth, fifth, sixth))
}

/// Where the first space stands.
fn first_space(text: &[u8]) -> Option<usize>
    ensures first { result ≡ position (λ byte. byte == 32) text.now }
    ensures inside { IfSome result (λ at. at < length text.now) }
    ensures space { IfSome result (λ at. slice_index text.now at ≡ 32) }
{
    text.iter().position(|byte| *byte == b' ')
}

/// The number that decimal digits say, zeros in front allowed; `None` where a byte is no digit, where there is none,
/// and where 64 bits don't hold the number.
pub fn number(word: &[u8]) -> Option<u64>
    ensures number { IsSome result ↔ IsNumberBelow (2 ^ 64) word.now }
    ensures value { IfSome result (λ n. n ≡ number_in word.now) }
    ensures form { is_some result ≡ is_number64 word.now }
{
    if word.is_empty() {
        return None;
    }
    number_of(word)
}

/// The number that decimal digits say, where 32 bits hold it.
pub fn number32(word: &[u8]) -> Option<u32>
    ensures number { IsSome result ↔ IsNumberBelow (2 ^ 32) word.now }
    ensures value { IfSome result (λ n. n ≡ number_in word.now) }
    ensures form { is_some result ≡ is_number32 word.now }
{
    match number(word) {
        Some(n) if n <= 0xffff_ffff => Some(n as u32),
        _ => None,
    }
}

/// A number of shares that an order may have: 1 to 999,999.
pub fn share_count(word: &[u8]) -> Option<u32>
    ensures number { IsSome result ↔ (IsNumberBelow 1_000_000 word.now × (1 ≤ number_in word.now)) }
    ensures value { IfSome result (λ n. n ≡ number_in word.now) }
    ensures form { is_some result ≡ is_share_count word.now }
{
    match number32(word) {
        Some(shares) if shares >= 1 && shares <= MOST_SHARES => Some(shares),
        _ => None,
    }
}

/// The token of the number that decimal digits say: 1 to `Token::MOST`.
pub fn token(word: &[u8]) -> Option<Token>
    ensures number { IsSome result ↔ (IsNumberBelow (10 ^ 13) word.now × (1 ≤ number_in word.now)) }
    ensures text { IfSome result (λ token. token ≡ token_text (number_in word.now)) }
    ensures form { is_some result ≡ is_token_number word.now }
{
    match number(word) {
        Some(n) => Token::of(n).ok(),
        None => None,
    }
}

/// The one letter of a word.
pub fn letter(word: &[u8]) -> Option<u8>
    ensures { MatchOption result (length word.now ≢ 1) (λ byte. word.now ≡ byte ∷ []) }
{
    match word {
        [byte] => Some(*byte),
        _ => None,
    }
}

/// The one letter of a word, where the market takes it in a field of one byte.
pub fn printable_letter(word: &[u8]) -> Option<u8>
    ensures set { IfSome result (λ byte. is_printable byte ≡ true) }
    ensures letter { IfSome result (λ byte. word.now ≡ byte ∷ []) }
    ensures form { is_some result ≡ is_printable_word word.now }
{
    match letter(word) {
        Some(byte) if is_printable(byte) => Some(byte),
        _ => None,
    }
}

/// The side whose letter a word is.
pub fn side(word: &[u8]) -> Option<Side>
    ensures form { is_some result ≡ is_side_word word.now }
    ensures letter { IfSome result (λ side. word.now ≡ side_letter side ∷ []) }
{
    Side::of_letter(letter(word)?)
}

/// The state of an accepted order whose letter a word is.
pub fn order_state(word: &[u8]) -> Option<OrderState>
    ensures form { is_some result ≡ is_state_word word.now }
    ensures letter { IfSome result (λ state. word.now ≡ order_state_letter state ∷ []) }
{
    OrderState::of_letter(letter(word)?)
}

/// The symbol of a stock, padded right with spaces; `None` where the word has not 1 to 8 bytes from 33 to 126.
pub fn stock(word: &[u8]) -> Option<[u8; 8]>
    ensures length { IsSome result ↔ ((1 ≤ length word.now) × (length word.now ≤ 8)
        × (list_all is_visible word.now ≡ true)) }
    ensures printable { IfSome result ArePrintable }
    ensures padded { IfSome result (λ stock. stock ≡ word.now ++ replicate (8 - length word.now) 32) }
    ensures form { is_some result ≡ is_stock word.now }
{
    if word.is_empty() {
        return None;
    }
    if word.len() > 8 {
        return None;
    }
    if !are_visible(word) {
        return None;
    }
    Some(padded(word))
}
