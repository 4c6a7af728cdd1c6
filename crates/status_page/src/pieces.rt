//! Pieces of a page.

ghost use Rattle.std.specs.Prelude.{◌≡◌, ◌++◌, OnOk, string_bytes};
ghost use Rattle.fixed_point.specs.Price.{price_text};
ghost use Rattle.status_page.specs.Page as spec;

use crate::escaping::push_escaped;
use crate::port_words::reason_of;
use fixed_point::PriceText;
use itoa::Buffer;
use soup_session::PortState;
use std::alloc::AllocError;

/// Adds a word and a number.
pub(crate) fn push_count(page: &mut String, word: &str, number: u64) -> Result<(), AllocError>
    ensures { OnOk result (string_bytes page.new ≡ string_bytes page.old ++ spec.counted word.now number) }
{
    let mut buffer = Buffer::new();
    page.push_str(word)?;
    page.push_str(buffer.format(number))
}

/// Adds a word and a number that may have more than 64 bits.
fn push_sum(page: &mut String, word: &str, number: u128) -> Result<(), AllocError>
    ensures { OnOk result (string_bytes page.new ≡ string_bytes page.old ++ spec.counted word.now number) }
{
    let mut buffer = Buffer::new();
    page.push_str(word)?;
    page.push_str(buffer.format(number))
}

/// Adds a word and a text that is shown as it is.
pub(crate) fn push_told(page: &mut String, word: &str, text: &[u8]) -> Result<(), AllocError>
    ensures { OnOk result (string_bytes page.new ≡ string_bytes page.old ++ spec.told word.now text.now) }
{
    page.push_str(word)?;
    push_escaped(page, text)
}

/// Adds a word and a number, and a word and a text.
#[tactic(auto, unfolding(crate::specs::Page::numbered))]
pub(crate) fn push_numbered(
    page: &mut String,
    word: &str,
    number: u64,
    before: &str,
    text: &[u8],
) -> Result<(), AllocError>
    ensures { OnOk result (string_bytes page.new ≡ string_bytes page.old
        ++ spec.numbered word.now number before.now text.now) }
{
    push_count(page, word, number)?;
    push_told(page, before, text)?;
    Ok(())
}

/// Adds a cell with a number.
pub(crate) fn push_number(page: &mut String, number: u64) -> Result<(), AllocError>
    ensures { OnOk result (string_bytes page.new ≡ string_bytes page.old ++ spec.number_cell number) }
{
    push_count(page, "<td class=\"n\">", number)
}

/// Adds a cell with a number of shares.
pub(crate) fn push_shares(page: &mut String, shares: u128) -> Result<(), AllocError>
    ensures { OnOk result (string_bytes page.new ≡ string_bytes page.old ++ spec.number_cell shares) }
{
    push_sum(page, "<td class=\"n\">", shares)
}

/// Adds a cell with an amount of money in 1/10,000.
pub(crate) fn push_money(page: &mut String, units: u128) -> Result<(), AllocError>
    ensures { OnOk result (string_bytes page.new ≡ string_bytes page.old ++ spec.money_cell units) }
{
    let text = money_text(units);
    push_told(page, "<td class=\"n\">", text.as_slice())
}

/// An amount of money in 1/10,000, printed as a price is.
#[tactic(auto, unfolding(fixed_point::specs::Price::price_text))]
fn money_text(units: u128) -> PriceText
    ensures { result ≡ price_text units }
{
    PriceText::of(units / 10_000, (units % 10_000) as u16)
}

/// Adds a cell with the number of a link, where there is one.
pub(crate) fn push_link(page: &mut String, link: Option<u64>) -> Result<(), AllocError>
    ensures { OnOk result (string_bytes page.new ≡ string_bytes page.old ++ spec.link link) }
{
    match link {
        Some(number) => push_number(page, number),
        None => page.push_str("<td class=\"n d\">&ndash;"),
    }
}

/// Adds why a port stands so behind what leads to it, where that is known.
pub(crate) fn push_reason(
    page: &mut String,
    before: &str,
    state: PortState,
) -> Result<(), AllocError>
    ensures { OnOk result (string_bytes page.new ≡ string_bytes page.old ++ spec.reason before.now state) }
{
    match state {
        PortState::Faulted(_) => push_told(page, before, reason_of(state).as_bytes()),
        PortState::Down | PortState::LoggingIn | PortState::Up | PortState::Ended => Ok(()),
    }
}
