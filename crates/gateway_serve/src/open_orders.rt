//! What nobody may overlook at the end of a day: orders that are open at the market, or that it hasn't answered.

ghost use Rattle.std.specs.Prelude.{◌≡◌, ◌++◌, true, IfOk, OnOk};
ghost use Rattle.std.specs.Io.KnownBytes.{Appends};
ghost use Rattle.gateway_run.specs.gate_law.Settings.{client_name};
ghost use Rattle.gateway_serve.specs.Lines as shown;

use crate::standing::{Standing, is_open, is_unanswered, standing_of};
use gateway_run::{OrderPair, Settings};
use itoa::Buffer;
use std::alloc::{AllocError, Global};
use std::io::Write;

/// Tells on `faults` of each order of an audited day that is open at the market, with how much of it, and of each that
/// the market hasn't answered, and last how many there are of either; nothing where there are none.
///
/// The answer says whether all of it was told. Where memory runs out it isn't, and `faults` has `out of memory`.
pub fn write_open_orders<F: Write>(
    alloc: Global,
    pairs: &[OrderPair],
    settings: &Settings,
    faults: &mut F,
) -> bool
    ensures { result ≡ true → Appends (F.contents faults.old) (F.contents faults.new)
        (shown.shown_open settings.now pairs.now) }
{
    let Ok(text) = open_text(alloc, pairs, settings) else {
        let _ = writeln!(faults, "out of memory");
        return false;
    };
    faults.write_all(text.as_slice()).is_ok()
}

/// The lines of the orders that aren't over, in the order of the pairs, and last how many there are.
fn open_text(alloc: Global, pairs: &[OrderPair], settings: &Settings) -> Result<Vec<u8>, AllocError>
    ensures { IfOk result (λ text. text.items ≡ shown.shown_open settings.now pairs.now) }
{
    let mut text = Vec::new(alloc);
    for pair in pairs {
        push_order(&mut text, pair, settings)?;
    }
    push_counts(&mut text, count_open(pairs), count_unanswered(pairs))?;
    Ok(text)
}

/// How many of these orders are open at the market.
fn count_open(pairs: &[OrderPair]) -> usize
    ensures { result ≡ shown.open_count pairs.now }
{
    let mut count = 0;
    for pair in pairs {
        if is_open(pair) {
            count += 1;
        }
    }
    count
}

/// How many of these orders the market hasn't answered.
fn count_unanswered(pairs: &[OrderPair]) -> usize
    ensures { result ≡ shown.unanswered_count pairs.now }
{
    let mut count = 0;
    for pair in pairs {
        if is_unanswered(pair) {
            count += 1;
        }
    }
    count
}

/// Adds the line of an order, where it isn't over.
fn push_order(text: &mut Vec<u8>, pair: &OrderPair, settings: &Settings) -> Result<(), AllocError>
    ensures { OnOk result (text.new.items ≡ text.old.items ++ shown.shown_order settings.now pair.now) }
{
    match standing_of(pair) {
        Standing::Over => Ok(()),
        Standing::Open => push_open(text, pair, settings),
        Standing::Unanswered => push_unanswered(text, pair, settings),
    }
}

/// Adds the line of an order that is open at the market.
#[tactic(auto, unfolding(crate::specs::Lines::shown_open_order))]
fn push_open(text: &mut Vec<u8>, pair: &OrderPair, settings: &Settings) -> Result<(), AllocError>
    ensures { OnOk result (text.new.items ≡ text.old.items ++ shown.shown_open_order settings.now pair.now) }
{
    push_whose(text, pair, settings)?;
    push_shares(text, pair)?;
    text.extend_from_slice(b" open at the market\n")?;
    Ok(())
}

/// Adds the line of an order that the market hasn't answered.
#[tactic(auto, unfolding(crate::specs::Lines::shown_unanswered))]
fn push_unanswered(
    text: &mut Vec<u8>,
    pair: &OrderPair,
    settings: &Settings,
) -> Result<(), AllocError>
    ensures { OnOk result (text.new.items ≡ text.old.items ++ shown.shown_unanswered settings.now pair.now) }
{
    push_whose(text, pair, settings)?;
    text.extend_from_slice(b": asked, not answered\n")?;
    Ok(())
}

/// Adds which order it is, and whose.
fn push_whose(text: &mut Vec<u8>, pair: &OrderPair, settings: &Settings) -> Result<(), AllocError>
    ensures { OnOk result (text.new.items ≡ text.old.items ++ shown.shown_whose settings.now pair.now) }
{
    text.extend_from_slice(pair.id.as_slice())?;
    text.extend_from_slice(b" of ")?;
    text.extend_from_slice(name_of(pair.client, settings))
}

/// Adds how many shares are open, and of how many.
fn push_shares(text: &mut Vec<u8>, pair: &OrderPair) -> Result<(), AllocError>
    ensures { OnOk result (text.new.items ≡ text.old.items ++ shown.shown_shares pair.now) }
{
    let open = u128::from(pair.fix.unfilled);
    let total = open
        .saturating_add(pair.fix.executed)
        .saturating_add(pair.fix.cancelled);
    push_number(text, b": ", open)?;
    push_number(text, b" of ", total)
}

/// Adds how many orders there are of either kind, where there are any.
fn push_counts(text: &mut Vec<u8>, live: usize, unanswered: usize) -> Result<(), AllocError>
    ensures { OnOk result (text.new.items ≡ text.old.items ++ shown.shown_counts live unanswered) }
{
    if live == 0 && unanswered == 0 {
        return Ok(());
    }
    push_number(text, b"gateway: ", live as u128)?;
    push_number(
        text,
        b" orders are open at the market, ",
        unanswered as u128,
    )?;
    text.extend_from_slice(b" weren't answered\n")
}

/// Adds a word and a number.
fn push_number(text: &mut Vec<u8>, word: &[u8], number: u128) -> Result<(), AllocError>
    ensures { OnOk result (text.new.items ≡ text.old.items ++ shown.counted_word word.now number) }
{
    let mut buffer = Buffer::new();
    text.extend_from_slice(word)?;
    text.extend_from_slice(buffer.format(number).as_bytes())
}

/// The name of a client of this number, from 1.
fn name_of(client: u16, settings: &Settings) -> &[u8]
    ensures { result.now ≡ client_name settings.now client }
{
    match settings
        .clients()
        .get(usize::from(client).saturating_sub(1))
    {
        Some(client) => client.comp.as_slice(),
        None => b"",
    }
}
