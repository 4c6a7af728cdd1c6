//! The lines of an audit.

ghost use Rattle.std.specs.Prelude.{◌≡◌, ◌++◌, IfOk, OnOk};
ghost use Rattle.gate_lines.specs.AuditLines as shown;

use gate_audit::OrderPair;
use itoa::Buffer;
use order_law::Account;
use std::alloc::{AllocError, Global};

/// The lines of an audit: one for each order, in the order of the pairs, and last how many there are and of how many
/// both accounts agree.
///
/// | Line | What it shows |
/// |---|---|
/// | `C1 A1 side 1 executed 300 open 0 cancelled 0 value 70330000 agree` | an order as its client read it |
/// | `orders 2 agree 2` | how many orders there are, and how many agree |
///
/// An order has its client, its first ClOrdID, its side as in 54, how many shares are executed, open and cancelled, and
/// the executed shares times their prices in 1/10,000; `differ` where the market said anything else of these.
pub fn audit_text(alloc: Global, pairs: &[OrderPair]) -> Result<Vec<u8>, AllocError>
    ensures { IfOk result (λ text. text.items ≡ shown.shown_audit pairs.now) }
{
    let mut text = Vec::new(alloc);
    for pair in pairs {
        push_pair(&mut text, pair)?;
    }
    push_total(&mut text, pairs.len(), agreeing(pairs))?;
    Ok(text)
}

/// Of how many orders both accounts agree.
pub(crate) fn agreeing(pairs: &[OrderPair]) -> usize
    ensures { result ≡ shown.agreeing pairs.now }
{
    let mut agreeing = 0;
    for pair in pairs {
        if pair.agree {
            agreeing += 1;
        }
    }
    agreeing
}

/// Adds the line of an order.
#[tactic(auto, unfolding(crate::specs::AuditLines::shown_pair))]
fn push_pair(text: &mut Vec<u8>, pair: &OrderPair) -> Result<(), AllocError>
    ensures { OnOk result (text.new.items ≡ text.old.items ++ shown.shown_pair pair.now) }
{
    push_number(text, b"C", u128::from(pair.client))?;
    text.push(b' ')?;
    text.extend_from_slice(pair.id.as_slice())?;
    push_account(text, pair.fix)?;
    text.extend_from_slice(verdict(pair.agree))?;
    text.push(b'\n')?;
    Ok(())
}

/// Whether both accounts agree, in a word.
fn verdict(agree: bool) -> &'static [u8]
    ensures { result.now ≡ shown.verdict_word agree }
{
    if agree { b" agree" } else { b" differ" }
}

/// Adds what one side has of an order.
#[tactic(auto, unfolding(crate::specs::AuditLines::shown_account))]
fn push_account(text: &mut Vec<u8>, account: Account) -> Result<(), AllocError>
    ensures { OnOk result (text.new.items ≡ text.old.items ++ shown.shown_account account) }
{
    push_shares(text, account)?;
    push_number(text, b" cancelled ", account.cancelled)?;
    push_number(text, b" value ", account.value)?;
    Ok(())
}

/// Adds its side, and its shares that are executed and open.
fn push_shares(text: &mut Vec<u8>, account: Account) -> Result<(), AllocError>
    ensures { OnOk result (text.new.items ≡ text.old.items ++ shown.shown_shares account) }
{
    text.extend_from_slice(b" side ")?;
    text.push(account.side)?;
    push_number(text, b" executed ", account.executed)?;
    push_number(text, b" open ", u128::from(account.unfilled))?;
    Ok(())
}

/// Adds the last line.
fn push_total(text: &mut Vec<u8>, orders: usize, agreeing: usize) -> Result<(), AllocError>
    ensures { OnOk result (text.new.items ≡ text.old.items ++ shown.shown_total orders agreeing) }
{
    push_number(text, b"orders ", orders as u128)?;
    push_number(text, b" agree ", agreeing as u128)?;
    text.push(b'\n')?;
    Ok(())
}

/// Adds a word and a number.
fn push_number(text: &mut Vec<u8>, word: &[u8], number: u128) -> Result<(), AllocError>
    ensures { OnOk result (text.new.items ≡ text.old.items ++ shown.counted_word word.now number) }
{
    let mut buffer = Buffer::new();
    text.extend_from_slice(word)?;
    text.extend_from_slice(buffer.format(number).as_bytes())
}
