//! Rows, as they are written.

ghost use Rattle.std.specs.Prelude.{◌≡◌, ◌++◌, OnOk, map};
ghost use Rattle.std.specs.List.{flat_map};
ghost use Rattle.day_export.specs.Forms as spec;

use crate::cells::{Cell, value_of};
use crate::format::Format;
use crate::row::{Head, Way, Who};
use fix_stamp::stamp;
use itoa::Buffer;
use std::alloc::AllocError;

/// The columns behind the moment, who and which way.
const COLUMNS: [&str; 36] = [
    "35", "34", "150", "39", "37", "11", "41", "17", "55", "54", "38", "40", "44", "59", "110",
    "528", "32", "31", "151", "14", "6", "102", "103", "378", "380", "434", "371", "372", "373",
    "58", "ouch", "token", "previous", "shares", "price", "match",
];

/// Adds what stands before the first row.
pub(crate) fn push_head(text: &mut Vec<u8>, format: Format) -> Result<(), AllocError>
    ensures { OnOk result (text.new.items ≡ text.old.items ++ spec.head_text format) }
{
    match format {
        Format::Csv => push_columns(text),
        Format::Json => Ok(()),
        Format::Messages => Ok(()),
    }
}

/// Adds the names of the columns.
#[tactic(auto, unfolding(crate::specs::Forms::columns_text))]
fn push_columns(text: &mut Vec<u8>) -> Result<(), AllocError>
    ensures { OnOk result (text.new.items ≡ text.old.items ++ spec.columns_text) }
{
    text.extend_from_slice(b"at,who,way")?;
    push_names(text, &COLUMNS)?;
    text.extend_from_slice(b"\r\n")?;
    Ok(())
}

/// Adds names, each behind a comma.
fn push_names(text: &mut Vec<u8>, names: &[&str]) -> Result<(), AllocError>
    ensures { OnOk result (text.new.items
        ≡ text.old.items ++ flat_map spec.behind_comma (map (λ name. name.now) names.now)) }
{
    match names {
        [name, names @ ..] => {
            push_behind_comma(text, name.as_bytes())?;
            push_names(text, names)
        }
        [] => Ok(()),
    }
}

/// Adds a name behind a comma.
fn push_behind_comma(text: &mut Vec<u8>, name: &[u8]) -> Result<(), AllocError>
    ensures { OnOk result (text.new.items ≡ text.old.items ++ spec.behind_comma name.now) }
{
    text.push(b',')?;
    text.extend_from_slice(name)?;
    Ok(())
}

/// Adds the row of a message by its cells; nothing where it has none.
#[tactic(auto, unfolding(crate::specs::Forms::row_text))]
pub(crate) fn push_row(
    text: &mut Vec<u8>,
    format: Format,
    head: Head,
    cells: &[Cell],
) -> Result<(), AllocError>
    ensures { OnOk result (text.new.items ≡ text.old.items ++ spec.row_text format head cells.now) }
{
    match cells {
        [] => Ok(()),
        [_, ..] => push_row_of(text, format, head, cells),
    }
}

/// The same of cells that are some.
fn push_row_of(
    text: &mut Vec<u8>,
    format: Format,
    head: Head,
    cells: &[Cell],
) -> Result<(), AllocError>
    ensures { OnOk result (text.new.items ≡ text.old.items ++ spec.row_of format head cells.now) }
{
    match format {
        Format::Csv => push_values(text, head, cells),
        Format::Json => push_object(text, head, cells),
        Format::Messages => push_message(text, head, cells),
    }
}

/// Adds a row of values that are separated by commas, each between quotes.
#[tactic(auto, unfolding(crate::specs::Forms::csv_row))]
fn push_values(text: &mut Vec<u8>, head: Head, cells: &[Cell]) -> Result<(), AllocError>
    ensures { OnOk result (text.new.items ≡ text.old.items ++ spec.csv_row head cells.now) }
{
    push_values_head(text, head)?;
    push_columns_of(text, &COLUMNS, cells)?;
    text.extend_from_slice(b"\r\n")?;
    Ok(())
}

/// Adds the moment, who and which way.
#[tactic(auto, unfolding(crate::specs::Forms::csv_head))]
fn push_values_head(text: &mut Vec<u8>, head: Head) -> Result<(), AllocError>
    ensures { OnOk result (text.new.items ≡ text.old.items ++ spec.csv_head head) }
{
    text.extend_from_slice(&stamp(head.at))?;
    text.push(b',')?;
    push_who(text, head.who)?;
    text.push(b',')?;
    text.extend_from_slice(way_name(head.way))?;
    Ok(())
}

/// Adds the values of these columns, each behind a comma.
fn push_columns_of(text: &mut Vec<u8>, names: &[&str], cells: &[Cell]) -> Result<(), AllocError>
    ensures { OnOk result (text.new.items
        ≡ text.old.items ++ flat_map (spec.column_of cells.now) (map (λ name. name.now) names.now)) }
{
    match names {
        [name, names @ ..] => {
            push_column_of(text, name.as_bytes(), cells)?;
            push_columns_of(text, names, cells)
        }
        [] => Ok(()),
    }
}

/// Adds the value of a column behind a comma.
fn push_column_of(text: &mut Vec<u8>, name: &[u8], cells: &[Cell]) -> Result<(), AllocError>
    ensures { OnOk result (text.new.items ≡ text.old.items ++ spec.column_of cells.now name.now) }
{
    text.push(b',')?;
    push_quoted(text, value_of(cells, name))?;
    Ok(())
}

/// Adds a value between quotes, in which a quote is two; nothing where it is empty.
///
/// Source: RFC 4180, 2.
fn push_quoted(text: &mut Vec<u8>, value: &[u8]) -> Result<(), AllocError>
    ensures { OnOk result (text.new.items ≡ text.old.items ++ spec.quoted value.now) }
{
    match value {
        [] => Ok(()),
        [_, ..] => {
            text.push(b'"')?;
            push_doubled(text, value)?;
            text.push(b'"')?;
            Ok(())
        }
    }
}

/// Adds a value's bytes, with two quotes for each.
fn push_doubled(text: &mut Vec<u8>, value: &[u8]) -> Result<(), AllocError>
    ensures { OnOk result (text.new.items ≡ text.old.items ++ flat_map spec.quoted_byte value.now) }
{
    for byte in value {
        push_quoted_byte(text, *byte)?;
    }
    Ok(())
}

/// Adds a byte so.
fn push_quoted_byte(text: &mut Vec<u8>, byte: u8) -> Result<(), AllocError>
    ensures { OnOk result (text.new.items ≡ text.old.items ++ spec.quoted_byte byte) }
{
    if byte == b'"' {
        text.extend_from_slice(b"\"\"")
    } else {
        text.push(byte)?;
        Ok(())
    }
}

/// Adds a row as an object.
#[tactic(auto, unfolding(crate::specs::Forms::object_row))]
fn push_object(text: &mut Vec<u8>, head: Head, cells: &[Cell]) -> Result<(), AllocError>
    ensures { OnOk result (text.new.items ≡ text.old.items ++ spec.object_row head cells.now) }
{
    push_object_head(text, head)?;
    push_members(text, cells)?;
    text.extend_from_slice(b"}\n")?;
    Ok(())
}

/// Adds its members for the moment, who and which way.
#[tactic(auto, unfolding(crate::specs::Forms::object_head))]
fn push_object_head(text: &mut Vec<u8>, head: Head) -> Result<(), AllocError>
    ensures { OnOk result (text.new.items ≡ text.old.items ++ spec.object_head head) }
{
    push_object_moment(text, head)?;
    push_who(text, head.who)?;
    text.extend_from_slice(b"\",\"way\":\"")?;
    text.extend_from_slice(way_name(head.way))?;
    text.push(b'"')?;
    Ok(())
}

/// Adds the member for the moment, and what stands before who.
#[tactic(auto, unfolding(crate::specs::Forms::object_moment))]
fn push_object_moment(text: &mut Vec<u8>, head: Head) -> Result<(), AllocError>
    ensures { OnOk result (text.new.items ≡ text.old.items ++ spec.object_moment head) }
{
    text.extend_from_slice(b"{\"at\":\"")?;
    text.extend_from_slice(&stamp(head.at))?;
    text.extend_from_slice(b"\",\"who\":\"")?;
    Ok(())
}

/// Adds a member for each cell.
fn push_members(text: &mut Vec<u8>, cells: &[Cell]) -> Result<(), AllocError>
    ensures { OnOk result (text.new.items ≡ text.old.items ++ flat_map spec.member_text cells.now) }
{
    for cell in cells {
        push_member(text, cell)?;
    }
    Ok(())
}

/// Adds a member behind others.
#[tactic(auto, unfolding(crate::specs::Forms::member_text))]
fn push_member(text: &mut Vec<u8>, cell: &Cell) -> Result<(), AllocError>
    ensures { OnOk result (text.new.items ≡ text.old.items ++ spec.member_text cell.now) }
{
    text.extend_from_slice(b",\"")?;
    text.extend_from_slice(cell.name())?;
    text.extend_from_slice(b"\":\"")?;
    push_string(text, cell.value())?;
    text.push(b'"')?;
    Ok(())
}

/// Adds the bytes of a string.
fn push_string(text: &mut Vec<u8>, value: &[u8]) -> Result<(), AllocError>
    ensures { OnOk result (text.new.items ≡ text.old.items ++ flat_map spec.string_byte value.now) }
{
    for byte in value {
        push_string_byte(text, *byte)?;
    }
    Ok(())
}

/// Adds a byte of a string; one that isn't printable ASCII as a dot.
///
/// Source: RFC 8259, 7.
fn push_string_byte(text: &mut Vec<u8>, byte: u8) -> Result<(), AllocError>
    ensures { OnOk result (text.new.items ≡ text.old.items ++ spec.string_byte byte) }
{
    if byte == b'"' || byte == b'\\' {
        text.push(b'\\')?;
        text.push(byte)?;
        Ok(())
    } else {
        text.push(shown_byte(byte))?;
        Ok(())
    }
}

/// A byte that is printable ASCII, and a dot for any other: no value ends a line.
fn shown_byte(byte: u8) -> u8
    ensures { result ≡ spec.shown_byte byte }
{
    if 32 <= byte && byte <= 126 {
        byte
    } else {
        b'.'
    }
}

/// Adds a value's bytes, and a dot for each that isn't printable ASCII.
fn push_shown(text: &mut Vec<u8>, value: &[u8]) -> Result<(), AllocError>
    ensures { OnOk result (text.new.items ≡ text.old.items ++ map spec.shown_byte value.now) }
{
    for byte in value {
        text.push(shown_byte(*byte))?;
    }
    Ok(())
}

/// Adds a row as a message: `20261126-15:02:40.100 C1 < 35=D|11=A1|..`.
#[tactic(auto, unfolding(crate::specs::Forms::message_row))]
fn push_message(text: &mut Vec<u8>, head: Head, cells: &[Cell]) -> Result<(), AllocError>
    ensures { OnOk result (text.new.items ≡ text.old.items ++ spec.message_row head cells.now) }
{
    push_message_head(text, head)?;
    push_pairs(text, cells)?;
    text.push(b'\n')?;
    Ok(())
}

/// Adds the moment, who and which way.
#[tactic(auto, unfolding(crate::specs::Forms::message_head))]
fn push_message_head(text: &mut Vec<u8>, head: Head) -> Result<(), AllocError>
    ensures { OnOk result (text.new.items ≡ text.old.items ++ spec.message_head head) }
{
    text.extend_from_slice(&stamp(head.at))?;
    text.push(b' ')?;
    push_who(text, head.who)?;
    text.extend_from_slice(arrow(head.way))?;
    Ok(())
}

/// Adds cells with `|` between them.
fn push_pairs(text: &mut Vec<u8>, cells: &[Cell]) -> Result<(), AllocError>
    ensures { OnOk result (text.new.items ≡ text.old.items ++ spec.pairs_text cells.now) }
{
    match cells {
        [cell, cells @ ..] => {
            push_pair(text, cell)?;
            push_others(text, cells)
        }
        [] => Ok(()),
    }
}

/// Adds cells that stand behind another one.
fn push_others(text: &mut Vec<u8>, cells: &[Cell]) -> Result<(), AllocError>
    ensures { OnOk result (text.new.items ≡ text.old.items ++ flat_map spec.other_text cells.now) }
{
    for cell in cells {
        push_other(text, cell)?;
    }
    Ok(())
}

/// Adds a cell that stands behind another one.
fn push_other(text: &mut Vec<u8>, cell: &Cell) -> Result<(), AllocError>
    ensures { OnOk result (text.new.items ≡ text.old.items ++ spec.other_text cell.now) }
{
    text.push(b'|')?;
    push_pair(text, cell)
}

/// Adds a cell as `NAME=VALUE`.
#[tactic(auto, unfolding(crate::specs::Forms::pair_text))]
fn push_pair(text: &mut Vec<u8>, cell: &Cell) -> Result<(), AllocError>
    ensures { OnOk result (text.new.items ≡ text.old.items ++ spec.pair_text cell.now) }
{
    text.extend_from_slice(cell.name())?;
    text.push(b'=')?;
    push_shown(text, cell.value())?;
    Ok(())
}

/// Adds who it is, as `C1`.
fn push_who(text: &mut Vec<u8>, who: Who) -> Result<(), AllocError>
    ensures { OnOk result (text.new.items ≡ text.old.items ++ spec.who_text who) }
{
    match who {
        Who::Client(number) => push_numbered(text, b'C', number),
        Who::Port(number) => push_numbered(text, b'P', number),
    }
}

/// Adds a letter and a number.
fn push_numbered(text: &mut Vec<u8>, letter: u8, number: u16) -> Result<(), AllocError>
    ensures { OnOk result (text.new.items ≡ text.old.items ++ spec.numbered letter number) }
{
    let mut buffer = Buffer::new();
    text.push(letter)?;
    text.extend_from_slice(buffer.format(number).as_bytes())?;
    Ok(())
}

fn way_name(way: Way) -> &'static [u8]
    ensures { result.now ≡ spec.way_name way }
{
    match way {
        Way::In => b"in",
        Way::Out => b"out",
    }
}

fn arrow(way: Way) -> &'static [u8]
    ensures { result.now ≡ spec.arrow way }
{
    match way {
        Way::In => b" < ",
        Way::Out => b" > ",
    }
}
