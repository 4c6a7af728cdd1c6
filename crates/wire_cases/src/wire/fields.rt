//! Fields, numbers, moments, and which bytes a text may have.

use case_lines::shown;
use fix_fields::split;
use fix_printing::PrintedFields;
use fix_stamp::stamp;
use std::alloc::{AllocError, Global};
use wire_law::{are_printable, are_visible, is_printable, is_visible};

/// What a call on a text, or on the bytes that are typed so, answers.
pub fn answer(alloc: Global, call: &str, text: &str, bytes: &[u8]) -> Result<String, AllocError> {
    match call {
        "fault" => fault(alloc, bytes),
        "numbers" => numbers(alloc, text),
        "stamp" => shown(alloc, &stamp(text.parse::<u64>().unwrap_or(0))),
        "text" => kind_of_text(alloc, bytes),
        "byte" => kind_of_byte(alloc, bytes),
        _ => String::from_str(alloc, "no such call"),
    }
}

/// The tag and the reason of the first fault of fields; `none`.
fn fault(alloc: Global, bytes: &[u8]) -> Result<String, AllocError> {
    let Some(fields) = split(alloc, bytes)? else {
        return String::from_str(alloc, "no fields");
    };
    match fields.first_fault() {
        Some(fault) => format!(in alloc; "tag {} reason {}", fault.tag, fault.reason),
        None => String::from_str(alloc, "none"),
    }
}

/// Each of these numbers as OrderQty (38), in fields that are cleared before it.
fn numbers(alloc: Global, text: &str) -> Result<String, AllocError> {
    let mut printed = PrintedFields::with_capacity(alloc, 0)?;
    let mut answer = String::new(alloc);
    for number in text.split(' ') {
        printed.clear();
        printed.push_number(38, number.parse::<u64>().unwrap_or(0))?;
        answer.push_str(shown(alloc, printed.text())?.as_str())?;
    }
    Ok(answer)
}

/// Whether all bytes of a text are printable, and whether all are visible.
fn kind_of_text(alloc: Global, bytes: &[u8]) -> Result<String, AllocError> {
    let (printable, visible) = (are_printable(bytes), are_visible(bytes));
    format!(in alloc; "printable {printable}, visible {visible}")
}

/// The same of one byte.
fn kind_of_byte(alloc: Global, bytes: &[u8]) -> Result<String, AllocError> {
    match bytes {
        [byte] => {
            let (printable, visible) = (is_printable(*byte), is_visible(*byte));
            format!(in alloc; "printable {printable}, visible {visible}")
        }
        _ => String::from_str(alloc, "no byte"),
    }
}
