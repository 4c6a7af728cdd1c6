//! Text in HTML.

ghost use Rattle.std.specs.Prelude.{◌≡◌, ◌++◌, OnOk, string_bytes};
ghost use Rattle.status_page.specs.Html.{escaped, escaped_byte};

use std::alloc::AllocError;

/// Appends a text so that HTML shows it as it is: nothing in it begins a tag or an entity, or ends an attribute. A byte
/// that isn't printable ASCII is shown as a dot.
pub fn push_escaped(page: &mut String, text: &[u8]) -> Result<(), AllocError>
    ensures { OnOk result (string_bytes page.new ≡ string_bytes page.old ++ escaped text.now) }
{
    for byte in text {
        push_byte(page, *byte)?;
    }
    Ok(())
}

/// Appends a byte so.
fn push_byte(page: &mut String, byte: u8) -> Result<(), AllocError>
    ensures { OnOk result (string_bytes page.new ≡ string_bytes page.old ++ escaped_byte byte) }
{
    if byte == b'&' {
        page.push_str("&amp;")
    } else if byte == b'<' {
        page.push_str("&lt;")
    } else if byte == b'>' {
        page.push_str("&gt;")
    } else if byte == b'"' {
        page.push_str("&quot;")
    } else if byte == b'\'' {
        page.push_str("&#39;")
    } else if 32 <= byte && byte <= 126 {
        page.push(char::from(byte))
    } else {
        page.push_str(".")
    }
}
