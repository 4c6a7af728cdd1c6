//! Settings files that lines say.

use std::alloc::{AllocError, Global};

/// A port and a client, of which nothing is refused.
const GOOD: &str = "\
comp = \"GATE\"
[[port]]
name = \"P1\"
address = \"10.1.1.5:26400\"
user = \"USER01\"
password = \"PASSWORD\"
[[client]]
comp = \"C1\"
listen = \"0.0.0.0:9001\"
port = \"P1\"
firm = \"FIRM\"
capacity = \"A\"
customer = \"R\"
";

/// What stands behind `GOOD` for a second port and a second client.
const SECOND: &str = "\
[[port]]
name = \"P2\"
address = \"10.1.1.5:26401\"
user = \"USER02\"
password = \"\"
[[client]]
comp = \"C2\"
listen = \"0.0.0.0:9002\"
port = \"P1\"
firm = \"F\"
capacity = \"P\"
customer = \" \"
";

/// No TOML, in place of a file without the part that was to be another.
const NO_PART: &str = "no such part";

/// A file of one port and one client.
pub fn good_file(alloc: Global) -> Result<String, AllocError> {
    String::from_str(alloc, GOOD)
}

/// The same with a second port and a second client.
pub fn two_of_each(alloc: Global) -> Result<String, AllocError> {
    format!(in alloc; "{GOOD}{SECOND}")
}

/// A text with `|` for the end of each line.
pub fn lines_of(alloc: Global, text: &str) -> Result<String, AllocError> {
    let mut lines = String::new(alloc);
    for character in text.chars() {
        lines.push(if character == '|' { '\n' } else { character })?;
    }
    Ok(lines)
}

/// A file as `PART => OTHER` changes it: the part, where it stands first, is the other; the file itself where nothing
/// is said. Where there is no such part, a text that is no TOML.
pub fn changed(alloc: Global, file: String, change: &str) -> Result<String, AllocError> {
    if change.is_empty() {
        return Ok(file);
    }
    let change = lines_of(alloc, change)?;
    match change.as_str().split_once(" => ") {
        Some((part, other)) => with_part(alloc, file.as_str(), part, other),
        None => String::from_str(alloc, NO_PART),
    }
}

/// A file in which a part, where it stands first, is another.
fn with_part(alloc: Global, file: &str, part: &str, other: &str) -> Result<String, AllocError> {
    match file.split_once(part) {
        Some((before, behind)) => format!(in alloc; "{before}{other}{behind}"),
        None => String::from_str(alloc, NO_PART),
    }
}

/// The file of `PORTS CLIENTS`, so many ports and clients, each with a name and an address of its own.
pub fn of_many(alloc: Global, counts: &str) -> Result<String, AllocError> {
    let (ports, clients) = counts.split_once(' ').unwrap_or((counts, ""));
    let mut file = String::from_str(alloc, "comp = 'G'\n")?;
    add_ports(&mut file, ports.parse::<u16>().unwrap_or(0))?;
    add_clients(&mut file, clients.parse::<u16>().unwrap_or(0))?;
    Ok(file)
}

/// Adds so many ports.
fn add_ports(file: &mut String, count: u16) -> Result<(), AllocError> {
    for k in 0..count {
        write!(
            file,
            "[[port]]\nname = 'P{k}'\naddress = 'h:{k}'\nuser = 'U'\npassword = ''\n"
        )?;
    }
    Ok(())
}

/// Adds so many clients.
fn add_clients(file: &mut String, count: u16) -> Result<(), AllocError> {
    for k in 0..count {
        write!(
            file,
            "[[client]]\ncomp = 'C{k}'\nlisten = 'h:{k}'\nport = 'P0'\nfirm = 'F'\ncapacity = 'A'\n\
             customer = 'N'\n"
        )?;
    }
    Ok(())
}
