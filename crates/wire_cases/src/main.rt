//! Asks what stands below the orders, part by part: a call in each line of standard input, the line with its answer to
//! standard output; or cases of a session, of which each gets a verdict. `README.md` has the lines.
#![tactic(auto)]

mod ports;
mod sections;
mod sessions;
mod settings;
mod values;
mod wire;

use case_lines::take_lines;
use ouch_codec::one_answer;
use sections::Cases;
use soup_packets::{one_list_of_packets, one_spelling};
use soup_session::links_end_by_a_close;
use std::io;

fn main(rt: HostRuntime) -> io::Result<()> {
    // The laws of what is called here. They do nothing.
    one_answer();
    one_spelling();
    one_list_of_packets();
    links_end_by_a_close();
    let alloc = rt.alloc();
    let mut cases = Cases::new(alloc)?;
    take_lines(alloc, &mut cases, rt.reader(), &mut io::writer(&rt))
}
