//! What carries events: engines of links, pages of the journal, threads that serve a line. Lines of standard input say
//! what is tried of the first two, and what comes of it is printed; last what comes of the third. `README.md` has the
//! lines.
#![tactic(auto)]

mod journal;
mod links;
mod sections;
mod serving;

use case_lines::take_lines;
use sections::Cases;
use std::io::{self, Write};

fn main(rt: HostRuntime) -> io::Result<()> {
    let alloc = rt.alloc();
    let mut output = io::writer(&rt);
    take_lines(alloc, &mut Cases::new(alloc), rt.reader(), &mut output)?;
    output.write_all(serving::shown(&rt, alloc)?.as_slice())
}
