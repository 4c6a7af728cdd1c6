//! Runs a script of client messages and market messages: standard input's lines, outputs to standard output.
#![tactic(auto)]

use command_lines::run_program;
use std::env;
use std::io::{self, BufWriter, ErrorKind};
use std::process::ExitCode;

fn main(rt: HostRuntime) -> ExitCode {
    let args = match env::args(&rt) {
        Ok(args) => args,
        Err(error) if error.kind() == ErrorKind::OutOfMemory => return out_of_memory(&rt),
        Err(_) => {
            let _ = rt.eprintln("gate_script: an argument is no text");
            return ExitCode::from(2);
        }
    };
    match args.collect::<Vec<String>>(rt.alloc()) {
        Ok(words) => run(&rt, words.as_slice()),
        Err(_) => out_of_memory(&rt),
    }
}

/// Runs the script on standard input, with these words on the command line.
fn run(rt: &HostRuntime, words: &[String]) -> ExitCode {
    let alloc = rt.alloc();
    let Ok(mut output) = BufWriter::new(alloc, io::writer(rt)) else {
        return out_of_memory(rt);
    };
    let status = run_program(
        alloc,
        words,
        &mut rt.reader(),
        &mut output,
        &mut rt.stderr(),
    );
    ExitCode::from(status)
}

fn out_of_memory(rt: &impl Eprint) -> ExitCode {
    let _ = rt.eprintln("out of memory");
    ExitCode::from(1)
}
