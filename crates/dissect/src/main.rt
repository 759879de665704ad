#![tactic(auto)]
//! Takes messages apart, one a line in hexadecimal, and prints their elements or why they are refused.

mod causes;
mod counted;
mod hex;
mod identity;
mod names;
mod refusals;
mod report;
mod shown;

use crate::report::Report;
use anyhow::bail;
use std::io::{BufRead, BufReader};
use std::process::ExitCode;
use std::{env, fs, io};
use text::{LineError, read_line};

fn main(rt: HostRuntime) -> ExitCode {
    match run(&rt) {
        Ok(code) => code,
        Err(error) => {
            let _ = eprintln!(rt; "dissect: {error}");
            ExitCode::FAILURE
        }
    }
}

// Reports what the arguments name. What was wrong has been said when it ends with a code of failure.
fn run(rt: &HostRuntime) -> anyhow::Result<ExitCode> {
    // The first is the program's own name.
    let mut args = env::args(rt)?.skip(1);
    match (args.next(), args.next()) {
        (None, _) => Ok(dissect(rt, BufReader::new(rt.alloc(), rt.stdin())?)?),
        (Some(path), None) => Ok(dissect_file(rt, path.as_str())?),
        (Some(_), Some(_)) => { bail!("more than one argument: give the file to read, or nothing") }
    }
}

// That a file cannot be read is said here: an `anyhow::Error` keeps no more than the start of a long text.
fn dissect_file(rt: &HostRuntime, path: &str) -> io::Result<ExitCode> {
    match fs::read(rt, path) {
        Ok(octets) => dissect(rt, octets.as_slice()),
        Err(error) => {
            eprintln!(rt; "dissect: {path}: {error}")?;
            Ok(ExitCode::FAILURE)
        }
    }
}

// Reports each line of the input, and succeeds where every line that is not blank held octets.
fn dissect<B: BufRead + Drop>(rt: &HostRuntime, input: B) -> io::Result<ExitCode> {
    let mut code = ExitCode::SUCCESS;
    // Not every line is a message, so no iterator numbers the messages.
    let mut number = 0u64;
    for (line_number, line) in (1u64..).zip(input.split(rt.alloc(), b'\n')) {
        match read_line(rt.alloc(), line?.as_slice()) {
            Ok(None) => {}
            Ok(Some(octets)) => {
                number = number.saturating_add(1);
                rt.print(Report {
                    number,
                    octets: octets.as_slice(),
                })?;
            }
            Err(error @ LineError::NotOctets) => {
                code = ExitCode::FAILURE;
                eprintln!(rt; "line {line_number}: {error}")?;
            }
            Err(LineError::NoMemory(error)) => return Err(error.into()),
        }
    }
    Ok(code)
}
