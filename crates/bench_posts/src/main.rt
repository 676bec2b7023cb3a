//! Serves standard input to standard output over a synthetic bank, and prints on standard error how many
//! messages it answered and how long that took, so that a script can compare stores and sizes: `bench_posts
//! STORE BRANCHES ENTRIES TRIPLES SLIPS`. STORE is `lists`, `tables`, `cached_tables`, `file` or
//! `cached_file`; the file is `bank.db` where the program runs. No contract says what it prints: `create` and
//! `serve` have theirs.
#![tactic(auto)]

mod arguments;
mod client;
mod stores;
mod timed;

use crate::arguments::{Arguments, arguments_of};
use crate::stores::serve_in;
use std::env;
use std::io::Write;
use std::process::ExitCode;

/// The status of a program whose arguments are refused.
const REFUSED_ARGUMENTS: u8 = 2;

/// The status of a program that was refused memory, the clock, a stream or the file.
const REFUSED_MEANS: u8 = 3;

fn main(rt: HostRuntime) -> ExitCode {
    let Some(arguments) = given_arguments(&rt) else {
        return ExitCode::from(REFUSED_ARGUMENTS);
    };
    match serve_in(&rt, arguments) {
        Some(times) => {
            let _ = writeln!(rt.stderr(), "{times}");
            ExitCode::SUCCESS
        }
        None => ExitCode::from(REFUSED_MEANS),
    }
}

/// What the arguments of the command line ask for. None where they are refused.
fn given_arguments(rt: &HostRuntime) -> Option<Arguments> {
    let alloc = rt.alloc();
    let given: Vec<String> = env::args(rt).ok()?.collect(alloc).ok()?;
    let given: Vec<&str> = given
        .iter()
        .skip(1)
        .map(|argument| argument.as_str())
        .collect(alloc)
        .ok()?;
    arguments_of(given.as_slice())
}
