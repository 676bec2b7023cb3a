//! Serves standard input to standard output over the sample bank in a store of one's choice, so that tests
//! can compare stores: `test_stores STORE MOMENT`. STORE is `list`, `cached` or `sql`, and every message
//! bears the moment. It calls `answer_in` of `sample_service` and ends with its status, or with 2 where its
//! arguments are refused. How the arguments are read is only tested.
#![tactic(auto)]

mod arguments;

use crate::arguments::arguments_of;
use money::Tallied;
use sample_service::{ServeFault, answer_in, fail, tell};
use std::io::BufWriter;
use std::process::ExitCode;
use std::{env, io};

/// The status of a program whose arguments are refused.
const REFUSED_ARGUMENTS: u8 = 2;

fn main(rt: HostRuntime) -> ExitCode {
    let mut errors = Tallied::new(rt.stderr());
    let status = match run(&rt) {
        Ok(Some(status)) => status,
        Err(error) if error.kind() != io::ErrorKind::InvalidData => {
            fail(&mut errors, ServeFault::Memory)
        }
        Ok(None) | Err(_) => {
            tell(&mut errors, "words: list, cached or sql, and a moment\n");
            REFUSED_ARGUMENTS
        }
    };
    ExitCode::from(status)
}

/// Reads the arguments, serves as they say, and answers the status; none where they are refused. The error is that they
/// are no text, or that memory is refused for them or for the room in which a reply is gathered.
fn run(rt: &HostRuntime) -> io::Result<Option<u8>> {
    let alloc = rt.alloc();
    let given: Vec<String> = env::args(rt)?.collect(alloc)?;
    let given: Vec<&str> = given
        .iter()
        .skip(1)
        .map(|argument| argument.as_str())
        .collect(alloc)?;
    let Some(arguments) = arguments_of(given.as_slice()) else {
        return Ok(None);
    };
    let mut input = Tallied::new(rt.stdin());
    let mut output = Tallied::new(BufWriter::new(alloc, rt.stdout())?);
    let mut errors = Tallied::new(rt.stderr());
    let (store, moment) = (arguments.store, arguments.moment);
    Ok(Some(answer_in(alloc, store, moment, &mut input, &mut output, &mut errors)))
}
