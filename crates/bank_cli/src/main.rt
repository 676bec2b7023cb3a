//! The bank program. `main` takes the arguments of the command line, the standard streams, the machine's files, its places
//! for connections and its clock, and hands them to `answer`, which does what the arguments ask for and returns the status.
//! What each action promises is said by `IsActed`, over every stream, every start of a file, every place and every clock;
//! that the program hands the right ones on is seen by reading `run`.
#![tactic(auto)]

mod act;
mod streams;

use crate::act::answer;
use crate::streams::Streams;
use cli_counter::MachinePlaces;
use cli_file::{Machine, MachineLists, Progress};
use cli_words::unread;
use counter_clocks::MachineClock;
use money::Tallied;
use sqlite::Unknown;
use std::io::{BufWriter, IsTerminal};
use std::process::ExitCode;
use std::{env, io};

fn main(rt: HostRuntime) -> ExitCode {
    let status = match run(&rt) {
        Ok(status) => status,
        Err(error) => unread(&mut Tallied::new(rt.stderr()), error.kind()),
    };
    ExitCode::from(status)
}

/// Reads the arguments of the command line, does what they ask for, and returns the status. What standard output gets
/// is gathered, so that a reply goes out in one write. Progress of long work is shown where standard error is a
/// terminal. The error is that the arguments are no text, or that memory is refused for them or for that room.
fn run(rt: &HostRuntime) -> io::Result<u8> {
    let alloc = rt.alloc();
    let given: Vec<String> = env::args(rt)?.collect(alloc)?;
    let words: Vec<&str> = given
        .iter()
        .skip(1)
        .map(|word| word.as_str())
        .collect(alloc)?;
    let is_watched = rt.stderr().is_terminal();
    let mut streams = Streams {
        input: Tallied::new(rt.stdin()),
        output: Tallied::new(BufWriter::new(alloc, rt.stdout())?),
        errors: Tallied::new(rt.stderr()),
        progress: Progress::on(if is_watched { Some(rt.stderr()) } else { None }),
    };
    let (ended, left, place, _, _, status) = answer(
        rt,
        words.as_slice(),
        Machine { start: Unknown },
        Machine { start: Unknown },
        &MachineLists { rt },
        MachinePlaces { rt },
        MachineClock::of(rt),
        &mut streams,
    );
    drop(ended);
    drop(left);
    drop(place);
    Ok(status)
}
