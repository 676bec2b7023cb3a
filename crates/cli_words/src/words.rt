//! The actions of the program, and how one is read from its arguments.

ghost use Rattle.std.specs.Prelude.{◌≡◌, ◌<◌, ◌^◌, ℕ, List, [], IfOk, IfErr, IfSome, IsNone, codes, map, option_map};
ghost use Rattle.clap.specs.Words.{fault_of, first_of, found_of, rows_of, subcommand_of, subcommand_rows_of};
ghost use Rattle.counter_places.specs.declared.place.Place.{Place as ThePlace};
ghost use Rattle.cli_words.specs.Commands.{AsksServed, HasMoment, HasNumber, HasNumberIn, IsFlag, IsNamedBy, IsNamedIn, IsPlaceIn, IsRefusal, NamesNone, bank_app, max_port, max_requests};

use crate::commands::bank_command;
use clap::error::ErrorKind;
use clap::{ArgMatches, Error};
use counter_clocks::Moment;
use counter_places::Place;
use std::alloc::Global;

/// The greatest port.
pub(crate) const MAX_PORT: u64 = 65_535;

/// The most messages that connections are asked to count.
pub(crate) const MAX_REQUESTS: u64 = 1_000_000;

/// What the program is asked to do. A file, a folder and a list are named as they were given.
#[derive(Clone, Copy)]
pub enum Action<'a> {
    /// To serve standard input to standard output over the sample bank.
    Sample {
        /// The moment of every message.
        moment: Moment,
    },
    /// To make a bank in a file from opening lists.
    Init {
        /// The file.
        file: &'a str,
        /// The folder of the lists.
        dir: &'a str,
        /// Whether the pages of a new file end in sums.
        sums: bool,
    },
    /// To say whether a bank stands in a file.
    Check {
        /// The file.
        file: &'a str,
    },
    /// To carry the bank in a file over to this version.
    Upgrade {
        /// The file.
        file: &'a str,
    },
    /// To begin the next year of the bank in a file, in another file.
    Forward {
        /// The file.
        file: &'a str,
        /// The file of the next year.
        new: &'a str,
        /// Whether the pages of a new file end in sums.
        sums: bool,
    },
    /// To serve standard input to standard output over the bank in a file.
    Run {
        /// The file.
        file: &'a str,
        /// The list of badges.
        badges: &'a str,
        /// The moment of every message.
        moment: Moment,
    },
    /// To serve connections over the bank in a file.
    Serve {
        /// The file.
        file: &'a str,
        /// The list of badges.
        badges: &'a str,
        /// The port, 1 to 65,535.
        port: u16,
        /// How many messages are counted, 1 to 1,000,000.
        requests: u32,
    },
    /// To serve many connections at once over the bank in a file.
    Counter {
        /// The file.
        file: &'a str,
        /// The list of badges.
        badges: &'a str,
        /// Where connections are waited for.
        place: Place<'a>,
        /// Whether an end of standard input ends it, where that is a pipe.
        until_input_ends: bool,
    },
}

/// The number among the matches, or none where there is none below 2^64.
fn number_of(found: &ArgMatches<'_>, id: &str) -> Option<u64>
    ensures given { IfSome result (HasNumber (rows_of (found_of found.now)) id.now) }
    ensures missing { IsNone result → (n : ℕ) → n < 2 ^ 64 → ¬ (HasNumber (rows_of (found_of found.now)) id.now n) }
{
    found.get_one::<u64>(id)
}

/// The text among the matches.
fn text_of<'a>(found: &ArgMatches<'a>, id: &str) -> Option<&'a str>
    ensures { option_map (λ s. s.now) result ≡ first_of id.now (rows_of (found_of found.now)) }
{
    found.get_str(id)
}

/// The moment among the matches, or none where there is none in its range.
fn moment_in(found: &ArgMatches<'_>) -> Option<Moment>
    ensures given { IfSome result (HasMoment (rows_of (found_of found.now))) }
    ensures missing { IsNone result → (n : ℕ) → ¬ (HasMoment (rows_of (found_of found.now)) n) }
{
    Moment::new(number_of(found, "moment")?)
}

/// The port among the matches, or none where there is none in its range.
fn port_in(found: &ArgMatches<'_>) -> Option<u16>
    ensures given { IfSome result (HasNumberIn (rows_of (found_of found.now)) (codes "port") 1 max_port) }
    ensures missing { IsNone result → (n : ℕ) → ¬ (HasNumberIn (rows_of (found_of found.now)) (codes "port") 1 max_port n) }
{
    let port = number_of(found, "port")?;
    if 1 <= port && port <= MAX_PORT {
        Some(port as u16)
    } else {
        None
    }
}

/// How many messages the matches have counted, or none where there is no such number in its range.
fn requests_in(found: &ArgMatches<'_>) -> Option<u32>
    ensures given { IfSome result (HasNumberIn (rows_of (found_of found.now)) (codes "requests") 1 max_requests) }
    ensures missing { IsNone result → (n : ℕ) → ¬ (HasNumberIn (rows_of (found_of found.now)) (codes "requests") 1 max_requests n) }
{
    let requests = number_of(found, "requests")?;
    if 1 <= requests && requests <= MAX_REQUESTS {
        Some(requests as u32)
    } else {
        None
    }
}

/// Whether an option with no value is set.
fn flag_of(found: &ArgMatches<'_>, id: &str) -> bool
    ensures { IsFlag (rows_of (found_of found.now)) id.now result }
{
    match text_of(found, id) {
        Some("true") => true,
        _ => false,
    }
}

/// The one place that the matches have, or none where they have none or several.
fn place_in<'a>(found: &ArgMatches<'a>) -> Option<Place<'a>>
    ensures given { IfSome result (IsPlaceIn (rows_of (found_of found.now))) }
    ensures missing { IsNone result → (place : ThePlace) → ¬ (IsPlaceIn (rows_of (found_of found.now)) place) }
{
    let is_inherited = flag_of(found, "inherited");
    match (text_of(found, "port"), text_of(found, "socket")) {
        (Some(_), Some(_)) => None,
        (Some(_), None) => {
            if is_inherited {
                None
            } else {
                Some(Place::Port(port_in(found)?))
            }
        }
        (None, Some(path)) => {
            if is_inherited {
                None
            } else {
                Some(Place::Socket(path))
            }
        }
        (None, None) => {
            if is_inherited {
                Some(Place::Inherited)
            } else {
                None
            }
        }
    }
}

/// The file and the list of badges among the matches of `run`, `serve` and `counter`.
fn served_in<'a>(found: &ArgMatches<'a>) -> Option<(&'a str, &'a str)>
    ensures given { IfSome result (λ p. AsksServed (rows_of (found_of found.now)) p.0.now p.1.now) }
    ensures missing { IsNone result → (file badges : List ℕ) → ¬ (AsksServed (rows_of (found_of found.now)) file badges) }
{
    let file = text_of(found, "file")?;
    let badges = text_of(found, "badges")?;
    Some((file, badges))
}

/// What `sample` asks for with these matches, or none where it asks for nothing.
fn sample_in<'a>(found: &ArgMatches<'_>) -> Option<Action<'a>>
    ensures named { IfSome result (IsNamedIn (codes "sample") (rows_of (found_of found.now))) }
    ensures missing { IsNone result → (action : Action) → ¬ (IsNamedIn (codes "sample") (rows_of (found_of found.now)) action) }
{
    Some(Action::Sample {
        moment: moment_in(found)?,
    })
}

/// What `init` asks for.
fn init_in<'a>(found: &ArgMatches<'a>) -> Option<Action<'a>>
    ensures named { IfSome result (IsNamedIn (codes "init") (rows_of (found_of found.now))) }
    ensures missing { IsNone result → (action : Action) → ¬ (IsNamedIn (codes "init") (rows_of (found_of found.now)) action) }
{
    let file = text_of(found, "file")?;
    let dir = text_of(found, "dir")?;
    let sums = flag_of(found, "sums");
    Some(Action::Init { file, dir, sums })
}

/// What `check` asks for.
fn check_in<'a>(found: &ArgMatches<'a>) -> Option<Action<'a>>
    ensures named { IfSome result (IsNamedIn (codes "check") (rows_of (found_of found.now))) }
    ensures missing { IsNone result → (action : Action) → ¬ (IsNamedIn (codes "check") (rows_of (found_of found.now)) action) }
{
    Some(Action::Check {
        file: text_of(found, "file")?,
    })
}

/// What `upgrade` asks for.
fn upgrade_in<'a>(found: &ArgMatches<'a>) -> Option<Action<'a>>
    ensures named { IfSome result (IsNamedIn (codes "upgrade") (rows_of (found_of found.now))) }
    ensures missing { IsNone result → (action : Action) → ¬ (IsNamedIn (codes "upgrade") (rows_of (found_of found.now)) action) }
{
    Some(Action::Upgrade {
        file: text_of(found, "file")?,
    })
}

/// What `forward` asks for.
fn forward_in<'a>(found: &ArgMatches<'a>) -> Option<Action<'a>>
    ensures named { IfSome result (IsNamedIn (codes "forward") (rows_of (found_of found.now))) }
    ensures missing { IsNone result → (action : Action) → ¬ (IsNamedIn (codes "forward") (rows_of (found_of found.now)) action) }
{
    let file = text_of(found, "file")?;
    let new = text_of(found, "new")?;
    let sums = flag_of(found, "sums");
    Some(Action::Forward { file, new, sums })
}

/// What `run` asks for.
fn run_in<'a>(found: &ArgMatches<'a>) -> Option<Action<'a>>
    ensures named { IfSome result (IsNamedIn (codes "run") (rows_of (found_of found.now))) }
    ensures missing { IsNone result → (action : Action) → ¬ (IsNamedIn (codes "run") (rows_of (found_of found.now)) action) }
{
    let (file, badges) = served_in(found)?;
    Some(Action::Run {
        file,
        badges,
        moment: moment_in(found)?,
    })
}

/// What `serve` asks for.
fn serve_in<'a>(found: &ArgMatches<'a>) -> Option<Action<'a>>
    ensures named { IfSome result (IsNamedIn (codes "serve") (rows_of (found_of found.now))) }
    ensures missing { IsNone result → (action : Action) → ¬ (IsNamedIn (codes "serve") (rows_of (found_of found.now)) action) }
{
    let (file, badges) = served_in(found)?;
    Some(Action::Serve {
        file,
        badges,
        port: port_in(found)?,
        requests: requests_in(found)?,
    })
}

/// What `counter` asks for.
fn counter_in<'a>(found: &ArgMatches<'a>) -> Option<Action<'a>>
    ensures named { IfSome result (IsNamedIn (codes "counter") (rows_of (found_of found.now))) }
    ensures missing { IsNone result → (action : Action) → ¬ (IsNamedIn (codes "counter") (rows_of (found_of found.now)) action) }
{
    let (file, badges) = served_in(found)?;
    Some(Action::Counter {
        file,
        badges,
        place: place_in(found)?,
        until_input_ends: flag_of(found, "until-input-ends"),
    })
}

/// The action of the subcommand of this name with these matches, or none where they ask for none.
fn action_in<'a>(name: &str, found: &ArgMatches<'a>) -> Option<Action<'a>>
    ensures named { IfSome result (IsNamedIn name.now (rows_of (found_of found.now))) }
    ensures missing { IsNone result → (action : Action) → ¬ (IsNamedIn name.now (rows_of (found_of found.now)) action) }
{
    match name {
        "sample" => sample_in(found),
        "init" => init_in(found),
        "check" => check_in(found),
        "upgrade" => upgrade_in(found),
        "forward" => forward_in(found),
        "run" => run_in(found),
        "serve" => serve_in(found),
        "counter" => counter_in(found),
        _ => None,
    }
}

/// The action of the command that was met, or none where none was met that asks for one.
fn action_of<'a>(matches: &ArgMatches<'a>) -> Option<Action<'a>>
    ensures named { IfSome result (IsNamedBy (subcommand_rows_of matches.now)) }
    ensures missing { IsNone result → NamesNone (subcommand_rows_of matches.now) }
{
    let (name, found) = matches.subcommand()?;
    action_in(name, found)
}

/// The action that the arguments after the program's name ask for. The error is that they are refused, that help is
/// asked for, or that memory is refused. Arguments without fault that name an action are refused for want of memory alone.
pub fn read_words<'a>(alloc: Global, words: &'a [&'a str]) -> Result<Action<'a>, Error>
    ensures named { IfOk result (IsNamedBy (subcommand_of bank_app (map (λ w. w.now) words.now))) }
    ensures taken { IfOk result (λ _. fault_of bank_app (map (λ w. w.now) words.now) ≡ []) }
    ensures refused { IfErr result (IsRefusal (map (λ w. w.now) words.now)) }
{
    let mut command = bank_command(alloc)?;
    let matches = command.try_get_matches_from_mut(words)?;
    match action_of(&matches) {
        Some(action) => Ok(action),
        // Of arguments that the parser lets through, only those of counter may lack something: its one place.
        None => Err(command.error(
            ErrorKind::MissingRequiredArgument,
            "counter takes exactly one of --port, --socket and --inherited",
        )?),
    }
}
