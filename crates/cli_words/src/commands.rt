//! The commands of the program, each with its arguments and their help, as `clap` reads them.

ghost use Rattle.std.specs.Prelude.{◌≡◌, IfOk, codes, false};
ghost use Rattle.bank_terms.specs.Limits.{max_moment};
ghost use Rattle.clap.specs.Words.{App, app_of, rule_of, with_subcommand};
ghost use Rattle.clap.specs.declared.builder.Command.TheViews.{out-Command as fields_of};
ghost use Rattle.cli_words.specs.Commands.{bank_app, check_app, counter_app, flag_rule, forward_app, init_app, max_port, max_requests, number_rule, optional_rule, option_rule, port_rule, run_app, sample_app, serve_app, top_app, upgrade_app, with_places, word_rule};

use crate::words::{MAX_PORT, MAX_REQUESTS};
use bank_terms::MAX_MOMENT;
use clap::builder::ValueParser;
use clap::{Arg, ArgAction, Command};
use std::alloc::{AllocError, Global};

/// What `--version` prints after the program's name: its version, and the newest schema version of a bank's file.
const VERSION: &str = "1.0.0, schema version 3";

/// A required option whose value is a number in these bounds.
fn number<'a>(alloc: Global, id: &'a str, shown: &'a str, low: u64, high: u64) -> Arg<'a>
    ensures rule { rule_of result ≡ number_rule id.entry.now low high }
    ensures local { result.global ≡ false }
{
    Arg::new(alloc, id)
        .long(id)
        .required(true)
        .value_name(shown)
        .value_parser(ValueParser::unsigned(low, high))
}

/// A required option whose value is taken as given.
fn option<'a>(alloc: Global, id: &'a str, shown: &'a str) -> Arg<'a>
    ensures rule { rule_of result ≡ option_rule id.entry.now }
    ensures local { result.global ≡ false }
{
    Arg::new(alloc, id)
        .long(id)
        .required(true)
        .value_name(shown)
}

/// A required positional argument, which is taken as given.
fn word<'a>(alloc: Global, id: &'a str, shown: &'a str) -> Arg<'a>
    ensures rule { rule_of result ≡ word_rule id.entry.now }
    ensures local { result.global ≡ false }
{
    Arg::new(alloc, id).required(true).value_name(shown)
}

/// The moment that every message bears.
fn moment<'a>(alloc: Global) -> Arg<'a>
    ensures rule { rule_of result ≡ number_rule (codes "moment") 0 max_moment }
    ensures local { result.global ≡ false }
{
    number(alloc, "moment", "N", 0, MAX_MOMENT).help(
        "The moment of every message, in seconds from 0 to 99999999999",
    )
}

/// The file of a bank that is there.
fn bank_file<'a>(alloc: Global) -> Arg<'a>
    ensures rule { rule_of result ≡ word_rule (codes "file") }
    ensures local { result.global ≡ false }
{
    word(alloc, "file", "FILE").help("The file of a bank, as init made it")
}

/// Whether the pages of a new file end in sums.
fn sums<'a>(alloc: Global) -> Arg<'a>
    ensures rule { rule_of result ≡ flag_rule (codes "sums") }
    ensures local { result.global ≡ false }
{
    flag(alloc, "sums").help(
        "Ends each page of the new file with a sum of its bytes, by which damage shows",
    )
}

/// The list of badges.
fn badges<'a>(alloc: Global) -> Arg<'a>
    ensures rule { rule_of result ≡ option_rule (codes "badges") }
    ensures local { result.global ≡ false }
{
    option(alloc, "badges", "LIST").help(
        "A CSV file with the heading badge,user, which names the user of each badge",
    )
}

/// The port at which connections are waited for.
fn port<'a>(alloc: Global) -> Arg<'a>
    ensures rule { rule_of result ≡ number_rule (codes "port") 1 max_port }
    ensures local { result.global ≡ false }
{
    number(alloc, "port", "P", 1, MAX_PORT).help("The port of 127.0.0.1, from 1 to 65535")
}

/// The port, where it is one place of several.
fn port_if_given<'a>(alloc: Global) -> Arg<'a>
    ensures rule { rule_of result ≡ port_rule }
    ensures local { result.global ≡ false }
{
    Arg::new(alloc, "port")
        .long("port")
        .value_name("P")
        .value_parser(ValueParser::unsigned(1, MAX_PORT))
        .help("Waits for connections at this port of 127.0.0.1, from 1 to 65535")
}

/// The path of a Unix socket, where it is one place of several.
fn socket_if_given<'a>(alloc: Global) -> Arg<'a>
    ensures rule { rule_of result ≡ optional_rule (codes "socket") }
    ensures local { result.global ≡ false }
{
    Arg::new(alloc, "socket")
        .long("socket")
        .value_name("PATH")
        .help("Waits for connections at a Unix socket, made at PATH and removed at the end")
}

/// An option with no value, which is set or not.
fn flag<'a>(alloc: Global, id: &'a str) -> Arg<'a>
    ensures rule { rule_of result ≡ flag_rule id.entry.now }
    ensures local { result.global ≡ false }
{
    Arg::new(alloc, id).long(id).action(ArgAction::SetTrue)
}

/// Whether connections are waited for at a socket that is handed over.
fn inherited<'a>(alloc: Global) -> Arg<'a>
    ensures rule { rule_of result ≡ flag_rule (codes "inherited") }
    ensures local { result.global ≡ false }
{
    flag(alloc, "inherited").help(
        "Waits for connections at the listening socket handed over as descriptor 3 (LISTEN_FDS, LISTEN_PID)",
    )
}

/// Whether an end of standard input ends the program.
fn until_input_ends<'a>(alloc: Global) -> Arg<'a>
    ensures rule { rule_of result ≡ flag_rule (codes "until-input-ends") }
    ensures local { result.global ≡ false }
{
    flag(alloc, "until-input-ends").help(
        "Ends once the other side of standard input, a pipe, is closed",
    )
}

/// How many messages are counted before the program ends.
fn requests<'a>(alloc: Global) -> Arg<'a>
    ensures rule { rule_of result ≡ number_rule (codes "requests") 1 max_requests }
    ensures local { result.global ≡ false }
{
    number(alloc, "requests", "N", 1, MAX_REQUESTS).help(
        "How many messages are served, from 1 to 1000000; a connection is one at least",
    )
}

fn sample_command<'a>(alloc: Global) -> Result<Command<'a>, AllocError>
    ensures app { IfOk result (λ c. app_of c ≡ sample_app) }
    ensures local { IfOk result (λ c. (fields_of c).has_globals ≡ false) }
{
    Command::new(alloc, "sample")
        .about("Serves standard input to standard output over the sample bank, in memory")
        .arg(moment(alloc))
}

fn init_command<'a>(alloc: Global) -> Result<Command<'a>, AllocError>
    ensures app { IfOk result (λ c. app_of c ≡ init_app) }
    ensures local { IfOk result (λ c. (fields_of c).has_globals ≡ false) }
{
    let file = word(alloc, "file", "FILE").help(
        "The file to make, which is not there or holds no table",
    );
    let dir = word(alloc, "dir", "DIR").help(
        "The folder with branches.csv, tellers.csv, accounts.csv, users.csv, sets.csv, relations.csv, triples.csv and certifiers.csv",
    );
    Command::new(alloc, "init")
        .about(
            "Makes a bank in FILE from the opening lists in DIR, if its books hold and its policy is sound",
        )
        .arg(file)?
        .arg(dir)?
        .arg(sums(alloc))
}

fn check_command<'a>(alloc: Global) -> Result<Command<'a>, AllocError>
    ensures app { IfOk result (λ c. app_of c ≡ check_app) }
    ensures local { IfOk result (λ c. (fields_of c).has_globals ≡ false) }
{
    Command::new(alloc, "check")
        .about("Checks that FILE is a bank whose books hold and whose policy is sound")
        .arg(bank_file(alloc))
}

fn upgrade_command<'a>(alloc: Global) -> Result<Command<'a>, AllocError>
    ensures app { IfOk result (λ c. app_of c ≡ upgrade_app) }
    ensures local { IfOk result (λ c. (fields_of c).has_globals ≡ false) }
{
    let file = word(alloc, "file", "FILE").help(
        "The file of a bank, as an earlier version of this program made it",
    );
    Command::new(alloc, "upgrade")
        .about(
            "Migrates the bank in FILE to this schema version, if its books hold and its policy is sound",
        )
        .arg(file)
}

fn forward_command<'a>(alloc: Global) -> Result<Command<'a>, AllocError>
    ensures app { IfOk result (λ c. app_of c ≡ forward_app) }
    ensures local { IfOk result (λ c. (fields_of c).has_globals ≡ false) }
{
    let new = word(alloc, "new", "NEW").help(
        "The file to make, which is not there or holds no table",
    );
    Command::new(alloc, "forward")
        .about("Makes in NEW the next year's bank of the one in FILE, if every day is closed")
        .arg(bank_file(alloc))?
        .arg(new)?
        .arg(sums(alloc))
}

fn run_command<'a>(alloc: Global) -> Result<Command<'a>, AllocError>
    ensures app { IfOk result (λ c. app_of c ≡ run_app) }
    ensures local { IfOk result (λ c. (fields_of c).has_globals ≡ false) }
{
    Command::new(alloc, "run")
        .about("Serves standard input to standard output over the bank in FILE")
        .arg(bank_file(alloc))?
        .arg(badges(alloc))?
        .arg(moment(alloc))
}

fn serve_command<'a>(alloc: Global) -> Result<Command<'a>, AllocError>
    ensures app { IfOk result (λ c. app_of c ≡ serve_app) }
    ensures local { IfOk result (λ c. (fields_of c).has_globals ≡ false) }
{
    Command::new(alloc, "serve")
        .about(
            "Serves connections at a port of this machine, one after another, over the bank in FILE",
        )
        .arg(bank_file(alloc))?
        .arg(badges(alloc))?
        .arg(port(alloc))?
        .arg(requests(alloc))
}

/// The command with the places at which connections may be waited for.
fn with_places<'a>(alloc: Global, command: Command<'a>) -> Result<Command<'a>, AllocError>
    ensures app { IfOk result (λ c. app_of c ≡ with_places (app_of command.entry)) }
    ensures local { (fields_of command.entry).has_globals ≡ false → IfOk result (λ c. (fields_of c).has_globals ≡ false) }
{
    command
        .arg(port_if_given(alloc))?
        .arg(socket_if_given(alloc))?
        .arg(inherited(alloc))
}

fn counter_command<'a>(alloc: Global) -> Result<Command<'a>, AllocError>
    ensures app { IfOk result (λ c. app_of c ≡ counter_app) }
    ensures local { IfOk result (λ c. (fields_of c).has_globals ≡ false) }
{
    let command = Command::new(alloc, "counter")
        .about(
            "Serves many connections at once over the bank in FILE, at exactly one of --port, --socket and --inherited",
        )
        .arg(bank_file(alloc))?
        .arg(badges(alloc))?;
    let placed = with_places(alloc, command)?;
    placed.arg(until_input_ends(alloc))
}

fn top_command<'a>(alloc: Global) -> Result<Command<'a>, AllocError>
    ensures { IfOk result (λ c. app_of c ≡ top_app) }
{
    let command = Command::new(alloc, "bank_cli").bin_name("bank_cli")?;
    Ok(
        command
            .version(VERSION)
            .about("A branch and teller system")
            .no_binary_name(true)
            .subcommand_required(true),
    )
}

/// The command with another as its subcommand, where that was made.
fn with_command<'a>(
    command: Command<'a>,
    sub: Result<Command<'a>, AllocError>,
) -> Result<Command<'a>, AllocError>
    ensures { (app : App) → IfOk sub.entry (λ s. (app_of s ≡ app) × ((fields_of s).has_globals ≡ false))
        → IfOk result (λ c. app_of c ≡ with_subcommand (app_of command.entry) app.top) }
{
    command.subcommand(sub?)
}

/// The command line of the program.
pub(crate) fn bank_command<'a>(alloc: Global) -> Result<Command<'a>, AllocError>
    ensures { IfOk result (λ c. app_of c ≡ bank_app) }
{
    let command = with_command(top_command(alloc)?, sample_command(alloc))?;
    let command = with_command(command, init_command(alloc))?;
    let command = with_command(command, check_command(alloc))?;
    let command = with_command(command, upgrade_command(alloc))?;
    let command = with_command(command, forward_command(alloc))?;
    let command = with_command(command, run_command(alloc))?;
    let command = with_command(command, serve_command(alloc))?;
    with_command(command, counter_command(alloc))
}
