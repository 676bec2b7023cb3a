//! The action that the command line names, carried out up to the exit status.

ghost use Rattle.std.specs.Prelude.{map};
ghost use Rattle.bank_cli.specs.Acted.{IsActed, IsAnswered};
ghost use Rattle.exit_lines.specs.Streams.{stream_at, streams_at};

use crate::streams::Streams;
use cli_counter::{Listening, PlaceLeft, Places, attend_file};
use cli_file::{FileLeft, Lists, Opener, PathLeft, check_file, end, say_done};
use cli_make::{forward_file, init_file, upgrade_file};
use cli_serve::{CountedPort, Failures, run_file, serve_file};
use cli_words::{Action, explain, read_words};
use counter_api::Clock;
use sample_service::{answer_with_cache, sql_sample};
use sqlite_disk::Disk;
use std::io::{Read, Write};
use std::os::fd::RawFd;

/// The descriptor of standard input.
const STANDARD_INPUT: RawFd = 0;

/// Does what the arguments after the program's name ask for, and returns the status beside what is left of the file of a
/// year that ends, of the other file, and of the place where connections came; the clock; and what failed at a port. Help
/// goes to the output, why arguments are refused to the errors, and steps of long work to the progress. A file is opened
/// by the opener, that of a year that ends by one of its own; lists are read where their texts stand. Messages of
/// connections bear the clock's moments.
pub fn answer<
    A: Disk + Drop,
    F: Opener<A>,
    D: Disk + Drop,
    O: Opener<D>,
    T: Lists,
    L: Places,
    C: Clock,
    R: Read,
    W: Write,
    E: Write,
    P: Write + Drop,
>(
    rt: &HostRuntime,
    words: &[&str],
    earlier: F,
    opener: O,
    lists: &T,
    places: L,
    clock: C,
    streams: &mut Streams<R, W, E, P>,
) -> (
    PathLeft<F, FileLeft<A>>,
    PathLeft<O, FileLeft<D>>,
    PlaceLeft<L>,
    C,
    Option<Failures>,
    u8,
)
    ensures { IsAnswered A.Disk F.image D.Disk O.image (record { given = L.Entry.given; ways = L.Entry.Stream.ways; full = L.Entry.Stream.full; failed = L.Entry.Stream.failed; begun = L.begun; reported = L.System.reported; shows = L.shows })
        earlier opener T.text places C.may_give clock result.3 result.4 (map (λ w. w.now) words.now)
        (streams_at R.remaining W.contents streams.old.input streams.old.output)
        (streams_at R.remaining W.contents streams.new.input streams.new.output)
        (stream_at E.contents streams.old.errors) (stream_at E.contents streams.new.errors) result.0 result.1 result.2 result.5 }
{
    match read_words(rt.alloc(), words) {
        Ok(action) => act(rt, &action, earlier, opener, lists, places, clock, streams),
        Err(error) => {
            let status = explain(rt.alloc(), &error, &mut streams.output, &mut streams.errors);
            (
                PathLeft::Unopened(earlier),
                PathLeft::Unopened(opener),
                PathLeft::Unopened(places),
                clock,
                None,
                status,
            )
        }
    }
}

/// Does what the program is asked for, and answers its status beside what is left of both files and of the place, the
/// clock, and what failed at a port.
fn act<
    A: Disk + Drop,
    F: Opener<A>,
    D: Disk + Drop,
    O: Opener<D>,
    T: Lists,
    L: Places,
    C: Clock,
    R: Read,
    W: Write,
    E: Write,
    P: Write + Drop,
>(
    rt: &HostRuntime,
    action: &Action<'_>,
    earlier: F,
    opener: O,
    lists: &T,
    places: L,
    clock: C,
    streams: &mut Streams<R, W, E, P>,
) -> (
    PathLeft<F, FileLeft<A>>,
    PathLeft<O, FileLeft<D>>,
    PlaceLeft<L>,
    C,
    Option<Failures>,
    u8,
)
    ensures { IsActed A.Disk F.image D.Disk O.image (record { given = L.Entry.given; ways = L.Entry.Stream.ways; full = L.Entry.Stream.full; failed = L.Entry.Stream.failed; begun = L.begun; reported = L.System.reported; shows = L.shows })
        earlier opener T.text places C.may_give clock result.3 result.4 action.now
        (streams_at R.remaining W.contents streams.old.input streams.old.output)
        (streams_at R.remaining W.contents streams.new.input streams.new.output)
        (stream_at E.contents streams.old.errors) (stream_at E.contents streams.new.errors) result.0 result.1 result.2 result.5 }
{
    let Streams {
        input,
        output,
        errors,
        progress,
    } = streams;
    match *action {
        Action::Sample { moment } => {
            let alloc = rt.alloc();
            let status = answer_with_cache(alloc, sql_sample(alloc), moment, input, output, errors);
            (
                PathLeft::Unopened(earlier),
                PathLeft::Unopened(opener),
                PathLeft::Unopened(places),
                clock,
                None,
                status,
            )
        }
        Action::Init { file, dir, sums } => {
            let (left, done) = init_file(rt, file, lists, dir, sums, opener, progress);
            let status = say_done(done, "made\n", output, errors);
            (
                PathLeft::Unopened(earlier),
                left,
                PathLeft::Unopened(places),
                clock,
                None,
                status,
            )
        }
        Action::Check { file } => {
            let (left, done) = check_file(rt, file, opener, progress);
            let status = say_done(done, "books hold\n", output, errors);
            (
                PathLeft::Unopened(earlier),
                left,
                PathLeft::Unopened(places),
                clock,
                None,
                status,
            )
        }
        Action::Upgrade { file } => {
            let (left, done) = upgrade_file(rt, file, opener, progress);
            let status = say_done(done, "carried over\n", output, errors);
            (
                PathLeft::Unopened(earlier),
                left,
                PathLeft::Unopened(places),
                clock,
                None,
                status,
            )
        }
        Action::Forward { file, new, sums } => {
            let (ended, left, done) = forward_file(rt, file, new, sums, earlier, opener, progress);
            let status = say_done(done, "carried forward\n", output, errors);
            (ended, left, PathLeft::Unopened(places), clock, None, status)
        }
        Action::Run {
            file,
            badges,
            moment,
        } => {
            let (left, done) = run_file(
                rt, file, lists, badges, moment, opener, input, output, progress,
            );
            let status = end(done, output, errors);
            (
                PathLeft::Unopened(earlier),
                left,
                PathLeft::Unopened(places),
                clock,
                None,
                status,
            )
        }
        Action::Serve {
            file,
            badges,
            port,
            requests,
        } => {
            let at = CountedPort { port, requests };
            let (left, clock, failures, done) = serve_file(
                rt, file, lists, badges, at, opener, clock, output, progress,
            );
            let status = end(done, output, errors);
            (
                PathLeft::Unopened(earlier),
                left,
                PathLeft::Unopened(places),
                clock,
                failures,
                status,
            )
        }
        Action::Counter {
            file,
            badges,
            place,
            until_input_ends,
        } => {
            let at = Listening {
                place,
                until: until_of(until_input_ends),
            };
            let (left, visits, clock, done) = attend_file(
                rt, file, lists, badges, at, opener, places, clock, output, progress,
            );
            let status = end(done, output, errors);
            (
                PathLeft::Unopened(earlier),
                left,
                visits,
                clock,
                None,
                status,
            )
        }
    }
}

/// The descriptor whose end ends the serving, if one does: that of standard input.
fn until_of(until_input_ends: bool) -> Option<RawFd> {
    if until_input_ends {
        Some(STANDARD_INPUT)
    } else {
        None
    }
}
