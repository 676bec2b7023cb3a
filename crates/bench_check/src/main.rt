//! Makes a synthetic bank of a size, checks its books once, and prints on request how long that took:
//! `bench_check BRANCHES` or `bench_check BRANCHES timed`. Each branch has 1,000 entries, and the time is in
//! nanoseconds. A script compares sizes by it. The verdict is exactly that of `check_books`; that this is
//! what it prints is only tested. No contract speaks of time.
#![tactic(auto)]

use bank_books::World;
use bench_bank::{Size, synthetic_world};
use book_check::{BooksFault, check_books};
use book_sums::Kept;
use money::Fault;
use std::alloc::Global;
use std::env;
use std::io::Write;
use std::process::ExitCode;
use std::time::Instant;

/// The status of a program that did what it was asked for.
const DONE: u8 = 0;

/// The status of a program whose books do not hold.
const REFUSED_BOOKS: u8 = 1;

/// The status of a program whose arguments are refused.
const REFUSED_ARGUMENTS: u8 = 2;

/// The status of a program that was refused memory or the clock.
const REFUSED_MEANS: u8 = 3;

/// How many branches a bank may have here.
const MOST_BRANCHES: u32 = 1_000;

/// The entries of each branch.
const ENTRIES: u32 = 1_000;

/// What the arguments ask for.
#[derive(Clone, Copy)]
struct Task {
    /// How many branches the bank has, each with 1,000 entries.
    branches: u32,
    /// Whether the time is printed.
    timed: bool,
}

fn main(rt: HostRuntime) -> ExitCode {
    let status = match arguments(&rt) {
        Some(task) => run(&rt, task).unwrap_or(REFUSED_MEANS),
        None => REFUSED_ARGUMENTS,
    };
    ExitCode::from(status)
}

/// The arguments: how many branches, and `timed` where the time is to be printed. None where they are refused.
fn arguments(rt: &HostRuntime) -> Option<Task> {
    let given: Vec<String> = env::args(rt).ok()?.collect(rt.alloc()).ok()?;
    if given.len() < 2 || 3 < given.len() {
        return None;
    }
    let branches = given[1].as_str().parse::<u32>().ok()?;
    let timed = given.len() == 3;
    if branches < 1 || MOST_BRANCHES < branches || (timed && given[2].as_str() != "timed") {
        return None;
    }
    Some(Task { branches, timed })
}

/// Makes the bank, checks it, and answers the status; none where memory or the clock is refused.
fn run(rt: &HostRuntime, task: Task) -> Option<u8> {
    let size = Size {
        branches: task.branches,
        entries: ENTRIES,
        triples: 0,
        slips: 0,
    };
    let world = synthetic_world(rt.alloc(), size).ok()??;
    let kept = Kept::of(rt.alloc(), &world).ok()?;
    judge(rt, &world, &kept, task.timed)
}

/// Checks a bank, prints the nanoseconds that this took where they are asked for, then the verdict, and answers the status;
/// none where memory or the clock is refused.
fn judge(rt: &HostRuntime, world: &World, kept: &Kept, timed: bool) -> Option<u8> {
    let start = Instant::now(rt).ok()?;
    let verdict = check(rt.alloc(), world, kept).ok()?;
    let nanoseconds = start.elapsed(rt).ok()?.as_nanos();
    if timed {
        let _ = writeln!(rt.stdout(), "{nanoseconds}");
    }
    Some(print_verdict(rt, verdict))
}

/// Prints the verdict, and answers its status.
fn print_verdict(rt: &HostRuntime, verdict: Result<(), BooksFault>) -> u8 {
    match verdict {
        Ok(()) => {
            let _ = writeln!(rt.stdout(), "books hold");
            DONE
        }
        Err(fault) => {
            let _ = writeln!(rt.stdout(), "books: {fault}");
            REFUSED_BOOKS
        }
    }
}

ghost use Rattle.std.specs.Prelude.{IfOk, IsOkUnless};
ghost use Rattle.book_check.specs.Verdict.{IsVerdict};

/// Checks the books.
fn check(alloc: Global, world: &World, kept: &Kept) -> Result<Result<(), BooksFault>, Fault>
    ensures verdict { IfOk result (IsVerdict world.now kept.now) }
    ensures memory { IsOkUnless result Fault.Memory }
{
    check_books(alloc, world, kept)
}
