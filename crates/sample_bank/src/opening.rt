//! The books of the sample bank: its branches, tellers and accounts, and the cash lines that put two drawers on.

ghost use Rattle.std.specs.Prelude.{◌≡◌, [], pos, OnOk, IfOk};
ghost use Rattle.money.specs.Range.{IsCents};
ghost use Rattle.sample_bank.specs.Opening.{accounts, branches, line_of, lines, opened_books, sample_opening, tellers};

use crate::policy::sample_policy;
use bank_books::{Account, Branch, CashLine, LineForm, RowWrite, Teller, World};
use money::Cents;
use std::alloc::{AllocError, Global};

/// The sample bank: its books as they are opened, and then Tess and Tom have put the drawers of the first branch on.
/// The only error is that memory is refused.
pub fn sample_world(alloc: Global) -> Result<World, AllocError>
    ensures { IfOk result (λ world. world ≡ sample_opening) }
{
    let mut world = opened_world(alloc)?;
    put_drawers_on(alloc, &mut world)?;
    Ok(world)
}

/// Its books as they are opened: its policy, two branches on their first day, three tellers and three accounts, with
/// nothing entered yet. The only error is that memory is refused.
pub fn opened_world(alloc: Global) -> Result<World, AllocError>
    ensures { IfOk result (λ world. world ≡ opened_books) }
{
    let mut world = World::new(alloc, sample_policy(alloc)?);
    add_branches(&mut world)?;
    add_tellers(&mut world)?;
    add_accounts(&mut world)?;
    Ok(world)
}

/// Two drawers are put on, each by a line at the vault and one at the drawer.
fn put_drawers_on(alloc: Global, world: &mut World) -> Result<(), AllocError>
    requires { world.old.lines ≡ [] }
    ensures { OnOk result (world.new ≡ record world.old { lines = lines }) }
{
    let plan = vec![in alloc;
        RowWrite::Line(line_of(1, 0, -40_000, 7)),
        RowWrite::Line(line_of(2, 11, 40_000, 7)),
        RowWrite::Line(line_of(3, 0, -5_000, 8)),
        RowWrite::Line(line_of(4, 12, 5_000, 8)),
    ]?;
    world.apply(alloc, plan)
}

/// A line of the first branch by which a user puts a drawer on, on the first day.
fn line_of(number: u32, place: u32, amount: i64, user: u32) -> CashLine
    requires { IsCents amount }
    ensures { result ≡ line_of number place amount user }
{
    CashLine {
        branch: 1,
        number,
        place,
        amount: cents(amount),
        form: LineForm::On,
        moment: 0,
        day: 1,
        user,
    }
}

/// An amount that is known to lie in range.
fn cents(amount: i64) -> Cents
    requires { IsCents amount }
    ensures { result ≡ amount }
{
    Cents::new(amount).unwrap()
}

fn add_branches(world: &mut World) -> Result<(), AllocError>
    requires { world.old.branches ≡ [] }
    ensures { OnOk result (world.new ≡ record world.old { branches = branches }) }
{
    world.add_branch(Branch {
        branch: 1,
        opening: cents(60_000),
        cash: cents(100_000),
        day: 1,
    })?;
    world.add_branch(Branch {
        branch: 2,
        opening: cents(20_000),
        cash: cents(50_000),
        day: 1,
    })
}

fn add_tellers(world: &mut World) -> Result<(), AllocError>
    requires { world.old.tellers ≡ [] }
    ensures { OnOk result (world.new ≡ record world.old { tellers = tellers }) }
{
    world.add_teller(Teller {
        teller: 11,
        branch: 1,
        opening: cents(60_000),
    })?;
    world.add_teller(Teller {
        teller: 12,
        branch: 1,
        opening: cents(0),
    })?;
    world.add_teller(Teller {
        teller: 21,
        branch: 2,
        opening: cents(20_000),
    })
}

fn add_accounts(world: &mut World) -> Result<(), AllocError>
    requires { world.old.accounts ≡ [] }
    ensures { OnOk result (world.new ≡ record world.old { accounts = accounts }) }
{
    world.add_account(account(101, 1, 50_000))?;
    world.add_account(account(102, 1, 0))?;
    world.add_account(account(201, 2, 30_000))
}

/// An account that may not fall below zero.
fn account(account: u32, home: u32, opening: i64) -> Account
    requires { IsCents opening }
    ensures { result ≡ record { account = account; home = home; opening = opening; floor = pos 0 } }
{
    Account {
        account,
        home,
        opening: cents(opening),
        floor: cents(0),
    }
}
