//! The changes of a plan carried out on the lists of the books and of the policy, all of them or none.

ghost use Rattle.std.specs.Prelude.{◌≡◌, ◌+◌, ℕ, length, OnOk, OnErr};
ghost use Rattle.bank_policy.specs.PolicyRoom.{AreRowsInOrder, HasPolicyRoom, policy_of};
ghost use Rattle.bank_books.specs.Effects.{all_written, written};
ghost use Rattle.bank_books.specs.Room.{AreInOrder, HasRoom, world_of};

use crate::lists::Lists;
use crate::row_write::{Plan, RowWrite, UsedUp};
use crate::rows::release_number;
use bank_policy::PolicyRows;
use keyed_rows::{change_rows, insert_row_reserved};
use std::alloc::AllocError;

/// Carries out all changes of a plan, or where memory is refused none of them.
pub(crate) fn write_plan(
    lists: &mut Lists,
    policy: &mut PolicyRows,
    plan: Plan,
) -> Result<(), AllocError>
    ensures ok { OnOk result ((version : ℕ) → world_of lists.new (policy_of policy.new) version ≡ all_written plan.items (world_of lists.old (policy_of policy.old) version)) }
    ensures err { OnErr result ((version : ℕ) → world_of lists.new (policy_of policy.new) version ≡ world_of lists.old (policy_of policy.old) version) }
    ensures in_order { AreInOrder lists.old → AreInOrder lists.new }
    ensures policy_in_order { AreRowsInOrder policy.old → AreRowsInOrder policy.new }
{
    lists.reserve(plan.len())?;
    policy.reserve(plan.len())?;
    write_rows(lists, policy, plan);
    Ok(())
}

/// Carries out the changes of a plan in order, where there is room for them.
fn write_rows(lists: &mut Lists, policy: &mut PolicyRows, plan: Plan)
    requires room { HasRoom lists.old (length plan.items) }
    requires policy_room { HasPolicyRoom policy.old (length plan.items) }
    ensures written { (version : ℕ) → world_of lists.new (policy_of policy.new) version ≡ all_written plan.items (world_of lists.old (policy_of policy.old) version) }
    ensures in_order { AreInOrder lists.old → AreInOrder lists.new }
    ensures policy_in_order { AreRowsInOrder policy.old → AreRowsInOrder policy.new }
{
    let mut room = plan.len();
    for row in plan {
        room -= 1;
        write_row(lists, policy, row, room);
    }
}

/// Carries out one change, where there is room for one more row, and leaves so much room.
fn write_row(lists: &mut Lists, policy: &mut PolicyRows, row: RowWrite, room: usize)
    requires room { HasRoom lists.old (room + 1) }
    requires policy_room { HasPolicyRoom policy.old (room + 1) }
    ensures written { (version : ℕ) → world_of lists.new (policy_of policy.new) version ≡ written row (world_of lists.old (policy_of policy.old) version) }
    ensures room { HasRoom lists.new room }
    ensures policy_room { HasPolicyRoom policy.new room }
    ensures in_order { AreInOrder lists.old → AreInOrder lists.new }
    ensures policy_in_order { AreRowsInOrder policy.old → AreRowsInOrder policy.new }
{
    match row {
        RowWrite::Account(account) => insert_row_reserved(&mut lists.accounts, account),
        RowWrite::Entry(entry) => insert_row_reserved(&mut lists.entries, entry),
        RowWrite::Line(line) => insert_row_reserved(&mut lists.lines, line),
        RowWrite::Proof(proof) => insert_row_reserved(&mut lists.proofs, proof),
        RowWrite::Release(release) => insert_row_reserved(&mut lists.releases, release),
        RowWrite::Day(to) => change_rows(&mut lists.branches, to.branch as u128, &to),
        RowWrite::Used(key) => {
            let number = release_number(key.user, key.number);
            change_rows(&mut lists.releases, number, &UsedUp);
        }
        RowWrite::Slip(slip) => insert_row_reserved(&mut lists.slips, slip),
        RowWrite::Session(session) => policy.set_session(session, room),
        RowWrite::Policy(change) => policy.write(change, room),
    }
}
