//! The slips of a synthetic bank's user.

use crate::policy::USER;
use bank_books::{Lists, Slip};
use bank_terms::{OperationRow, Procedure};
use money::Fault;
use std::alloc::Global;

/// A post of a cent to account 1 at drawer 1 of branch 1.
const POST: OperationRow = OperationRow {
    form: Procedure::Post,
    members: [1, 1, 1, 1, 0, 0, 0, 0],
};

/// What was replied to each.
const REPLY: &[u8] = b"{\"balance\":1,\"branch\":1,\"entry\":1}";

/// Adds `slips` slips of the one user, numbered from 1, each taken with the same post.
pub(crate) fn add_slips(alloc: Global, lists: &mut Lists, slips: u32) -> Result<(), Fault> {
    for number in 1..=slips {
        let reply = REPLY.to_vec(alloc)?;
        lists.slips.push(Slip::new(USER, number, POST, reply))?;
    }
    Ok(())
}
