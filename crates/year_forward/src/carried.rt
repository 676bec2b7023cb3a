//! Rows of the next year, each made of a row of this one and the numbers kept beside it.

ghost use Rattle.std.specs.Prelude.{◌≡◌, map, Contains, IfOk, IsOkUnless};
ghost use Rattle.money.specs.Range.{IsCents};

use bank_books::{Account, AccountRecord, Branch, BranchRecord, Teller, TellerRecord};
use money::{Cents, Fault};
use std::alloc::Global;

/// A row that opens with the closing balance of the record that it is made of.
pub(crate) trait CarriedForward<T>: Sized {
    ghost use Rattle.std.specs.Prelude.{◌≡◌};

    ghost carried: { T → Self };

    // what the record comes to can be an opening
    ghost within: { T → Type 0 };

    /// The row of the next year. What the record comes to is in the range of `Cents`.
    fn carried_from(record: &T) -> Self
        requires { within record.now }
        ensures { result ≡ carried record.now };
}

/// The rows of the next year, in the order of the records. Only memory keeps it from an answer.
pub(crate) fn carried_rows<T, U: CarriedForward<T> + Drop>(
    alloc: Global,
    records: &[T],
) -> Result<Vec<U>, Fault>
    requires { (x : T) → Contains records.now x → U.within x }
    ensures value { IfOk result (λ rows. rows.items ≡ map U.carried records.now) }
    ensures memory { IsOkUnless result Fault.Memory }
{
    let mut rows = Vec::with_capacity(alloc, records.len())?;
    for record in records {
        rows.push(U::carried_from(record))?;
    }
    Ok(rows)
}

/// A sum that is in the range of `Cents`.
fn cents_of(sum: i128) -> Cents
    requires { IsCents sum }
    ensures { result ≡ sum }
{
    Cents::new(sum as i64).unwrap()
}

impl CarriedForward<BranchRecord> for Branch {
    ghost use Rattle.money.specs.Range.{IsCents};
    ghost use Rattle.year_forward.specs.Forward.{carried_branch_record};

    ghost carried = { λ b. (carried_branch_record b).row };

    ghost within = { λ b. IsCents b.balance × IsCents b.vault };

    fn carried_from(record: &BranchRecord) -> Branch {
        Branch {
            opening: cents_of(record.balance),
            cash: cents_of(record.vault),
            ..record.row
        }
    }
}

impl CarriedForward<TellerRecord> for Teller {
    ghost use Rattle.money.specs.Range.{IsCents};
    ghost use Rattle.year_forward.specs.Forward.{carried_teller_record};

    ghost carried = { λ t. (carried_teller_record t).row };

    ghost within = { λ t. IsCents t.balance };

    fn carried_from(record: &TellerRecord) -> Teller {
        Teller {
            opening: cents_of(record.balance),
            ..record.row
        }
    }
}

impl CarriedForward<AccountRecord> for Account {
    ghost use Rattle.money.specs.Range.{IsCents};
    ghost use Rattle.year_forward.specs.Forward.{carried_account_record};

    ghost carried = { λ a. (carried_account_record a).row };

    ghost within = { λ a. IsCents a.balance };

    fn carried_from(record: &AccountRecord) -> Account {
        Account {
            opening: cents_of(record.balance),
            ..record.row
        }
    }
}
