//! The question for a list of accounts, which no rule of the books denies.

ghost use Rattle.std.specs.Prelude.{◌≡◌};
ghost use Rattle.store_rows.specs.Status.{MayRead};
ghost use Rattle.bank_meaning.specs.Accounts.{accounts_meaning, accounts_of};
ghost use Rattle.bank_meaning.specs.Meaning.{by_books};
ghost use Rattle.op_prepare.specs.Judged.{DeniesOrCounts, IsCountedFor};

use bank_books::Signature;
use bank_terms::Rule;
use counter_ops::Accounts;
use money::Fault;
use reports::{AfterAccount, Contents, Listing, counted};
use std::alloc::Global;
use store_rows::ReportReads;

/// The accounts that are listed to the user who asks, by those of their triples that are valid at the moment.
fn accounts_of(form: &Accounts, by: Signature) -> Listing
    ensures { result ≡ accounts_of form.now by }
{
    Listing::Accounts(AfterAccount {
        user: by.user,
        after: form.after,
        moment: by.moment,
    })
}

/// What answers the question for a list of accounts, counted. No rule of the books denies it.
pub(crate) fn prepare_accounts<R: ReportReads>(
    alloc: Global,
    store: &mut R,
    form: &Accounts,
    by: Signature,
) -> Result<Result<Contents, Rule>, Fault>
    ensures counted { MayRead (R.status store.old) (R.status store.new) result (IsCountedFor (λ w. by_books (accounts_meaning form.now by w))) }
    ensures denied { DeniesOrCounts (R.status store.old) (R.status store.new) (λ w. (by_books (accounts_meaning form.now by w)).first) result }
{
    let contents = counted(alloc, store, accounts_of(form, by), form.count)?;
    Ok(Ok(contents))
}
