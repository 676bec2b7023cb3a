//! The question for a statement: the account that it is judged on, and the entries that it lists.

ghost use Rattle.std.specs.Prelude.{◌≡◌};
ghost use Rattle.store_rows.specs.Status.{Reads};
ghost use Rattle.bank_meaning.specs.Meaning.{by_books};
ghost use Rattle.bank_meaning.specs.Statement.{first_against_statement, statement_meaning, statement_of};
ghost use Rattle.op_prepare.specs.Judged.{DeniesOrCounts, IsCountedFor};

use bank_books::AccountRecord;
use bank_terms::Rule;
use counter_ops::Statement;
use money::Fault;
use reports::{Contents, FromTurn, Listing, counted};
use std::alloc::Global;
use store_rows::{BookReads, ReportReads};

/// The first rule of the books against the question for a statement, or none. The account's row is all
/// that it is judged on.
pub(crate) fn rule_against_statement(row: Option<AccountRecord>) -> Option<Rule>
    ensures { result ≡ first_against_statement row }
{
    match row {
        Some(_) => None,
        None => Some(Rule::Unknown),
    }
}

/// The entries that a statement lists.
fn statement_of(form: &Statement) -> Listing
    ensures { result ≡ statement_of form.now }
{
    Listing::Statement(FromTurn {
        account: form.account,
        turn: form.start,
    })
}

/// What answers the question for a statement, counted, or the first rule of the books against it.
pub(crate) fn prepare_statement<S: BookReads + ReportReads>(
    alloc: Global,
    store: &mut S,
    form: &Statement,
) -> Result<Result<Contents, Rule>, Fault>
    ensures counted { Reads (S.status store.old) (S.status store.new) result (IsCountedFor (λ w. by_books (statement_meaning form.now w))) }
    ensures denied { DeniesOrCounts (S.status store.old) (S.status store.new) (λ w. (by_books (statement_meaning form.now w)).first) result }
{
    let row = store.account(alloc, form.account)?;
    if let Some(rule) = rule_against_statement(row) {
        return Ok(Err(rule));
    }
    let contents = counted(alloc, store, statement_of(form), form.count)?;
    Ok(Ok(contents))
}
