//! Posting to an account: the rows that it is judged on, its plan, and its reply.

ghost use Rattle.std.specs.Prelude.{◌≡◌, IfOk};
ghost use Rattle.serde_json.specs.View.{view};
ghost use Rattle.store_rows.specs.Status.{Reads, ReadsRow};
ghost use Rattle.op_prepare.specs.Judged.{DeniesOrCounts, IsJudged, LeavesPolicy};
ghost use Rattle.bank_meaning.specs.Meaning.{by_books};
ghost use Rattle.postings.specs.Post.{post_rows};
ghost use Rattle.bank_meaning.specs.Post.{post_meaning, posted_data, posted_text};

use crate::json_text::compact;
use crate::prepared::Prepared;
use bank_books::Signature;
use bank_terms::Rule;
use counter_ops::Post;
use money::Fault;
use postings::{PostRows, Posted, plan_post};
use serde_json::{Value, json};
use std::alloc::{AllocError, Global};
use store_rows::BookReads;

/// The rows that a post is judged on. The first rule against it is that of its plan.
pub(crate) fn load_post_rows<B: BookReads>(
    alloc: Global,
    store: &mut B,
    post: &Post,
) -> Result<PostRows, Fault>
    ensures { ReadsRow (B.status store.old) (B.status store.new) result (λ w rows. rows ≡ post_rows w post.now) }
{
    let account = store.account(alloc, post.account)?;
    let teller = store.teller(alloc, post.teller)?;
    let branch = store.branch(alloc, post.branch)?;
    Ok(PostRows::of(account, teller, branch))
}

/// What carries a post out, or the first rule of the books against it.
pub(crate) fn prepare_post<B: BookReads>(
    alloc: Global,
    store: &mut B,
    post: &Post,
    by: Signature,
) -> Result<Result<Prepared, Rule>, Fault>
    ensures judged { Reads (B.status store.old) (B.status store.new) result (IsJudged (λ w. by_books (post_meaning post.now by w))) }
    ensures denied { DeniesOrCounts (B.status store.old) (B.status store.new) (λ w. (by_books (post_meaning post.now by w)).first) result }
    ensures policy { LeavesPolicy result }
{
    let rows = load_post_rows(alloc, store, post)?;
    match plan_post(alloc, &rows, post, by)? {
        Ok(planned) => {
            let text = posted_text(alloc, &planned.left)?;
            Ok(Ok(Prepared {
                plan: planned.plan,
                text,
            }))
        }
        Err(rule) => Ok(Err(rule)),
    }
}

/// The bytes of the reply.
pub(crate) fn posted_text(alloc: Global, posted: &Posted) -> Result<Vec<u8>, AllocError>
    ensures { IfOk result (λ text. text.items ≡ posted_text posted.now) }
{
    let value = posted_value(alloc, posted)?;
    compact(alloc, &value)
}

fn posted_value(alloc: Global, posted: &Posted) -> Result<Value, AllocError>
    ensures { IfOk result (λ value. view value ≡ posted_data posted.now) }
{
    json!(in alloc; {"balance": posted.balance.get(), "branch": posted.branch, "entry": posted.entry})
}
