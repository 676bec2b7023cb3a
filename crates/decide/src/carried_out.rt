//! How a session or a command that was judged is carried out, or denied.

ghost use Rattle.decide.specs.Judged.{IsCarriedOut};

use crate::permit::apply_plan;
use bank_terms::Rule;
use money::Fault;
use op_prepare::Prepared;
use std::alloc::Global;
use store_rows::Store;

/// Has a store change what was prepared, and gives the reply that was formed with it; or the rule that denies.
pub(crate) fn carry_out_prepared<S: Store>(
    alloc: Global,
    store: &mut S,
    judged: Result<Prepared, Rule>,
) -> Result<Result<Vec<u8>, Rule>, Fault>
    ensures { IsCarriedOut (S.status store.old) (S.status store.new) judged result }
{
    match judged {
        Ok(Prepared { plan, text }) => {
            apply_plan(alloc, store, plan)?;
            Ok(Ok(text))
        }
        Err(rule) => Ok(Err(rule)),
    }
}
