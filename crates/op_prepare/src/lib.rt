//! Each operation by the books alone, one file a form. `prepare_by_books` loads the rows that an operation
//! is judged on. It answers the first rule of the books against it, or the plan that is its effect with the
//! bytes of its reply, or a report that was counted, and changes nothing. `first_of_books` is that rule by
//! rows that were loaded; `load_book_rows` loads those of a form that takes a slip. The rules of the policy
//! are left to `decide`.
#![tactic(auto)]

mod accounts;
mod balance;
mod book_rows;
mod by_form;
mod close_day;
mod correct;
mod drawer_off;
mod drawer_on;
mod json_text;
mod move_cash;
mod new_account;
mod post;
mod prepared;
mod proof;
mod release;
mod statement;
mod transfer;

pub use book_rows::{BookRows, load_book_rows};
pub use by_form::{first_of_books, prepare_by_books};
pub use json_text::compact;
pub use prepared::{Prepared, Ready};
