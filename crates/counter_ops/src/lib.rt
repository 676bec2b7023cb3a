//! The operations that a counter asks of the bank, as data: `Op` with its thirteen forms, `Releasable` with
//! the five that a release may be for. Each form is an `Operation`. `Op::to_row` and
//! `Op::from_row` are an operation as a row of numbers and back. `touches` lists exactly its items, and
//! `amount` is what the limit of a triple is compared with, in cents, both of the operation alone,
//! whatever the books hold. What each means is in `bank_meaning`.
#![tactic(auto)]

mod accounts;
mod balance;
mod close_day;
mod correct;
mod drawer_off;
mod drawer_on;
mod item_list;
mod items;
mod move_cash;
mod new_account;
mod op;
mod operation;
mod post;
mod proof;
mod releasable;
mod release;
mod statement;
mod transfer;

pub use accounts::Accounts;
pub use balance::Balance;
pub use close_day::CloseDay;
pub use correct::Correct;
pub use drawer_off::DrawerOff;
pub use drawer_on::DrawerOn;
pub use item_list::ItemList;
pub use move_cash::MoveCash;
pub use new_account::NewAccount;
pub use op::{Op, amount, touches};
pub use operation::Operation;
pub use post::Post;
pub use proof::Proof;
pub use releasable::Releasable;
pub use release::Release;
pub use statement::Statement;
pub use transfer::Transfer;
