//! Plans of putting a drawer on or off, of moving cash, and of closing a day, from the rows that they
//! touch. `rule_against_drawer_on` and its like answer the first rule of the books that denies, or none.
//! `plan_drawer_on`, `plan_drawer_off`, `plan_move` and `plan_close_day` answer that rule, or exactly the
//! changes and what they leave. `laws` says that books which hold still hold after what no rule denies.
//! `op_prepare` loads the rows.
#![tactic(auto)]

mod amounts;
mod close_day;
mod drawer_off;
mod drawer_on;
mod drawer_rows;
pub mod laws;
mod move_cash;

pub use close_day::{Closed, ClosingRows, plan_close_day, rule_against_close_day};
pub use drawer_off::{PutOff, plan_drawer_off, rule_against_drawer_off};
pub use drawer_on::{PutOn, plan_drawer_on, rule_against_drawer_on};
pub use drawer_rows::DrawerRows;
pub use move_cash::{MoveRows, Moved, plan_move, rule_against_move_cash};
