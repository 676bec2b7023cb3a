//! The thirteen forms of operations. What is asked of an operation, its own form answers.

ghost use Rattle.std.specs.Prelude.{◌≡◌, ◌≤◌, length, Some, IfSome};
ghost use Rattle.counter_ops.specs.Op.{procedure_of};
ghost use Rattle.counter_ops.specs.Operations.{IsOp};
ghost use Rattle.counter_ops.specs.Rows.{row_of};
ghost use Rattle.counter_ops.specs.Touched.{touched, amount as amount_of};
ghost use Rattle.counter_ops.specs.declared.op.Op.{Op as AnOp};

use crate::accounts::Accounts;
use crate::balance::Balance;
use crate::close_day::CloseDay;
use crate::correct::Correct;
use crate::drawer_off::DrawerOff;
use crate::drawer_on::DrawerOn;
use crate::item_list::ItemList;
use crate::move_cash::MoveCash;
use crate::new_account::NewAccount;
use crate::operation::{Form, Operation};
use crate::post::Post;
use crate::proof::Proof;
use crate::release::Release;
use crate::statement::Statement;
use crate::transfer::Transfer;
use bank_terms::{OperationRow, Procedure};

/// What a counter asks of the bank.
#[derive(Clone, Copy, Debug, PartialEq, Eq)]
pub enum Op {
    /// An amount added to an account.
    Post(Post),
    /// An amount moved between accounts.
    Transfer(Transfer),
    /// An entry undone.
    Correct(Correct),
    /// A drawer put on.
    DrawerOn(DrawerOn),
    /// A drawer put off.
    DrawerOff(DrawerOff),
    /// Cash moved.
    MoveCash(MoveCash),
    /// A new account.
    NewAccount(NewAccount),
    /// Authorization for another user's operation.
    Release(Release),
    /// The balance of an account.
    Balance(Balance),
    /// The entries of an account.
    Statement(Statement),
    /// The accounts that the user may see.
    Accounts(Accounts),
    /// The books of a branch.
    Proof(Proof),
    /// The end of a day of a branch.
    CloseDay(CloseDay),
}

impl Operation for Op {
    ghost op = { λ op. op };

    fn procedure(&self) -> Procedure {
        match self {
            Op::Post(form) => form.procedure(),
            Op::Transfer(form) => form.procedure(),
            Op::Correct(form) => form.procedure(),
            Op::DrawerOn(form) => form.procedure(),
            Op::DrawerOff(form) => form.procedure(),
            Op::MoveCash(form) => form.procedure(),
            Op::NewAccount(form) => form.procedure(),
            Op::Release(form) => form.procedure(),
            Op::Balance(form) => form.procedure(),
            Op::Statement(form) => form.procedure(),
            Op::Accounts(form) => form.procedure(),
            Op::Proof(form) => form.procedure(),
            Op::CloseDay(form) => form.procedure(),
        }
    }

    fn places(&self) -> [i64; 8] {
        match self {
            Op::Post(form) => form.places(),
            Op::Transfer(form) => form.places(),
            Op::Correct(form) => form.places(),
            Op::DrawerOn(form) => form.places(),
            Op::DrawerOff(form) => form.places(),
            Op::MoveCash(form) => form.places(),
            Op::NewAccount(form) => form.places(),
            Op::Release(form) => form.places(),
            Op::Balance(form) => form.places(),
            Op::Statement(form) => form.places(),
            Op::Accounts(form) => form.places(),
            Op::Proof(form) => form.places(),
            Op::CloseDay(form) => form.places(),
        }
    }

    fn touches(&self) -> ItemList {
        match self {
            Op::Post(form) => form.touches(),
            Op::Transfer(form) => form.touches(),
            Op::Correct(form) => form.touches(),
            Op::DrawerOn(form) => form.touches(),
            Op::DrawerOff(form) => form.touches(),
            Op::MoveCash(form) => form.touches(),
            Op::NewAccount(form) => form.touches(),
            Op::Release(form) => form.touches(),
            Op::Balance(form) => form.touches(),
            Op::Statement(form) => form.touches(),
            Op::Accounts(form) => form.touches(),
            Op::Proof(form) => form.touches(),
            Op::CloseDay(form) => form.touches(),
        }
    }

    fn amount(&self) -> u32 {
        match self {
            Op::Post(form) => form.amount(),
            Op::Transfer(form) => form.amount(),
            Op::Correct(form) => form.amount(),
            Op::DrawerOn(form) => form.amount(),
            Op::DrawerOff(form) => form.amount(),
            Op::MoveCash(form) => form.amount(),
            Op::NewAccount(form) => form.amount(),
            Op::Release(form) => form.amount(),
            Op::Balance(form) => form.amount(),
            Op::Statement(form) => form.amount(),
            Op::Accounts(form) => form.amount(),
            Op::Proof(form) => form.amount(),
            Op::CloseDay(form) => form.amount(),
        }
    }
}

impl Op {
    /// The procedure that it is an execution of.
    pub fn procedure(&self) -> Procedure
        ensures { result ≡ procedure_of self.now }
    {
        Operation::procedure(self)
    }

    /// The operation as a row holds it.
    pub fn to_row(&self) -> OperationRow
        ensures { result ≡ row_of self.now }
    {
        Operation::to_row(self)
    }

    /// The operation, with all its members in their ranges, whose row this is, or none if there is
    /// no such operation. No two operations have one row.
    pub fn from_row(row: &OperationRow) -> Option<Op>
        ensures some { IfSome result (λ op. IsOp op × (row_of op ≡ row.now)) }
        ensures only { (op : AnOp) → IsOp op → row_of op ≡ row.now → result ≡ Some op }
    {
        let members = &row.members;
        match row.form {
            Procedure::Post => Some(Op::Post(Post::from_places(members)?)),
            Procedure::Transfer => Some(Op::Transfer(Transfer::from_places(members)?)),
            Procedure::Correct => Some(Op::Correct(Correct::from_places(members)?)),
            Procedure::DrawerOn => Some(Op::DrawerOn(DrawerOn::from_places(members)?)),
            Procedure::DrawerOff => Some(Op::DrawerOff(DrawerOff::from_places(members)?)),
            Procedure::MoveCash => Some(Op::MoveCash(MoveCash::from_places(members)?)),
            Procedure::NewAccount => Some(Op::NewAccount(NewAccount::from_places(members)?)),
            Procedure::Release => Some(Op::Release(Release::from_places(members)?)),
            Procedure::Balance => Some(Op::Balance(Balance::from_places(members)?)),
            Procedure::Statement => Some(Op::Statement(Statement::from_places(members)?)),
            Procedure::Accounts => Some(Op::Accounts(Accounts::from_places(members)?)),
            Procedure::Proof => Some(Op::Proof(Proof::from_places(members)?)),
            Procedure::CloseDay => Some(Op::CloseDay(CloseDay::from_places(members)?)),
        }
    }
}

/// The items that the operation touches, as its form names them: of the operation alone, whatever
/// the books hold. It takes no memory.
pub fn touches(op: &Op) -> ItemList
    ensures items { result ≡ touched op.now }
    ensures at_most_six { length result ≤ 6 }
{
    op.touches()
}

/// The cents that the operation amounts to, without a sign: what a triple's limit is compared with.
/// It takes no memory.
pub fn amount(op: &Op) -> u32
    ensures { result ≡ amount_of op.now }
{
    op.amount()
}
