//! The five forms of operations that a release may be for, and the branch of each.

ghost use Rattle.std.specs.Prelude.{◌≡◌, Some, IfSome};
ghost use Rattle.counter_ops.specs.Releasable.{branch_of, IsReleasable, op_of};
ghost use Rattle.counter_ops.specs.Rows.{row_of};
ghost use Rattle.counter_ops.specs.declared.releasable.Releasable.{Releasable as AReleasable};

use crate::correct::Correct;
use crate::drawer_on::DrawerOn;
use crate::item_list::ItemList;
use crate::move_cash::MoveCash;
use crate::op::Op;
use crate::operation::{Form, Operation};
use crate::post::Post;
use crate::transfer::Transfer;
use bank_terms::{OperationRow, Procedure};

/// An operation that a release may authorize.
#[derive(Clone, Copy, Debug, PartialEq, Eq)]
pub enum Releasable {
    /// A post.
    Post(Post),
    /// A transfer.
    Transfer(Transfer),
    /// A correction.
    Correct(Correct),
    /// A drawer put on.
    DrawerOn(DrawerOn),
    /// Cash moved.
    MoveCash(MoveCash),
}

impl Releasable {
    /// Its branch, whose day a release for it bears.
    pub fn branch(&self) -> u32
        ensures { result ≡ branch_of self.now }
    {
        match self {
            Releasable::Post(post) => post.branch,
            Releasable::Transfer(transfer) => transfer.branch,
            Releasable::Correct(correct) => correct.branch,
            Releasable::DrawerOn(drawer_on) => drawer_on.branch,
            Releasable::MoveCash(move_cash) => move_cash.branch,
        }
    }

    /// The operation as a row holds it.
    pub fn to_row(&self) -> OperationRow
        ensures { result ≡ row_of (op_of self.now) }
    {
        Operation::to_row(self)
    }

    /// The operation, with all its members in their ranges, whose row this is, or none if there is
    /// no such operation that a release may be for.
    pub fn from_row(row: &OperationRow) -> Option<Releasable>
        ensures some { IfSome result (λ operation. IsReleasable operation × (row_of (op_of operation) ≡ row.now)) }
        ensures only { (operation : AReleasable) → IsReleasable operation → row_of (op_of operation) ≡ row.now → result ≡ Some operation }
    {
        let members = &row.members;
        match row.form {
            Procedure::Post => Some(Releasable::Post(Post::from_places(members)?)),
            Procedure::Transfer => Some(Releasable::Transfer(Transfer::from_places(members)?)),
            Procedure::Correct => Some(Releasable::Correct(Correct::from_places(members)?)),
            Procedure::DrawerOn => Some(Releasable::DrawerOn(DrawerOn::from_places(members)?)),
            Procedure::MoveCash => Some(Releasable::MoveCash(MoveCash::from_places(members)?)),
            _ => None,
        }
    }
}

impl Operation for Releasable {
    ghost op = { op_of };

    fn procedure(&self) -> Procedure {
        match self {
            Releasable::Post(form) => form.procedure(),
            Releasable::Transfer(form) => form.procedure(),
            Releasable::Correct(form) => form.procedure(),
            Releasable::DrawerOn(form) => form.procedure(),
            Releasable::MoveCash(form) => form.procedure(),
        }
    }

    fn places(&self) -> [i64; 8] {
        match self {
            Releasable::Post(form) => form.places(),
            Releasable::Transfer(form) => form.places(),
            Releasable::Correct(form) => form.places(),
            Releasable::DrawerOn(form) => form.places(),
            Releasable::MoveCash(form) => form.places(),
        }
    }

    fn touches(&self) -> ItemList {
        match self {
            Releasable::Post(form) => form.touches(),
            Releasable::Transfer(form) => form.touches(),
            Releasable::Correct(form) => form.touches(),
            Releasable::DrawerOn(form) => form.touches(),
            Releasable::MoveCash(form) => form.touches(),
        }
    }

    fn amount(&self) -> u32 {
        match self {
            Releasable::Post(form) => form.amount(),
            Releasable::Transfer(form) => form.amount(),
            Releasable::Correct(form) => form.amount(),
            Releasable::DrawerOn(form) => form.amount(),
            Releasable::MoveCash(form) => form.amount(),
        }
    }
}

impl From<Releasable> for Op {
    ghost from_gives = { λ operation op. op ≡ op_of operation };

    fn from(operation: Releasable) -> Op {
        match operation {
            Releasable::Post(post) => Op::Post(post),
            Releasable::Transfer(transfer) => Op::Transfer(transfer),
            Releasable::Correct(correct) => Op::Correct(correct),
            Releasable::DrawerOn(drawer_on) => Op::DrawerOn(drawer_on),
            Releasable::MoveCash(move_cash) => Op::MoveCash(move_cash),
        }
    }
}
