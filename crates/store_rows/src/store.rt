//! What can be asked of every store and what each call promises, as traits by purpose.

ghost use Rattle.std.specs.Prelude.{◌≡◌, IsTrue, OnOk};
ghost use Rattle.std.specs.Rc.{rc_slice_items};
ghost use Rattle.bank_books.specs.Records.{account_record, branch_record, slip_count, teller_record};
ghost use Rattle.bank_books.specs.Effects.{applied};
ghost use Rattle.bank_books.specs.Version.{has_version_for};
ghost use Rattle.bank_policy.specs.HeldRows.{relations_of, triples_of};
ghost use Rattle.world_reads.specs.BookReads.{drawer, entries_of, entry, entry_at, next_shown, next_teller, release, roster, shown, slip, undone, vault};
ghost use Rattle.world_reads.specs.PolicyListing.{next_policy, policy_rows};
ghost use Rattle.world_reads.specs.PolicyReads.{is_certifier, is_set, set_count, triple_count, user_record};
ghost use Rattle.store_rows.specs.Status.{Changes, ReadsRow, Refuses, Status, Tells, count_after, mark_of};

use bank_books::{
    AccountRecord, BranchRecord, Entry, EntryRecord, Plan, Release, Slip, TellerRecord,
};
use bank_policy::{CertifiedRow, HeldRow};
use bank_terms::Procedure;
use money::Fault;
use std::alloc::Global;
use std::rc::RcSlice;
use world_reads::{DrawerRecord, PolicyKey, PolicyRow, UserRecord};

/// What represents a World, as long as it answers.
pub trait StoreState {
    /// What it represents.
    ghost status: { Self → Status };

    /// How many calls answered a fault. It stays at the greatest `u64`.
    fn faults(&self) -> u64
        ensures { result ≡ (status self.now).fault_count };

    /// Does it refuse each call?
    fn is_stopped(&self) -> bool
        ensures { result ≡ (status self.now).is_stopped };
}

/// The reads by which the policy is judged and its commands are planned, and no others. Each answers
/// what its definition says of the World, or a fault that changes nothing.
pub trait PolicyReads: StoreState {
    /// The user of this number and how many releases they were given, or none where no such user is there.
    fn user(&mut self, alloc: Global, user: u32) -> Result<Option<UserRecord>, Fault>
        ensures { ReadsRow (Self.status self.old) (Self.status self.new) result (λ w row. row ≡ user_record w user) };

    /// The triples of this user for this procedure, each with the members of its set. A store that keeps them
    /// shares them, and copies none.
    fn triples_of(
        &mut self,
        alloc: Global,
        user: u32,
        procedure: Procedure,
    ) -> Result<RcSlice<HeldRow>, Fault>
        ensures { ReadsRow (Self.status self.old) (Self.status self.new) result (λ w rows. rc_slice_items rows ≡ triples_of w.policy user procedure) };

    /// The relations of this procedure, each with the members of its set, shared as the triples are.
    fn relations_of(
        &mut self,
        alloc: Global,
        procedure: Procedure,
    ) -> Result<RcSlice<CertifiedRow>, Fault>
        ensures { ReadsRow (Self.status self.old) (Self.status self.new) result (λ w rows. rc_slice_items rows ≡ relations_of w.policy procedure) };

    /// How many triples this user has.
    fn triples(&mut self, alloc: Global, user: u32) -> Result<u64, Fault>
        ensures { ReadsRow (Self.status self.old) (Self.status self.new) result (λ w n. n ≡ triple_count w user) };

    /// How many sets there are.
    fn sets(&mut self, alloc: Global) -> Result<u64, Fault>
        ensures { ReadsRow (Self.status self.old) (Self.status self.new) result (λ w n. n ≡ set_count w) };

    /// Whether there is a set of this number.
    fn set(&mut self, alloc: Global, number: u32) -> Result<bool, Fault>
        ensures { ReadsRow (Self.status self.old) (Self.status self.new) result (λ w is. is ≡ is_set w number) };

    /// Whether this user may certify this procedure.
    fn certifier(&mut self, alloc: Global, user: u32, procedure: Procedure) -> Result<bool, Fault>
        ensures { ReadsRow (Self.status self.old) (Self.status self.new) result (λ w is. is ≡ is_certifier w user procedure) };

    /// The release of this number of a user, or none where it isn't there.
    fn release(&mut self, alloc: Global, user: u32, number: u32) -> Result<Option<Release>, Fault>
        ensures { ReadsRow (Self.status self.old) (Self.status self.new) result (λ w row. row ≡ release w user number) };

    /// The version of the policy, 0 to 999,999,999,999: how many plans have changed it.
    fn version(&mut self, alloc: Global) -> Result<u64, Fault>
        ensures { ReadsRow (Self.status self.old) (Self.status self.new) result (λ w n. n ≡ w.version) };
}

/// The reads by which operations are judged by the books, and planned.
pub trait BookReads: StoreState {
    /// The account of this number with its balance and turns, or none where it isn't there.
    fn account(&mut self, alloc: Global, account: u32) -> Result<Option<AccountRecord>, Fault>
        ensures { ReadsRow (Self.status self.old) (Self.status self.new) result (λ w row. row ≡ account_record w account) };

    /// The teller of this number with its balance, or none where it isn't there.
    fn teller(&mut self, alloc: Global, teller: u32) -> Result<Option<TellerRecord>, Fault>
        ensures { ReadsRow (Self.status self.old) (Self.status self.new) result (λ w row. row ≡ teller_record w teller) };

    /// The branch of this number with its balance, its cash and its totals, or none where it isn't
    /// there.
    fn branch(&mut self, alloc: Global, branch: u32) -> Result<Option<BranchRecord>, Fault>
        ensures { ReadsRow (Self.status self.old) (Self.status self.new) result (λ w row. row ≡ branch_record w branch) };

    /// The tellers of this branch, by number.
    fn roster(&mut self, alloc: Global, branch: u32) -> Result<Vec<TellerRecord>, Fault>
        ensures { ReadsRow (Self.status self.old) (Self.status self.new) result (λ w rows. rows.items ≡ roster w branch) };

    /// The entry of this number in the history of a branch, or none where it isn't there.
    fn entry(&mut self, alloc: Global, branch: u32, number: u32) -> Result<Option<Entry>, Fault>
        ensures { ReadsRow (Self.status self.old) (Self.status self.new) result (λ w row. row ≡ entry w branch number) };

    /// Whether an entry of the branch corrects the one of this number. The number 0 is none's.
    fn undone(&mut self, alloc: Global, branch: u32, number: u32) -> Result<bool, Fault>
        ensures { ReadsRow (Self.status self.old) (Self.status self.new) result (λ w is. is ≡ undone w branch number) };

    /// The cash of a teller's drawer and who holds it, or none where the teller isn't there. No request reads it.
    fn drawer(&mut self, alloc: Global, teller: u32) -> Result<Option<DrawerRecord>, Fault>
        ensures { ReadsRow (Self.status self.old) (Self.status self.new) result (λ w row. row ≡ drawer w teller) };

    /// The cash of a branch's vault in cents, or none where the branch isn't there. No request reads it.
    fn vault(&mut self, alloc: Global, branch: u32) -> Result<Option<i128>, Fault>
        ensures { ReadsRow (Self.status self.old) (Self.status self.new) result (λ w cash. cash ≡ vault w branch) };
}

/// The reads by which a slip is judged.
pub trait SlipReads: StoreState {
    /// The slip of this number of a user, or none where it isn't there.
    fn slip(&mut self, alloc: Global, user: u32, number: u32) -> Result<Option<Slip>, Fault>
        ensures { ReadsRow (Self.status self.old) (Self.status self.new) result (λ w row. row ≡ slip w user number) };

    /// How many slips this user has.
    fn slips(&mut self, alloc: Global, user: u32) -> Result<u64, Fault>
        ensures { ReadsRow (Self.status self.old) (Self.status self.new) result (λ w n. n ≡ slip_count user w.slips) };
}

/// The reads that reports list: many rows at once, or one after another.
pub trait ReportReads: StoreState {
    /// The entries of an account that are its turns from a first one on, as long as they are there,
    /// at most `count`, each with the balance after it. No request reads it.
    fn entries_of(
        &mut self,
        alloc: Global,
        account: u32,
        start: u32,
        count: u32,
    ) -> Result<Vec<EntryRecord>, Fault>
        ensures { ReadsRow (Self.status self.old) (Self.status self.new) result (λ w rows. rows.items ≡ entries_of w account start count) };

    /// The entry of an account that is its turn of this number, or none where it isn't there.
    fn entry_at(
        &mut self,
        alloc: Global,
        account: u32,
        turn: u32,
    ) -> Result<Option<EntryRecord>, Fault>
        ensures { ReadsRow (Self.status self.old) (Self.status self.new) result (λ w row. row ≡ entry_at w account turn) };

    /// The accounts above a number that this user is shown at a moment, by number, at most `count`. No request reads it.
    fn shown(
        &mut self,
        alloc: Global,
        user: u32,
        after: u32,
        count: u32,
        moment: u64,
    ) -> Result<Vec<AccountRecord>, Fault>
        ensures { ReadsRow (Self.status self.old) (Self.status self.new) result (λ w rows. rows.items ≡ shown w user after count moment) };

    /// The next account above a number that this user is shown at a moment, or none where there is no other.
    fn next_shown(
        &mut self,
        alloc: Global,
        user: u32,
        after: u32,
        moment: u64,
    ) -> Result<Option<AccountRecord>, Fault>
        ensures { ReadsRow (Self.status self.old) (Self.status self.new) result (λ w row. row ≡ next_shown w user after moment) };

    /// The next teller of a branch above a number, or none where there is no other.
    fn next_teller(
        &mut self,
        alloc: Global,
        branch: u32,
        after: u32,
    ) -> Result<Option<TellerRecord>, Fault>
        ensures { ReadsRow (Self.status self.old) (Self.status self.new) result (λ w row. row ≡ next_teller w branch after) };

    /// All lines of the policy, in the order in which they are listed. No request reads it.
    fn policy_rows(&mut self, alloc: Global) -> Result<Vec<PolicyRow>, Fault>
        ensures { ReadsRow (Self.status self.old) (Self.status self.new) result (λ w rows. rows.items ≡ policy_rows w) };

    /// The line of the policy after a key, or the first one, or none where there is no other.
    fn next_policy(
        &mut self,
        alloc: Global,
        after: Option<PolicyKey>,
    ) -> Result<Option<PolicyRow>, Fault>
        ensures { ReadsRow (Self.status self.old) (Self.status self.new) result (λ w row. row ≡ next_policy w after) };
}

/// A store of one World, however it is kept. A plan is applied whole or not at all.
pub trait Store: PolicyReads + BookReads + SlipReads + ReportReads {
    /// Carries out the whole plan, or at a fault nothing of it. A store says `Fault::Size` where it has
    /// no room for the plan. A plan that changes the policy is never carried out where the version is
    /// the greatest: there is no next one for it.
    fn apply(&mut self, alloc: Global, plan: Plan) -> Result<(), Fault>
        ensures changed { Changes (Self.status self.old) (Self.status self.new) (applied plan.items) (mark_of result) }
        ensures room { Tells (Self.status self.old) (Self.status self.new) (λ w. OnOk result (IsTrue (has_version_for plan.items w.version))) }
        ensures refused { Refuses (Self.status self.old) (mark_of result) }
        ensures counted { (Self.status self.new).fault_count ≡ count_after (mark_of result) (Self.status self.old).fault_count };
}
