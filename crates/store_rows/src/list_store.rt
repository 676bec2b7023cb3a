//! A store in memory: how it answers each call from the lists of its World, and counts faults.

ghost use Rattle.std.specs.Prelude.{◌≡◌, ◌↔◌, ◌⊎◌, false, IfOk, IsTrue, OnErr, OnOk, Ok, Err};
ghost use Rattle.std.specs.Rc.{rc_slice_items};
ghost use Rattle.bank_books.specs.Effects.{applied};
ghost use Rattle.bank_books.specs.Records.{account_record, branch_record, slip_count, teller_record};
ghost use Rattle.bank_books.specs.Version.{has_version_for};
ghost use Rattle.bank_books.specs.WorldLists.{WorldLists};
ghost use Rattle.bank_policy.specs.HeldRows.{relations_of, triples_of};
ghost use Rattle.world_reads.specs.BookReads.{drawer, entries_of, entry, entry_at, next_shown, next_teller, release, roster, shown, slip, undone, vault};
ghost use Rattle.world_reads.specs.PolicyListing.{next_policy, policy_rows};
ghost use Rattle.world_reads.specs.PolicyReads.{is_certifier, is_set, set_count, triple_count, user_record};
ghost use Rattle.store_rows.specs.ListStore.{ReadsList, list_status};
ghost use Rattle.store_rows.specs.Status.{Changes, Refuses, Tells, count_after, mark_of};

use crate::store::{BookReads, PolicyReads, ReportReads, SlipReads, Store, StoreState};
use bank_books::{
    AccountRecord, BranchRecord, Entry, EntryRecord, Plan, Release, Slip, TellerRecord, World,
    account_record, branch_record, teller_record,
};
use bank_policy::{CertifiedRow, HeldRow, relations_of, triples_of};
use bank_terms::Procedure;
use money::Fault;
use std::alloc::{AllocError, Global};
use std::rc::RcSlice;
use world_reads::{
    DrawerRecord, PolicyKey, PolicyRow, UserRecord, drawer, entries_of, entry, entry_at,
    is_certifier, is_set, next_policy, next_shown, next_teller, policy_rows, release, roster,
    set_count, shown, slip, slip_count, triple_count, undone, user_record, vault,
};

/// The plain store: a World in lists, of which every number is computed anew at each call. Only
/// memory keeps it from an answer, and the greatest version from a change of the policy. It is never
/// stopped.
#[derive(Drop)]
pub struct ListStore {
    world: World,
    faults: u64,
    failures: u64,
}

impl ListStore {
    /// The store of this World. It takes no memory.
    pub fn new(world: World) -> ListStore
        ensures holds { (list_status result).holds world }
        ensures only { (w : WorldLists) → (list_status result).holds w → w ≡ world }
        ensures crash { (left : WorldLists) → (list_status result).may_leave left → left ≡ world }
        ensures whole { (list_status result).leaves_a_world }
        ensures honest { (list_status result).is_honest }
        ensures works { (list_status result).is_stopped ≡ false }
        ensures none { (list_status result).fault_count ≡ 0 }
        ensures no_failure { (list_status result).failure_count ≡ 0 }
    {
        ListStore {
            world,
            faults: 0,
            failures: 0,
        }
    }

    /// The answer; where memory was refused, a fault is counted and returned.
    fn counted<T>(&mut self, answer: Result<T, AllocError>) -> Result<T, Fault>
        ensures world { self.new.world ≡ self.old.world }
        ensures failures { self.new.failures ≡ self.old.failures }
        ensures count { self.new.faults ≡ count_after (mark_of result) self.old.faults }
        ensures ok { IfOk result (λ value. answer ≡ Ok value) }
        ensures err { OnErr result (result ≡ Err Fault.Memory) }
    {
        match answer {
            Ok(value) => Ok(value),
            Err(_) => {
                self.faults = self.faults.saturating_add(1);
                Err(Fault::Memory)
            }
        }
    }
}

impl StoreState for ListStore {
    ghost status = { list_status };

    fn faults(&self) -> u64 {
        self.faults
    }

    fn is_stopped(&self) -> bool {
        false
    }
}

impl PolicyReads for ListStore {
    fn user(&mut self, _alloc: Global, user: u32) -> Result<Option<UserRecord>, Fault>
        ensures { ReadsList self.old self.new result (λ w row. row ≡ user_record w user) }
    {
        Ok(user_record(&self.world, user))
    }

    fn triples_of(
        &mut self,
        alloc: Global,
        user: u32,
        procedure: Procedure,
    ) -> Result<RcSlice<HeldRow>, Fault>
        ensures { ReadsList self.old self.new result (λ w rows. rc_slice_items rows ≡ triples_of w.policy user procedure) }
    {
        let rows = triples_of(alloc, self.world.policy(), user, procedure);
        self.counted(rows.and_then(RcSlice::from_vec))
    }

    fn relations_of(
        &mut self,
        alloc: Global,
        procedure: Procedure,
    ) -> Result<RcSlice<CertifiedRow>, Fault>
        ensures { ReadsList self.old self.new result (λ w rows. rc_slice_items rows ≡ relations_of w.policy procedure) }
    {
        let rows = relations_of(alloc, self.world.policy(), procedure);
        self.counted(rows.and_then(RcSlice::from_vec))
    }

    fn triples(&mut self, _alloc: Global, user: u32) -> Result<u64, Fault>
        ensures { ReadsList self.old self.new result (λ w n. n ≡ triple_count w user) }
    {
        Ok(triple_count(&self.world, user))
    }

    fn sets(&mut self, _alloc: Global) -> Result<u64, Fault>
        ensures { ReadsList self.old self.new result (λ w n. n ≡ set_count w) }
    {
        Ok(set_count(&self.world))
    }

    fn set(&mut self, _alloc: Global, number: u32) -> Result<bool, Fault>
        ensures { ReadsList self.old self.new result (λ w is. is ≡ is_set w number) }
    {
        Ok(is_set(&self.world, number))
    }

    fn certifier(&mut self, _alloc: Global, user: u32, procedure: Procedure) -> Result<bool, Fault>
        ensures { ReadsList self.old self.new result (λ w is. is ≡ is_certifier w user procedure) }
    {
        Ok(is_certifier(&self.world, user, procedure))
    }

    fn release(&mut self, _alloc: Global, user: u32, number: u32) -> Result<Option<Release>, Fault>
        ensures { ReadsList self.old self.new result (λ w row. row ≡ release w user number) }
    {
        Ok(release(&self.world, user, number))
    }

    fn version(&mut self, _alloc: Global) -> Result<u64, Fault>
        ensures { ReadsList self.old self.new result (λ w n. n ≡ w.version) }
    {
        Ok(self.world.version())
    }
}

impl BookReads for ListStore {
    fn account(&mut self, _alloc: Global, account: u32) -> Result<Option<AccountRecord>, Fault>
        ensures { ReadsList self.old self.new result (λ w row. row ≡ account_record w account) }
    {
        Ok(account_record(&self.world, account))
    }

    fn teller(&mut self, _alloc: Global, teller: u32) -> Result<Option<TellerRecord>, Fault>
        ensures { ReadsList self.old self.new result (λ w row. row ≡ teller_record w teller) }
    {
        Ok(teller_record(&self.world, teller))
    }

    fn branch(&mut self, _alloc: Global, branch: u32) -> Result<Option<BranchRecord>, Fault>
        ensures { ReadsList self.old self.new result (λ w row. row ≡ branch_record w branch) }
    {
        Ok(branch_record(&self.world, branch))
    }

    fn roster(&mut self, alloc: Global, branch: u32) -> Result<Vec<TellerRecord>, Fault>
        ensures { ReadsList self.old self.new result (λ w rows. rows.items ≡ roster w branch) }
    {
        let rows = roster(alloc, &self.world, branch);
        self.counted(rows)
    }

    fn entry(&mut self, _alloc: Global, branch: u32, number: u32) -> Result<Option<Entry>, Fault>
        ensures { ReadsList self.old self.new result (λ w row. row ≡ entry w branch number) }
    {
        Ok(entry(&self.world, branch, number))
    }

    fn undone(&mut self, _alloc: Global, branch: u32, number: u32) -> Result<bool, Fault>
        ensures { ReadsList self.old self.new result (λ w is. is ≡ undone w branch number) }
    {
        Ok(undone(&self.world, branch, number))
    }

    fn drawer(&mut self, _alloc: Global, teller: u32) -> Result<Option<DrawerRecord>, Fault>
        ensures { ReadsList self.old self.new result (λ w row. row ≡ drawer w teller) }
    {
        Ok(drawer(&self.world, teller))
    }

    fn vault(&mut self, _alloc: Global, branch: u32) -> Result<Option<i128>, Fault>
        ensures { ReadsList self.old self.new result (λ w cash. cash ≡ vault w branch) }
    {
        Ok(vault(&self.world, branch))
    }
}

impl SlipReads for ListStore {
    fn slip(&mut self, alloc: Global, user: u32, number: u32) -> Result<Option<Slip>, Fault>
        ensures { ReadsList self.old self.new result (λ w row. row ≡ slip w user number) }
    {
        let row = slip(alloc, &self.world, user, number);
        self.counted(row)
    }

    fn slips(&mut self, _alloc: Global, user: u32) -> Result<u64, Fault>
        ensures { ReadsList self.old self.new result (λ w n. n ≡ slip_count user w.slips) }
    {
        Ok(slip_count(&self.world, user))
    }
}

impl ReportReads for ListStore {
    fn entries_of(
        &mut self,
        alloc: Global,
        account: u32,
        start: u32,
        count: u32,
    ) -> Result<Vec<EntryRecord>, Fault>
        ensures { ReadsList self.old self.new result (λ w rows. rows.items ≡ entries_of w account start count) }
    {
        let rows = entries_of(alloc, &self.world, account, start, count);
        self.counted(rows)
    }

    fn entry_at(
        &mut self,
        _alloc: Global,
        account: u32,
        turn: u32,
    ) -> Result<Option<EntryRecord>, Fault>
        ensures { ReadsList self.old self.new result (λ w row. row ≡ entry_at w account turn) }
    {
        Ok(entry_at(&self.world, account, turn))
    }

    fn shown(
        &mut self,
        alloc: Global,
        user: u32,
        after: u32,
        count: u32,
        moment: u64,
    ) -> Result<Vec<AccountRecord>, Fault>
        ensures { ReadsList self.old self.new result (λ w rows. rows.items ≡ shown w user after count moment) }
    {
        let rows = shown(alloc, &self.world, user, after, count, moment);
        self.counted(rows)
    }

    fn next_shown(
        &mut self,
        alloc: Global,
        user: u32,
        after: u32,
        moment: u64,
    ) -> Result<Option<AccountRecord>, Fault>
        ensures { ReadsList self.old self.new result (λ w row. row ≡ next_shown w user after moment) }
    {
        let row = next_shown(alloc, &self.world, user, after, moment);
        self.counted(row)
    }

    fn next_teller(
        &mut self,
        _alloc: Global,
        branch: u32,
        after: u32,
    ) -> Result<Option<TellerRecord>, Fault>
        ensures { ReadsList self.old self.new result (λ w row. row ≡ next_teller w branch after) }
    {
        Ok(next_teller(&self.world, branch, after))
    }

    fn policy_rows(&mut self, alloc: Global) -> Result<Vec<PolicyRow>, Fault>
        ensures { ReadsList self.old self.new result (λ w rows. rows.items ≡ policy_rows w) }
    {
        let rows = policy_rows(alloc, &self.world);
        self.counted(rows)
    }

    fn next_policy(
        &mut self,
        alloc: Global,
        after: Option<PolicyKey>,
    ) -> Result<Option<PolicyRow>, Fault>
        ensures { ReadsList self.old self.new result (λ w row. row ≡ next_policy w after) }
    {
        let row = next_policy(alloc, &self.world, after);
        self.counted(row)
    }
}

impl Store for ListStore {
    /// It has room for every plan but one that changes the policy at the greatest version, of which it
    /// says `Fault::Size`. Otherwise only memory keeps it from carrying out the plan.
    fn apply(&mut self, alloc: Global, plan: Plan) -> Result<(), Fault>
        ensures changed { Changes (list_status self.old) (list_status self.new) (applied plan.items) (mark_of result) }
        ensures room { Tells (list_status self.old) (list_status self.new) (λ w. OnOk result (IsTrue (has_version_for plan.items w.version))) }
        ensures refused { Refuses (list_status self.old) (mark_of result) }
        ensures counted { (list_status self.new).fault_count ≡ count_after (mark_of result) (list_status self.old).fault_count }
        ensures full { Tells (list_status self.old) (list_status self.new) (λ w. (result ≡ Err Fault.Size) ↔ (has_version_for plan.items w.version ≡ false)) }
        ensures memory { OnErr result ((result ≡ Err Fault.Memory) ⊎ (result ≡ Err Fault.Size)) }
    {
        if !self.world.has_version_for(&plan) {
            self.faults = self.faults.saturating_add(1);
            self.failures = self.failures.saturating_add(1);
            return Err(Fault::Size);
        }
        match self.world.apply(alloc, plan) {
            Ok(()) => Ok(()),
            Err(refused) => self.counted(Err(refused)),
        }
    }
}
