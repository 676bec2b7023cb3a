//! Parts of sums by group, sorted once, with the sum before every 64th, by which totals are found in two searches.

ghost use Rattle.std.specs.Prelude.{◌≡◌, ◌+◌, ◌*◌, ◌/◌, ◌^◌, ◌<◌, ◌≤◌, ◌≤ℤ◌, IfOk, length, map, neg_ℤ, pos, slice_index_or, IsTrue, ℕ};
ghost use Rattle.std.specs.List.{All};
ghost use Rattle.std.specs.List.Sorted.{IsNonDecreasingBy, IsPartitionPoint, IsPermutation};
ghost use Rattle.book_sums.specs.declared.shares.Part.{Part as APart};
ghost use Rattle.book_sums.specs.Shares.{AreSumsOfSteps, IsPart, part_key};

use crate::groups::rows_of_group;
use keyed_rows::{Keyed, Tally, sum_of};
use std::alloc::{AllocError, Global};
use std::marker::Model;

/// How many parts there are from one kept sum to the next.
const STEP: usize = 64;

/// One row's part in sums by group, such as an entry's delta in the sum of its account.
#[derive(Clone, Copy, Debug, PartialEq, Eq)]
pub struct Part {
    /// The number of the group, such as that of an account.
    pub group: u32,
    /// The number of the part in its group, such as the turn of an entry.
    pub number: u32,
    /// What it adds to the sum of its group.
    pub amount: i64,
}

impl Part {
    /// The number by which parts stand in order: by group, then by number.
    fn key(&self) -> u64
        ensures { result ≡ part_key self.now }
    {
        key_of(self.group, self.number)
    }
}

impl Keyed for Part {
    ghost use Rattle.book_sums.specs.Shares.{part_key};

    ghost key = { part_key };

    fn key(&self) -> u128 {
        key_of(self.group, self.number) as u128
    }
}

fn key_of(group: u32, number: u32) -> u64
    ensures { result ≡ 2 ^ 32 * group + number }
{
    group as u64 * (1 << 32) + number as u64
}

/// The amounts of parts.
#[derive(Clone, Copy)]
struct Amounts;

impl Tally<Part> for Amounts {
    ghost share = { λ _ p. p.amount };

    fn share(&self, row: &Part) -> i64 {
        row.amount
    }
}

/// How a row is taken as a part.
pub trait Parts<T> {
    ghost use Rattle.std.specs.Prelude.{◌≡◌};
    ghost use Rattle.book_sums.specs.declared.shares.Part.{Part};

    ghost part: { Self → T → Part };

    /// The part of the row.
    fn part(&self, row: &T) -> Part
        ensures { result ≡ part self.now row.now };
}

/// Parts in order of group, then number, with the sum before every 64th of them: what a group comes
/// to is found by two searches, each of which halves the parts that are left and then adds up to 63
/// amounts to a kept sum.
#[derive(Drop)]
pub struct Shares {
    parts: Vec<Part>,
    /// What the parts before the places 0, 64, 128 and so on add up to.
    sums: Vec<i128>,
}

impl Model for Shares {
    ghost use Rattle.std.specs.Prelude.{List};
    ghost use Rattle.book_sums.specs.declared.shares.Part.{Part};
    ghost use Rattle.book_sums.specs.Shares.{AreShares};

    ghost Value = { List Part };

    ghost view = { λ s. s.parts.items };

    ghost invariant = { λ s. AreShares s.parts.items s.sums.items };
}

impl Shares {
    ghost use Rattle.std.specs.Prelude.{◌≡◌, ◌==◌, ◌≤◌, ◌≤ℤ◌, ◌^◌, IfOk, filter, length, map, neg_ℤ, pos};
    ghost use Rattle.std.specs.List.Sorted.{IsNonDecreasingBy, IsPermutation};
    ghost use Rattle.book_sums.specs.Shares.{count_between, group_count, group_total, part_key, total_at, total_before, total_between, total_up_to};

    /// The parts of these rows. It takes the time of one sort, and fails only where memory is
    /// refused.
    pub fn of<T, Q: Parts<T>>(alloc: Global, query: &Q, rows: &[T]) -> Result<Shares, AllocError>
        ensures { IfOk result (λ shares. IsPermutation (map (Q.part query.now) rows.now) shares) }
    {
        let mut parts = parts_of(alloc, query, rows)?;
        put_in_order(&mut parts);
        let sums = sums_of_steps(alloc, &parts)?;
        Ok(Shares { parts, sums })
    }

    /// The parts, in order of group, then number.
    pub fn parts(&self) -> &[Part]
        ensures { result.now ≡ self.now }
    {
        &self.parts
    }

    /// What the parts of the group come to.
    pub fn total_of(&self, group: u32) -> i128
        ensures value { result ≡ group_total group self.now }
        ensures low { neg_ℤ (pos (2 ^ 126)) ≤ℤ result }
        ensures high { result ≤ℤ pos (2 ^ 126) }
    {
        self.total_between(key_of(group, 0), key_of(group, u32::MAX))
    }

    /// How many parts the group has.
    pub fn count_of(&self, group: u32) -> u64
        ensures { result ≡ group_count group self.now }
    {
        self.count_between(key_of(group, 0), key_of(group, u32::MAX))
    }

    /// What the parts of the group come to that are numbered up to this number.
    pub fn total_up_to(&self, group: u32, number: u32) -> i128
        ensures value { result ≡ total_up_to group number self.now }
        ensures low { neg_ℤ (pos (2 ^ 126)) ≤ℤ result }
        ensures high { result ≤ℤ pos (2 ^ 126) }
    {
        self.total_between(key_of(group, 0), key_of(group, number))
    }

    /// What the parts of the group come to that have this number.
    pub fn total_at(&self, group: u32, number: u32) -> i128
        ensures value { result ≡ total_at group number self.now }
        ensures low { neg_ℤ (pos (2 ^ 126)) ≤ℤ result }
        ensures high { result ≤ℤ pos (2 ^ 126) }
    {
        self.total_between(key_of(group, number), key_of(group, number))
    }

    /// The parts of the group, by number.
    pub fn parts_of(&self, group: u32) -> &[Part]
        ensures value { result.now ≡ filter (λ p. p.group == group) self.now }
        ensures in_order { IsNonDecreasingBy part_key result.now }
    {
        rows_of_group(&self.parts, group)
    }

    /// What the parts come to whose keys lie from the first to the last.
    fn total_between(&self, first: u64, last: u64) -> i128
        requires { first ≤ last }
        ensures value { result ≡ total_between first last self.now }
        ensures parts { All IsPart self.now }
        ensures low { neg_ℤ (pos (2 ^ 126)) ≤ℤ result }
        ensures high { result ≤ℤ pos (2 ^ 126) }
    {
        let start = end_below(&self.parts, first);
        let guess = (start as u64).saturating_add(last - first);
        let end = end_near(&self.parts, guess, last);
        self.sum_before(end) - self.sum_before(start)
    }

    /// What the parts before a place add up to.
    fn sum_before(&self, place: usize) -> i128
        requires { place ≤ length self.now }
        ensures { result ≡ total_before place self.now }
    {
        let step = place / STEP;
        self.sums[step] + sum_of(&Amounts, &self.parts[step * STEP..place])
    }

    /// How many parts have keys from the first to the last.
    fn count_between(&self, first: u64, last: u64) -> u64
        requires { first ≤ last }
        ensures value { result ≡ count_between first last self.now }
        ensures parts { All IsPart self.now }
    {
        (end_at(&self.parts, last) - end_below(&self.parts, first)) as u64
    }
}

/// The place after the parts whose keys are below this one.
fn end_below(parts: &[Part], key: u64) -> usize
    requires { IsNonDecreasingBy part_key parts.now }
    ensures bound { result ≤ length parts.now }
    ensures place { IsPartitionPoint (λ p. part_key p < key) (λ p. key ≤ part_key p) parts.now result }
{
    parts.partition_point(|part| part.key() < key)
}

/// The place after the parts whose keys are not above this one.
fn end_at(parts: &[Part], key: u64) -> usize
    requires { IsNonDecreasingBy part_key parts.now }
    ensures bound { result ≤ length parts.now }
    ensures place { IsPartitionPoint (λ p. part_key p ≤ key) (λ p. key < part_key p) parts.now result }
{
    parts.partition_point(|part| part.key() <= key)
}

/// The same, which is found at once where the guess is right: a group that is numbered 1, 2, 3 and
/// so on has as many parts up to a number as the number says.
fn end_near(parts: &[Part], guess: u64, key: u64) -> usize
    requires { IsNonDecreasingBy part_key parts.now }
    ensures bound { result ≤ length parts.now }
    ensures place { IsPartitionPoint (λ p. part_key p ≤ key) (λ p. key < part_key p) parts.now result }
{
    match usize::try_from(guess) {
        Ok(place) if is_end_at(parts, place, key) => place,
        _ => end_at(parts, key),
    }
}

/// Whether this is the place after the parts whose keys are not above this one.
fn is_end_at(parts: &[Part], place: usize, key: u64) -> bool
    requires { IsNonDecreasingBy part_key parts.now }
    ensures bound { IsTrue result → place ≤ length parts.now }
    ensures place { IsTrue result → IsPartitionPoint (λ p. part_key p ≤ key) (λ p. key < part_key p) parts.now place }
{
    place <= parts.len() && are_up_to(parts, place, key) && are_above(parts, place, key)
}

/// Whether the keys of the parts before a place are not above this one.
fn are_up_to(parts: &[Part], place: usize, key: u64) -> bool
    requires in_order { IsNonDecreasingBy part_key parts.now }
    requires bound { place ≤ length parts.now }
    ensures { IsTrue result → (k : ℕ) (d : APart) → k < place → part_key (slice_index_or parts.now k d) ≤ key }
{
    place == 0 || parts[place - 1].key() <= key
}

/// Whether the keys of the parts from a place on are above this one.
fn are_above(parts: &[Part], place: usize, key: u64) -> bool
    requires in_order { IsNonDecreasingBy part_key parts.now }
    requires bound { place ≤ length parts.now }
    ensures { IsTrue result → (k : ℕ) (d : APart) → place ≤ k → k < length parts.now → key < part_key (slice_index_or parts.now k d) }
{
    place == parts.len() || key < parts[place].key()
}

/// The parts of the rows, in the order of the rows.
fn parts_of<T, Q: Parts<T>>(alloc: Global, query: &Q, rows: &[T]) -> Result<Vec<Part>, AllocError>
    ensures value { IfOk result (λ parts. parts.items ≡ map (Q.part query.now) rows.now) }
    ensures in_range { IfOk result (λ parts. All IsPart parts.items) }
{
    let mut parts = Vec::with_capacity(alloc, rows.len())?;
    for row in rows {
        parts.push(query.part(row))?;
    }
    Ok(parts)
}

fn put_in_order(parts: &mut Vec<Part>)
    ensures same { IsPermutation parts.old.items parts.new.items }
    ensures in_order { IsNonDecreasingBy part_key parts.new.items }
{
    parts.sort_unstable_by_key(|part| part.key());
}

/// What the parts before the places 0, 64, 128 and so on add up to.
fn sums_of_steps(alloc: Global, parts: &[Part]) -> Result<Vec<i128>, AllocError>
    requires { All IsPart parts.now }
    ensures { IfOk result (λ sums. AreSumsOfSteps (length parts.now / STEP) parts.now sums.items) }
{
    let steps = parts.len() / STEP;
    let mut sum: i128 = 0;
    let mut sums = Vec::with_capacity(alloc, steps + 1)?;
    sums.push(sum)?;
    for step in 0..steps {
        sum += sum_of(&Amounts, &parts[step * STEP..(step + 1) * STEP]);
        sums.push(sum)?;
    }
    Ok(sums)
}
