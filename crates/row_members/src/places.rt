//! Numbers in the places of a row, with 0 after the last, and those of one to six members read back.

ghost use Rattle.std.specs.Prelude.{◌≡◌, ◌≤◌, ℤ, [], ◌∷◌, length, IfSome, IfNone};
ghost use Rattle.row_members.specs.Places.{places};

/// The numbers in the places of a row, with 0 after the last.
pub fn in_places(numbers: &[i64]) -> [i64; 8]
    requires { length numbers.now ≤ 8 }
    ensures { result ≡ places numbers.now }
{
    let mut members = [0; 8];
    members[..numbers.len()].copy_from_slice(numbers);
    members
}

/// The one number of a row that has no more, or none where another place is not 0.
pub fn one(members: &[i64; 8]) -> Option<i64>
    ensures some { IfSome result (λ n. places (n ∷ []) ≡ members.now) }
    ensures none { IfNone result ((first : ℤ) → ¬ (places (first ∷ []) ≡ members.now)) }
{
    let [first, 0, 0, 0, 0, 0, 0, 0] = *members else {
        return None;
    };
    Some(first)
}

/// The two numbers of a row that has no more, or none where another place is not 0.
pub fn two(members: &[i64; 8]) -> Option<(i64, i64)>
    ensures some { IfSome result (λ n. places (n.0 ∷ n.1 ∷ []) ≡ members.now) }
    ensures none { IfNone result ((first second : ℤ) → ¬ (places (first ∷ second ∷ []) ≡ members.now)) }
{
    let [first, second, 0, 0, 0, 0, 0, 0] = *members else {
        return None;
    };
    Some((first, second))
}

/// The three numbers of a row that has no more, or none where another place is not 0.
pub fn three(members: &[i64; 8]) -> Option<(i64, i64, i64)>
    ensures some { IfSome result (λ n. places (n.0 ∷ n.1 ∷ n.2 ∷ []) ≡ members.now) }
    ensures none { IfNone result ((first second third : ℤ) → ¬ (places (first ∷ second ∷ third ∷ []) ≡ members.now)) }
{
    let [first, second, third, 0, 0, 0, 0, 0] = *members else {
        return None;
    };
    Some((first, second, third))
}

/// The four numbers of a row that has no more, or none where another place is not 0.
pub fn four(members: &[i64; 8]) -> Option<(i64, i64, i64, i64)>
    ensures some { IfSome result (λ n. places (n.0 ∷ n.1 ∷ n.2 ∷ n.3 ∷ []) ≡ members.now) }
    ensures none { IfNone result ((first second third fourth : ℤ) → ¬ (places (first ∷ second ∷ third ∷ fourth ∷ []) ≡ members.now)) }
{
    let [first, second, third, fourth, 0, 0, 0, 0] = *members else {
        return None;
    };
    Some((first, second, third, fourth))
}

/// The five numbers of a row that has no more, or none where another place is not 0.
pub fn five(members: &[i64; 8]) -> Option<(i64, i64, i64, i64, i64)>
    ensures some { IfSome result (λ n. places (n.0 ∷ n.1 ∷ n.2 ∷ n.3 ∷ n.4 ∷ []) ≡ members.now) }
    ensures none { IfNone result ((first second third fourth fifth : ℤ) → ¬ (places (first ∷ second ∷ third ∷ fourth ∷ fifth ∷ []) ≡ members.now)) }
{
    let [first, second, third, fourth, fifth, 0, 0, 0] = *members else {
        return None;
    };
    Some((first, second, third, fourth, fifth))
}

/// The six numbers of a row that has no more, or none where another place is not 0.
pub fn six(members: &[i64; 8]) -> Option<(i64, i64, i64, i64, i64, i64)>
    ensures some { IfSome result (λ n. places (n.0 ∷ n.1 ∷ n.2 ∷ n.3 ∷ n.4 ∷ n.5 ∷ []) ≡ members.now) }
    ensures none { IfNone result ((first second third fourth fifth sixth : ℤ) → ¬ (places (first ∷ second ∷ third ∷ fourth ∷ fifth ∷ sixth ∷ []) ≡ members.now)) }
{
    let [first, second, third, fourth, fifth, sixth, 0, 0] = *members else {
        return None;
    };
    Some((first, second, third, fourth, fifth, sixth))
}
