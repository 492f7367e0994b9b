//! The instances of a quantifier.

ghost use Rattle.std.specs.Prelude.{◌≡◌, ◌<◌, ◌+◌, ◌*◌, ◌^◌, ℤ, pos, neg_ℤ, ◌≤ℤ◌, ◌+ℤ◌, IfOk};
ghost use Rattle.jr_program.specs.declared.words.Quantifier.{Quantifier as QuantifierWord};
ghost use Rattle.jr_meaning.specs.Worth.{Worth, quantified, instances, first_from, past_to};
ghost use Rattle.jr_clause_eval.specs.Instances.{over_instances, AreInts};
ghost use Rattle.std.specs.Int.{int_gap};

use crate::outcome::Stuck;
use jr_base::Value;
use jr_program::Bound;

/// The most instances that a quantifier tries.
const MOST_INSTANCES: u64 = 4096;

/// The ints that a quantifier tries, in rising order.
#[derive(Clone, Copy, Debug, PartialEq, Eq)]
pub struct Instances {
    /// The first one, where there is one.
    pub first: i64,
    pub count: u32,
}

/// The ints between two bounds. Wide where there are too many.
pub fn instances_between(
    low_bound: Bound,
    high_bound: Bound,
    low: Value,
    high: Value,
) -> Result<Instances, Stuck>
    ensures worth { (word : QuantifierWord) (instance : ℤ → Worth) → quantified word low_bound high_bound low high instance ≡ over_instances result word instance }
    ensures ints { IfOk result AreInts }
{
    match (low, high) {
        (Value::Int(low), Value::Int(high)) => ints_between(low_bound, high_bound, low, high),
        _ => Err(Stuck::Undefined),
    }
}

fn ints_between(
    low_bound: Bound,
    high_bound: Bound,
    low: i32,
    high: i32,
) -> Result<Instances, Stuck>
    ensures worth { (word : QuantifierWord) (instance : ℤ → Worth) → instances word (int_gap (first_from low_bound low) (past_to high_bound high)) (first_from low_bound low) instance ≡ over_instances result word instance }
    ensures ints { IfOk result AreInts }
{
    let first = first_from_bound(low_bound, low);
    let past = past_to_bound(high_bound, high);
    counted(first, past)
}

fn first_from_bound(bound: Bound, low: i32) -> i64
    ensures first { result ≡ first_from bound low }
    ensures least { neg_ℤ (pos (2 ^ 31)) ≤ℤ result }
    ensures most { result ≤ℤ pos (2 ^ 31) }
{
    match bound {
        Bound::Inclusive => i64::from(low),
        Bound::Exclusive => i64::from(low) + 1,
    }
}

fn past_to_bound(bound: Bound, high: i32) -> i64
    ensures past { result ≡ past_to bound high }
    ensures least { neg_ℤ (pos (2 ^ 31)) ≤ℤ result }
    ensures most { result ≤ℤ pos (2 ^ 31) }
{
    match bound {
        Bound::Inclusive => i64::from(high) + 1,
        Bound::Exclusive => i64::from(high),
    }
}

// The ints from one on and before another.
fn counted(first: i64, past: i64) -> Result<Instances, Stuck>
    requires least { neg_ℤ (pos (2 ^ 31)) ≤ℤ first }
    requires first_most { first ≤ℤ pos (2 ^ 31) }
    requires past_least { neg_ℤ (pos (2 ^ 31)) ≤ℤ past }
    requires most { past ≤ℤ pos (2 ^ 31) }
    ensures worth { (word : QuantifierWord) (instance : ℤ → Worth) → instances word (int_gap first past) first instance ≡ over_instances result word instance }
    ensures ints { IfOk result AreInts }
{
    let count = if first < past {
        (past - first) as u64
    } else {
        0
    };
    if count > MOST_INSTANCES {
        return Err(Stuck::Wide);
    }
    Ok(Instances {
        first,
        count: count as u32,
    })
}

impl Instances {
    /// The instance of that place, from 0.
    pub fn at(&self, place: u32) -> i32
        requires ints { AreInts self.now }
        requires within { place < self.now.count }
        ensures { result ≡ self.now.first +ℤ pos place }
    {
        (self.first + i64::from(place)) as i32
    }
}
