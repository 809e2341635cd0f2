//! What two strings or vectors have in common, by which a delta is short.

ghost use Rattle.std.specs.Prelude.{◌≡◌, ◌≤◌, ◌-◌, drop, length, take, true};
ghost use Rattle.fast_field.specs.Chosen.{CanBeUnits, IsBestCut};
ghost use Rattle.fast_field.specs.CommonParts.{IsLongestPrefix, IsLongestSuffix};
ghost use Rattle.fast_field.specs.Removals.{length_of};

use crate::delta::{Removal, size_cut};
use fast_template::{Kind, Presence};

/// How many units are compared in one step.
const STEP: usize = 16;

/// Whether two lists are the same.
#[inline(always)]
fn are_same(a: &[u8], b: &[u8]) -> bool
    ensures { result ≡ true → a.now ≡ b.now }
{
    a == b
}

/// How many units two lists have in common at their front, as far as steps go.
#[tactic(auto, using(crate::proofs::Agreeing::agreeing))]
#[inline(always)]
fn agreeing_front(a: &[u8], b: &[u8]) -> usize
    ensures place { (result ≤ length a.now) × (result ≤ length b.now) }
    ensures common { take result a.now ≡ take result b.now }
{
    let end = a.len().min(b.len());
    let mut i = 0;
    while end - i >= STEP && are_same(&a[i..i + STEP], &b[i..i + STEP]) {
        i += STEP;
    }
    i
}

/// The same at their end.
#[tactic(auto, using(crate::proofs::Agreeing::agreeing))]
#[inline(always)]
fn agreeing_end(a: &[u8], b: &[u8]) -> usize
    ensures place { (result ≤ length a.now) × (result ≤ length b.now) }
    ensures common { drop (length a.now - result) a.now ≡ drop (length b.now - result) b.now }
{
    let end = a.len().min(b.len());
    let mut i = 0;
    while end - i >= STEP
        && are_same(
            &a[a.len() - i - STEP..a.len() - i],
            &b[b.len() - i - STEP..b.len() - i],
        )
    {
        i += STEP;
    }
    i
}

/// How many units two lists have in common at their front.
#[tactic(auto, using(crate::proofs::Agreeing::agreeing))]
pub(crate) fn common_prefix(a: &[u8], b: &[u8]) -> usize
    ensures { IsLongestPrefix a.now b.now result }
{
    let end = a.len().min(b.len());
    for i in agreeing_front(a, b)..end {
        if a[i] != b[i] {
            return i;
        }
    }
    end
}

/// How many units two lists have in common at their end.
#[tactic(auto, using(crate::proofs::Agreeing::agreeing))]
pub(crate) fn common_suffix(a: &[u8], b: &[u8]) -> usize
    ensures { IsLongestSuffix a.now b.now result }
{
    let end = a.len().min(b.len());
    for i in agreeing_end(a, b)..end {
        if a[a.len() - 1 - i] != b[b.len() - 1 - i] {
            return i;
        }
    }
    end
}

/// What the best delta removes of a base, and its new part: the fewest bytes; of these, removal at the end; of
/// these, the shortest new part. On each side it is the longest common part that stays. (FAST 1.1, Field Operators,
/// Delta Operator, leaves the choice to the writer.)
pub fn best_cut<'a>(
    kind: Kind,
    presence: Presence,
    base: &[u8],
    value: &'a [u8],
) -> (Removal, &'a [u8])
    requires base { length base.now ≤ 65535 }
    requires value { CanBeUnits kind value.now }
    ensures { IsBestCut kind presence base.now value.now (length_of result.0) result.1.now }
{
    let prefix = common_prefix(base, value);
    let suffix = common_suffix(base, value);
    let at_end = Removal::AtEnd(base.len() - prefix);
    let in_front = Removal::InFront(base.len() - suffix);
    let back = &value[prefix..];
    let front = &value[..value.len() - suffix];
    let end_size = size_cut(kind, presence, at_end, back);
    let front_size = size_cut(kind, presence, in_front, front);
    if end_size <= front_size {
        (at_end, back)
    } else {
        (in_front, front)
    }
}
