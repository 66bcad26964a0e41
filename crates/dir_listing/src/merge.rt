// Runs of bindings: their names rise.
ghost use Rattle.std.specs.Prelude.{◌≡◌, List, ℕ, Bool, IfOk, OnOk};
ghost use Rattle.std.specs.List.Sorted.{IsStrictlySortedBy};
ghost use Rattle.dir_listing.specs.Bound.{by_name, found, shows_or};

use crate::bound::Bound;
use std::alloc::{AllocError, Global};
use std::cmp::Ordering;

// Sorts by names, and of those with the same name keeps the first.
pub(crate) fn keep_topmost(bounds: &mut Vec<Bound>) -> Result<(), AllocError>
    ensures sorted { OnOk result (IsStrictlySortedBy by_name bounds.new.items) }
    ensures found { OnOk result ((n : List ℕ) → found n bounds.new.items ≡ found n bounds.old.items) }
{
    bounds.sort_by_key(|bound| bound.name)?;
    bounds.dedup_by_key(|bound| bound.name);
    Ok(())
}

// Two runs whose names rise as one, in which the upper one's binding of a name stands for both.
pub(crate) fn merged<'a>(
    alloc: Global,
    upper: &[Bound<'a>],
    lower: &[Bound<'a>],
) -> Result<Vec<Bound<'a>>, AllocError>
    requires upper { IsStrictlySortedBy by_name upper.now }
    requires lower { IsStrictlySortedBy by_name lower.now }
    ensures sorted { IfOk result (λ v. IsStrictlySortedBy by_name v.items) }
    ensures found { IfOk result (λ v. (n : List ℕ) (b : Bool) → shows_or (found n v.items) b ≡ shows_or (found n upper.now) (shows_or (found n lower.now) b)) }
{
    let mut all = Vec::with_capacity(alloc, upper.len().saturating_add(lower.len()))?;
    let mut first = 0;
    let mut second = 0;
    while first < upper.len() {
        if second >= lower.len() {
            all.extend_from_slice(&upper[first..])?;
            return Ok(all);
        }
        let low = lower[second];
        let high = upper[first];
        match low.name.cmp(high.name) {
            Ordering::Less => {
                all.push(low)?;
                second += 1;
            }
            Ordering::Equal => second += 1,
            Ordering::Greater => {
                all.push(high)?;
                first += 1;
            }
        }
    }
    all.extend_from_slice(&lower[second..])?;
    Ok(all)
}
