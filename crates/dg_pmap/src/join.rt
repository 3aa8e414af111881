//! Two balanced trees become one: the rotations of an AVL tree, on new forks, so that the old ones stay.
ghost use Rattle.std.specs.Prelude.{◌≡◌, ◌+◌, ◌≤◌, ◌++◌, max, IfOk};
ghost use Rattle.std.specs.Arc.{arc_value};
ghost use Rattle.dg_pmap.specs.Heights.{IsJoinHeight};

use crate::tree::{Body, Tree};
use std::alloc::{AllocError, Global};
use std::sync::Arc;

/// One tree of two whose heights differ by at most two.
pub(crate) fn joined<K: Copy, V: Drop>(
    alloc: Global,
    low: Arc<Tree<K, V>>,
    high: Arc<Tree<K, V>>,
) -> Result<Arc<Tree<K, V>>, AllocError>
    requires low_near { (arc_value low).1 ≤ (arc_value high).1 + 2 }
    requires high_near { (arc_value high).1 ≤ (arc_value low).1 + 2 }
    ensures pairs { IfOk result (λ t. (arc_value t).0 ≡ (arc_value low).0 ++ (arc_value high).0) }
    ensures height { IfOk result (λ t. IsJoinHeight (arc_value low).1 (arc_value high).1 (arc_value t).1) }
{
    let lower = low.height();
    let higher = high.height();
    if lower > higher + 1 {
        let whole = leaning_low(alloc, &low, high)?;
        Ok(whole)
    } else if higher > lower + 1 {
        let whole = leaning_high(alloc, low, &high)?;
        Ok(whole)
    } else {
        Tree::fork(alloc, low, high)
    }
}

// The lower tree is taller by two.
fn leaning_low<K: Copy, V: Drop>(
    alloc: Global,
    low: &Tree<K, V>,
    high: Arc<Tree<K, V>>,
) -> Result<Arc<Tree<K, V>>, AllocError>
    requires { low.now.1 ≡ (arc_value high).1 + 2 }
    ensures pairs { IfOk result (λ t. (arc_value t).0 ≡ low.now.0 ++ (arc_value high).0) }
    ensures height { IfOk result (λ t. IsJoinHeight low.now.1 (arc_value high).1 (arc_value t).1) }
{
    match &low.body {
        Body::Leaf(_) => unreachable!(),
        Body::Fork(outer, _, inner) => {
            if outer.height() >= inner.height() {
                turned_high(alloc, outer, inner, high)
            } else {
                parted(alloc, Arc::try_clone(outer)?, inner, high)
            }
        }
    }
}

// The higher tree is taller by two.
fn leaning_high<K: Copy, V: Drop>(
    alloc: Global,
    low: Arc<Tree<K, V>>,
    high: &Tree<K, V>,
) -> Result<Arc<Tree<K, V>>, AllocError>
    requires { high.now.1 ≡ (arc_value low).1 + 2 }
    ensures pairs { IfOk result (λ t. (arc_value t).0 ≡ (arc_value low).0 ++ high.now.0) }
    ensures height { IfOk result (λ t. IsJoinHeight (arc_value low).1 high.now.1 (arc_value t).1) }
{
    match &high.body {
        Body::Leaf(_) => unreachable!(),
        Body::Fork(inner, _, outer) => {
            if outer.height() >= inner.height() {
                turned_low(alloc, low, inner, outer)
            } else {
                let whole = parted(alloc, low, inner, Arc::try_clone(outer)?)?;
                Ok(whole)
            }
        }
    }
}

// The middle tree joins the high one.
fn turned_high<K: Copy, V: Drop>(
    alloc: Global,
    low: &Arc<Tree<K, V>>,
    middle: &Arc<Tree<K, V>>,
    high: Arc<Tree<K, V>>,
) -> Result<Arc<Tree<K, V>>, AllocError>
    requires middle_least { (arc_value high).1 ≤ (arc_value middle.now).1 }
    requires middle_most { (arc_value middle.now).1 ≤ (arc_value high).1 + 1 }
    requires low_is { (arc_value low.now).1 ≡ (arc_value high).1 + 1 }
    ensures pairs { IfOk result (λ t. (arc_value t).0 ≡ ((arc_value low.now).0 ++ (arc_value middle.now).0) ++ (arc_value high).0) }
    ensures height { IfOk result (λ t. (arc_value t).1 ≡ (arc_value middle.now).1 + 2) }
{
    let high = Tree::fork(alloc, Arc::try_clone(middle)?, high)?;
    let whole = Tree::fork(alloc, Arc::try_clone(low)?, high)?;
    Ok(whole)
}

// The middle tree joins the low one.
fn turned_low<K: Copy, V: Drop>(
    alloc: Global,
    low: Arc<Tree<K, V>>,
    middle: &Arc<Tree<K, V>>,
    high: &Arc<Tree<K, V>>,
) -> Result<Arc<Tree<K, V>>, AllocError>
    requires middle_least { (arc_value low).1 ≤ (arc_value middle.now).1 }
    requires middle_most { (arc_value middle.now).1 ≤ (arc_value low).1 + 1 }
    requires high_is { (arc_value high.now).1 ≡ (arc_value low).1 + 1 }
    ensures pairs { IfOk result (λ t. (arc_value t).0 ≡ (arc_value low).0 ++ ((arc_value middle.now).0 ++ (arc_value high.now).0)) }
    ensures height { IfOk result (λ t. (arc_value t).1 ≡ (arc_value middle.now).1 + 2) }
{
    let low = Tree::fork(alloc, low, Arc::try_clone(middle)?)?;
    let whole = Tree::fork(alloc, low, Arc::try_clone(high)?)?;
    Ok(whole)
}

// The middle tree is the tallest by one: its halves go to either side.
fn parted<K: Copy, V: Drop>(
    alloc: Global,
    low: Arc<Tree<K, V>>,
    middle: &Tree<K, V>,
    high: Arc<Tree<K, V>>,
) -> Result<Arc<Tree<K, V>>, AllocError>
    requires low_near { middle.now.1 ≡ (arc_value low).1 + 1 }
    requires high_near { middle.now.1 ≡ (arc_value high).1 + 1 }
    ensures pairs { IfOk result (λ t. (arc_value t).0 ≡ ((arc_value low).0 ++ middle.now.0) ++ (arc_value high).0) }
    ensures height { IfOk result (λ t. (arc_value t).1 ≡ middle.now.1 + 1) }
{
    match &middle.body {
        Body::Leaf(_) => unreachable!(),
        Body::Fork(lower, _, higher) => paired(alloc, low, lower, higher, high),
    }
}

// Four trees in order, the outer ones as tall as the taller of the inner ones.
fn paired<K: Copy, V: Drop>(
    alloc: Global,
    first: Arc<Tree<K, V>>,
    second: &Arc<Tree<K, V>>,
    third: &Arc<Tree<K, V>>,
    fourth: Arc<Tree<K, V>>,
) -> Result<Arc<Tree<K, V>>, AllocError>
    requires first_is { (arc_value first).1 ≡ max (arc_value second.now).1 (arc_value third.now).1 }
    requires fourth_is { (arc_value fourth).1 ≡ (arc_value first).1 }
    requires second_near { (arc_value second.now).1 ≤ (arc_value third.now).1 + 1 }
    requires third_near { (arc_value third.now).1 ≤ (arc_value second.now).1 + 1 }
    ensures pairs { IfOk result (λ t. (arc_value t).0 ≡ ((arc_value first).0 ++ ((arc_value second.now).0 ++ (arc_value third.now).0)) ++ (arc_value fourth).0) }
    ensures height { IfOk result (λ t. (arc_value t).1 ≡ (arc_value first).1 + 2) }
{
    let low = Tree::fork(alloc, first, Arc::try_clone(second)?)?;
    let high = Tree::fork(alloc, Arc::try_clone(third)?, fourth)?;
    let whole = Tree::fork(alloc, low, high)?;
    Ok(whole)
}
