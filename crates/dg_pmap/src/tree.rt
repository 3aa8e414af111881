//! A tree of chunks: each leaf holds a few pairs, each fork the lowest key of its upper half.
ghost use Rattle.std.specs.Prelude.{◌≡◌, ◌+◌, ◌^◌, ◌<◌, ◌≤◌, ◌++◌, List, length, max, Some, IfOk};
ghost use Rattle.std.specs.Arc.{arc_value};
ghost use Rattle.dg_pmap.specs.Heights.{fewest};
ghost use Rattle.dg_pmap.specs.Firsts.{first_key_of};

use crate::entries;
use crate::entries::CHUNK;
use crate::share::Share;
use std::alloc::{AllocError, Global};
use std::marker::Model;
use std::sync::Arc;

#[derive(Drop)]
#[cycle(tree)]
pub(crate) struct Tree<K, V> {
    pub(crate) size: usize,
    pub(crate) height: usize,
    pub(crate) body: Body<K, V>,
}

#[derive(Drop)]
#[cycle(tree)]
pub(crate) enum Body<K, V> {
    Leaf(Vec<(K, V)>),
    Fork(Arc<Tree<K, V>>, K, Arc<Tree<K, V>>),
}

impl<K, V> Model for Tree<K, V> {
    ghost use Rattle.std.specs.Prelude.{◌≡◌, ℕ, List, length};

    ghost Value = { List (K × V) × ℕ };

    ghost use Rattle.dg_pmap.specs.Shape.{pairs_in, IsShaped};

    ghost view = { λ t. (pairs_in t.body, t.height) };

    ghost invariant = { λ t. (t.size ≡ length (pairs_in t.body)) × IsShaped t.height t.body };

    ghost size = { λ v. v.1 };

    ghost use Rattle.std.proofs.Common.{arith};
    ghost use Rattle.dg_pmap.specs.Falls.{depth_le-height};

    ghost size_decreases = { λ a h. Prim.omega (arith, depth_le-height a.height a.body h.1) };
}

impl<K, V> Tree<K, V> {
    pub(crate) fn len(&self) -> usize
        ensures { result ≡ length self.now.0 }
    {
        self.size
    }

    pub(crate) fn height(&self) -> usize
        ensures height { result ≡ self.now.1 }
        ensures filled { fewest self.now.1 ≤ length self.now.0 }
        ensures small { result + 1 < 2 ^ 64 }
    {
        let _size = self.size;
        self.height
    }

    pub(crate) fn first_key(&self) -> &K
        ensures { first_key_of self.now.0 ≡ Some result.now }
    {
        match &self.body {
            Body::Leaf(entries) => &entries[0].0,
            Body::Fork(low, _, _) => low.first_key(),
        }
    }

    // A chunk as a tree.
    pub(crate) fn leaf(alloc: Global, entries: Vec<(K, V)>) -> Result<Arc<Tree<K, V>>, AllocError>
    where
        K: Drop,
        V: Drop,
        requires some { 0 < length entries.items }
        requires few { length entries.items ≤ CHUNK }
        ensures pairs { IfOk result (λ t. (arc_value t).0 ≡ entries.items) }
        ensures height { IfOk result (λ t. (arc_value t).1 ≡ 0) }
    {
        Ok(Arc::new(
            alloc,
            Tree {
                size: entries.len(),
                height: 0,
                body: Body::Leaf(entries),
            },
        )?)
    }

    // One tree of two of about one height.
    pub(crate) fn fork(
        alloc: Global,
        low: Arc<Tree<K, V>>,
        high: Arc<Tree<K, V>>,
    ) -> Result<Arc<Tree<K, V>>, AllocError>
    where
        K: Copy,
        V: Drop,
        requires low_near { (arc_value low).1 ≤ (arc_value high).1 + 1 }
        requires high_near { (arc_value high).1 ≤ (arc_value low).1 + 1 }
        ensures pairs { IfOk result (λ t. (arc_value t).0 ≡ (arc_value low).0 ++ (arc_value high).0) }
        ensures height { IfOk result (λ t. (arc_value t).1 ≡ max (arc_value low).1 (arc_value high).1 + 1) }
    {
        let Some(size) = low.len().checked_add(high.len()) else {
            return Err(AllocError);
        };
        let height = low.height().max(high.height()) + 1;
        let split = *high.first_key();
        Ok(Arc::new(
            alloc,
            Tree {
                size,
                height,
                body: Body::Fork(low, split, high),
            },
        )?)
    }
}

impl<K: Copy, V: Share> Clone for Tree<K, V> {
    ghost is_clone = { λ a b. b ≡ a };

    fn clone(&self) -> Result<Tree<K, V>, AllocError> {
        let body = match &self.body {
            Body::Leaf(entries) => Body::Leaf(entries::copy_of(entries)?),
            Body::Fork(low, split, high) => Body::Fork(
                Arc::try_clone(low)?,
                *split,
                Arc::try_clone(high)?,
            ),
        };
        Ok(Tree {
            size: self.size,
            height: self.height,
            body,
        })
    }
}
