//! The endpoints by their last use.
ghost use Rattle.std.specs.Prelude.{◌≡◌, ◌≤◌, ◌-◌, ◌∷◌, ℕ, [], cond, filter, length, not, slice_get, take, IfOk, IsTrue, OnErr, OnOk};
ghost use Rattle.std.specs.Map.{keys_of};
ghost use Rattle.dg_base.specs.Same.{same_end};
ghost use Rattle.dg_base.specs.Order.{is_end_among};
ghost use Rattle.dg_cache.specs.Entries.{ends_once};
ghost use Rattle.dg_cache.specs.Layout.{ends_by_use, most_of};

use dg_base::Endpoint;
use lru::LruCache;
use std::alloc::{AllocError, Global};
use std::num::NonZeroUsize;

/// The endpoints by their last use. It takes no memory before the first one is put.
pub(crate) type Recency = Option<LruCache<Endpoint, ()>>;

pub(crate) fn len(recency: &Recency) -> usize
    ensures { result ≡ length (ends_by_use recency.now) }
{
    match recency {
        Some(order) => order.len(),
        None => 0,
    }
}

/// The endpoint that was used longest ago.
pub(crate) fn last(recency: &Recency) -> Option<Endpoint>
    ensures { result ≡ slice_get (ends_by_use recency.now) (length (ends_by_use recency.now) - 1) }
{
    match recency {
        Some(order) => match order.peek_lru() {
            Some((end, _)) => Some(*end),
            None => None,
        },
        None => None,
    }
}

/// Puts an endpoint to the front where it is there, and answers whether it is. It takes no memory.
pub(crate) fn touch(recency: &mut Recency, at: Endpoint) -> bool
    requires { IsTrue (ends_once (ends_by_use recency.old)) }
    ensures there { result ≡ is_end_among (ends_by_use recency.old) at }
    ensures ends { ends_by_use recency.new ≡ cond (is_end_among (ends_by_use recency.old) at) (at ∷ filter (λ e. not (same_end at e)) (ends_by_use recency.old)) (ends_by_use recency.old) }
    ensures most { (c : ℕ) → most_of c recency.new ≡ most_of c recency.old }
{
    match recency {
        Some(order) => order.promote(&at),
        None => false,
    }
}

/// Puts an endpoint to the front. Where it is new and there are as many as the capacity, the last one
/// goes. Where memory is refused, nothing changed.
pub(crate) fn put_front(
    recency: &mut Recency,
    alloc: Global,
    capacity: u32,
    at: Endpoint,
) -> Result<(), AllocError>
    requires some { 1 ≤ capacity }
    requires most { most_of capacity recency.old ≡ capacity }
    requires once { IsTrue (ends_once (ends_by_use recency.old)) }
    requires short { length (ends_by_use recency.old) ≤ capacity }
    ensures ok { OnOk result (ends_by_use recency.new ≡ take capacity (at ∷ filter (λ e. not (same_end at e)) (ends_by_use recency.old))) }
    ensures most { most_of capacity recency.new ≡ capacity }
    ensures err { OnErr result (recency.new ≡ recency.old) }
{
    match recency {
        Some(order) => put_in(order, at),
        None => {
            *recency = Some(of_one(alloc, capacity, at)?);
            Ok(())
        }
    }
}

fn put_in(order: &mut LruCache<Endpoint, ()>, at: Endpoint) -> Result<(), AllocError>
    requires some { 1 ≤ order.old.cap }
    requires once { IsTrue (ends_once (keys_of order.old.entries)) }
    requires short { length (keys_of order.old.entries) ≤ order.old.cap }
    ensures ok { OnOk result (keys_of order.new.entries ≡ take order.old.cap (at ∷ filter (λ e. not (same_end at e)) (keys_of order.old.entries))) }
    ensures most { order.new.cap ≡ order.old.cap }
    ensures err { OnErr result (order.new ≡ order.old) }
{
    match order.put(at, ()) {
        Ok(_) => Ok(()),
        Err(_) => Err(AllocError),
    }
}

fn of_one(alloc: Global, capacity: u32, at: Endpoint) -> Result<LruCache<Endpoint, ()>, AllocError>
    requires { 1 ≤ capacity }
    ensures ends { IfOk result (λ order. keys_of order.entries ≡ at ∷ []) }
    ensures most { IfOk result (λ order. order.cap ≡ capacity) }
{
    let most = NonZeroUsize::new(capacity as usize).unwrap();
    let mut order = LruCache::sparse(alloc, most)?;
    put_in(&mut order, at)?;
    Ok(order)
}

/// Leaves an endpoint out. It takes no memory.
pub(crate) fn leave_out(recency: &mut Recency, at: Endpoint)
    requires { IsTrue (ends_once (ends_by_use recency.old)) }
    ensures ends { ends_by_use recency.new ≡ filter (λ e. not (same_end at e)) (ends_by_use recency.old) }
    ensures most { (c : ℕ) → most_of c recency.new ≡ most_of c recency.old }
{
    if let Some(order) = recency {
        leave_out_in(order, at);
    }
}

fn leave_out_in(order: &mut LruCache<Endpoint, ()>, at: Endpoint)
    requires { IsTrue (ends_once (keys_of order.old.entries)) }
    ensures ends { keys_of order.new.entries ≡ filter (λ e. not (same_end at e)) (keys_of order.old.entries) }
    ensures most { order.new.cap ≡ order.old.cap }
{
    let _ = order.pop(&at);
}

/// Leaves some endpoints out, in constant time for each of these. It takes no memory.
pub(crate) fn leave_out_all(recency: &mut Recency, gone: &[Endpoint])
    requires { IsTrue (ends_once (ends_by_use recency.old)) }
    ensures ends { ends_by_use recency.new ≡ filter (λ e. not (is_end_among gone.now e)) (ends_by_use recency.old) }
    ensures most { (c : ℕ) → most_of c recency.new ≡ most_of c recency.old }
{
    for end in gone.iter() {
        leave_out(recency, *end);
    }
}

/// Leaves all endpoints out. It takes no memory.
pub(crate) fn clear(recency: &mut Recency)
    ensures ends { ends_by_use recency.new ≡ [] }
    ensures most { (c : ℕ) → most_of c recency.new ≡ most_of c recency.old }
{
    if let Some(order) = recency {
        order.clear();
    }
}
