//! Callers: threads share offers.
use crate::Offer;
use dg_base::Schema;
use dg_kinds_go::GoKinds;
use dg_line::{LineName, Mark, Revision, Shown, Unmarked};
use std::alloc::{AllocError, Global};

fn is_shared<X: Send + Sync>(_shared: &X) {}

pub(crate) fn shares_offer<M: Mark + Send + Sync>(offer: &Offer<M>)
where
    M::Of: Send + Sync,
{
    is_shared(offer);
}

pub(crate) fn shares_own_offer<S: Schema + Send + Sync>(offer: &Offer<Unmarked<Revision<S>>>) {
    shares_offer(offer);
}

pub(crate) fn shares_shared_offer<S: Schema + Send + Sync, J: LineName + Send + Sync>(
    offer: &Offer<Shown<Revision<S>, J>>,
) {
    shares_offer(offer);
}

pub(crate) fn copies_go(
    alloc: Global,
    offer: &Offer<Unmarked<Revision<GoKinds>>>,
) -> Result<Offer<Unmarked<Revision<GoKinds>>>, AllocError> {
    offer.copy(alloc)
}
