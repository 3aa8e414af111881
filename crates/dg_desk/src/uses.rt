//! Callers: threads share a desk and its records.
use crate::{Desk, EventOf};
use dg_base::Schema;
use dg_line::{LineName, Mark, Revision, Shown};

fn is_shared<X: Send + Sync>(_shared: &X) {}

pub(crate) fn shares_events<M: Mark + Send + Sync>(events: &Vec<EventOf<M>>)
where
    M::Of: Send + Sync,
{
    is_shared(events);
}

pub(crate) fn shares_desk<M: Mark + Send + Sync>(desk: &Desk<M>)
where
    M::Of: Send + Sync,
{
    is_shared(desk);
}

pub(crate) fn shares_shared_desk<S: Schema + Send + Sync, J: LineName + Send + Sync>(
    desk: &Desk<Shown<Revision<S>, J>>,
) {
    shares_desk(desk);
}
