//! Callers of each kind: one that writes a line, generic over the schema and the line; one that follows
//! links, generic over the mark alone; and a room that threads share.
ghost use Rattle.std.specs.Prelude.{◌≡◌, ◌+◌, ◌<◌, ℕ, true, IfOk, Some, slice_get};
ghost use Rattle.dg_base.specs.declared.limits.TheConstants.{REVISIONS};
ghost use Rattle.dg_base.specs.Value.{value_at};
ghost use Rattle.dg_touch.specs.Laws.{RulesAgreeOutside};
ghost use Rattle.dg_line.specs.Revisions.{Seen, counter_at, first_revision, followed};
ghost use Rattle.dg_line.specs.Links.{IsLink};
ghost use Rattle.dg_line.specs.Tickets.{Pin};

use crate::{
    Line, LineName, Link, Mark, OwnLine, Revision, Rows, SharedLine, Shown, Ticket, Unmarked,
    follow,
};
use dg_base::{Endpoint, Schema};
use dg_kinds_go::GoKinds;
use dg_view::Graph;
use std::alloc::{AllocError, Global};
use std::marker::Brand;
use std::sync::{Mutex, Wait};

// ---- one that writes

pub(crate) fn begin<S: Schema, N: Line<Revision<S>>>(
    alloc: Global,
    line: &mut N,
    graph: Graph<S>,
    next: u32,
) -> Result<Ticket<N::Mark>, AllocError>
    ensures of { IfOk result (λ t. N.is_of line.new t) }
    ensures held { IfOk result (λ t. t.revision ≡ first_revision graph next) }
{
    let first = Revision::first(alloc, graph, next)?;
    line.push(alloc, first)
}

// The same graph once more, with some endpoints touched; none where the line is full.
pub(crate) fn touch<S: Schema, N: Line<Revision<S>>>(
    alloc: Global,
    line: &mut N,
    here: &mut Ticket<N::Mark>,
    touched: &[Endpoint],
) -> Result<Option<Link<N::Mark>>, AllocError>
    requires tables { N.Mark.tables ≡ S.tables }
    requires seen { (r : Seen) → N.Mark.seen r ≡ r }
    requires here { N.is_of line.old here.old }
    ensures here { N.is_of line.new here.new }
{
    if here.revision().is_last() {
        return Ok(None);
    }
    let graph = here.revision().graph().share()?;
    let next = here.revision().next();
    let link = follow(alloc, line, here, graph, next, touched)?;
    *here = link.to().share()?;
    Ok(Some(link))
}

pub(crate) fn touch_own<S: Schema>(
    alloc: Global,
    line: &mut OwnLine<Revision<S>>,
    here: &mut Ticket<Unmarked<Revision<S>>>,
    touched: &[Endpoint],
) -> Result<Option<Link<Unmarked<Revision<S>>>>, AllocError>
    requires here { slice_get line.old here.old.index ≡ Some here.old.revision }
    ensures here { slice_get line.new here.new.index ≡ Some here.new.revision }
{
    touch::<S, OwnLine<Revision<S>>>(alloc, line, here, touched)
}

// Two shares of one line, and a change by each: how often an endpoint was dirty, and the index.
pub(crate) fn counts_shared<J: LineName, R: Wait + Drop + Copy>(
    rt: R,
    alloc: Global,
    rows: Rows<Revision<GoKinds>>,
    at: Endpoint,
) -> Result<(u32, usize), AllocError>
    requires { rows ≡ J.shelves }
{
    let mut line = SharedLine::<Revision<GoKinds>, J, R>::open(rt, rows);
    let mut other = line.share()?;
    let graph = Graph::<GoKinds>::new(alloc)?;
    let mut here = begin::<GoKinds, SharedLine<Revision<GoKinds>, J, R>>(
        alloc, &mut line, graph, 1,
    )?;
    let _ = touch_shared::<GoKinds, J, R>(alloc, &mut line, &mut here, &[at])?;
    let _ = touch_shared::<GoKinds, J, R>(alloc, &mut other, &mut here, &[at])?;
    Ok((here.revision().counters().get(at), here.index()))
}

pub(crate) fn counts_alone<R: Wait + Drop + Copy>(
    rt: R,
    alloc: Global,
    at: Endpoint,
) -> Result<(u32, usize), AllocError> {
    let rows = Rows::new(alloc)?;
    counts_shared::<Brand, R>(rt, alloc, rows, at)
}

pub(crate) fn touch_shared<S: Schema, J: LineName, R: Wait + Drop>(
    alloc: Global,
    line: &mut SharedLine<Revision<S>, J, R>,
    here: &mut Ticket<Shown<Revision<S>, J>>,
    touched: &[Endpoint],
) -> Result<Option<Link<Shown<Revision<S>, J>>>, AllocError> {
    touch::<S, SharedLine<Revision<S>, J, R>>(alloc, line, here, touched)
}

// ---- one that follows

#[derive(Drop)]
pub(crate) struct Reader<M: Mark> {
    here: Ticket<M>,
}

impl<M: Mark> Reader<M> {
    pub(crate) fn new(here: Ticket<M>) -> Reader<M>
        ensures { result.here ≡ here }
    {
        Reader { here }
    }
}

impl<T: Drop, M: Mark<Of = T>> Reader<M> {
    // Follows a link that begins here, and answers whether an endpoint kept its counter, and so its value.
    pub(crate) fn follow<N: Line<T, Mark = M>>(
        &mut self,
        line: &N,
        link: Link<M>,
        at: Endpoint,
    ) -> bool
        requires here { N.is_of line.now self.old.here }
        requires from { N.is_of line.now link.from }
        requires index { self.old.here.index ≡ link.from.index }
        ensures here { self.new.here ≡ link.to }
        ensures link { IsLink M.tables (M.seen self.old.here.revision) (M.seen self.new.here.revision) link.dirty }
        ensures kept { result ≡ true → counter_at (M.seen self.new.here.revision) at ≡ counter_at (M.seen self.old.here.revision) at }
    {
        line.agrees(&self.here, link.from());
        link.is_link();
        let before = M::counter(self.here.revision(), at);
        let (_from, to, _dirty) = link.parts();
        self.here = to;
        before == M::counter(self.here.revision(), at)
    }
}

pub(crate) fn follow_schema<S: Schema, M: Mark<Of = Revision<S>>, N: Line<Revision<S>, Mark = M>>(
    reader: &mut Reader<M>,
    line: &N,
    link: Link<M>,
    at: Endpoint,
) -> bool
    requires tables { M.tables ≡ S.tables }
    requires seen { (r : Seen) → M.seen r ≡ r }
    requires here { N.is_of line.now reader.old.here }
    requires from { N.is_of line.now link.from }
    requires index { reader.old.here.index ≡ link.from.index }
    ensures link { IsLink S.tables reader.old.here.revision reader.new.here.revision link.dirty }
{
    reader.follow(line, link, at)
}

pub(crate) fn follow_own<S: Schema>(
    reader: &mut Reader<Unmarked<Revision<S>>>,
    line: &OwnLine<Revision<S>>,
    link: Link<Unmarked<Revision<S>>>,
    at: Endpoint,
) -> bool
    requires here { slice_get line.now reader.old.here.index ≡ Some reader.old.here.revision }
    requires from { slice_get line.now link.from.index ≡ Some link.from.revision }
    requires index { reader.old.here.index ≡ link.from.index }
    ensures link { IsLink S.tables reader.old.here.revision reader.new.here.revision link.dirty }
{
    follow_schema::<S, Unmarked<Revision<S>>, OwnLine<Revision<S>>>(reader, line, link, at)
}

pub(crate) fn follow_shared<S: Schema, J: LineName, R: Wait + Drop>(
    reader: &mut Reader<Shown<Revision<S>, J>>,
    line: &SharedLine<Revision<S>, J, R>,
    link: Link<Shown<Revision<S>, J>>,
    at: Endpoint,
) -> bool
    requires { reader.old.here.index ≡ link.from.index }
    ensures { IsLink S.tables reader.old.here.revision reader.new.here.revision link.dirty }
{
    follow_schema::<S, Shown<Revision<S>, J>, SharedLine<Revision<S>, J, R>>(reader, line, link, at)
}

// ---- one that threads share

pub(crate) struct Room<D, N> {
    desk: Mutex<D>,
    line: N,
}

impl<S: Schema> Room<Reader<Unmarked<Revision<S>>>, OwnLine<Revision<S>>> {
    pub(crate) fn index<W: Wait>(&self, rt: &W) -> usize {
        let desk = self.desk.lock(rt);
        desk.here.index()
    }
}

fn is_shared<X: Send + Sync>(_shared: &X) {}

pub(crate) fn shares_room<S: Schema + Send + Sync>(
    room: &Room<Reader<Unmarked<Revision<S>>>, OwnLine<Revision<S>>>,
) {
    is_shared(room);
}

pub(crate) fn shares_link<M: Mark + Send + Sync>(link: &Link<M>)
where
    M::Of: Send + Sync,
{
    is_shared(link);
}

pub(crate) fn shares_own_link<S: Schema + Send + Sync>(link: &Link<Unmarked<Revision<S>>>) {
    is_shared(link);
}

pub(crate) fn shares_shared_line<
    S: Schema + Send + Sync,
    J: LineName + Send + Sync,
    R: Wait + Drop + Send + Sync,
>(line: &SharedLine<Revision<S>, J, R>, link: &Link<Shown<Revision<S>, J>>) {
    is_shared(line);
    is_shared(link);
}

impl<S: Schema, J: LineName, R: Wait + Drop> Room<
    Reader<Shown<Revision<S>, J>>,
    SharedLine<Revision<S>, J, R>,
> {
    pub(crate) fn shared_index<W: Wait>(&self, rt: &W) -> usize {
        let desk = self.desk.lock(rt);
        desk.here.index()
    }
}

pub(crate) fn shares_shared_room<
    S: Schema + Send + Sync,
    J: LineName + Send + Sync,
    R: Wait + Drop + Send + Sync,
>(room: &Room<Reader<Shown<Revision<S>, J>>, SharedLine<Revision<S>, J, R>>) {
    is_shared(room);
}
