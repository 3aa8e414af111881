//! The step from one revision to the next.
ghost use Rattle.std.specs.Prelude.{◌≡◌, ◌+◌, ◌<◌, IfOk};
ghost use Rattle.dg_base.specs.declared.limits.TheConstants.{REVISIONS};
ghost use Rattle.dg_base.specs.Dirty.{dirty};
ghost use Rattle.dg_touch.specs.Laws.{RulesAgreeOutside};
ghost use Rattle.dg_line.specs.Revisions.{Seen, followed};
ghost use Rattle.dg_line.specs.Tickets.{Pin};
ghost use Rattle.dg_line.specs.Links.{IsLink};

use crate::{Line, Mark, Revision, Ticket};
use dg_base::{Endpoint, Schema};
use dg_view::Graph;
use std::alloc::{AllocError, Global};
use std::marker::Model;

/// The step from one revision to the next, and what is dirty by it: outside, rules, values and counters
/// are the same in both.
#[derive(Drop)]
pub struct Link<M: Mark> {
    from: Ticket<M>,
    to: Ticket<M>,
    dirty: Vec<Endpoint>,
}

impl<M: Mark> Model for Link<M> {
    ghost use Rattle.dg_line.specs.Links.{IsLink, Linked, linked_code};

    ghost Value = { Linked M.Of M };

    ghost coded = { linked_code M.Of.code M.code };

    ghost view = { λ k. record { from = k.from; to = k.to; dirty = k.dirty.items } };

    ghost invariant = { λ k. IsLink M.tables (M.seen k.from.revision) (M.seen k.to.revision) k.dirty.items };
}

impl<M: Mark> Link<M> {
    /// The step between two revisions.
    pub fn of(from: Ticket<M>, to: Ticket<M>, dirty: Vec<Endpoint>) -> Link<M>
        requires { IsLink M.tables (M.seen from.revision) (M.seen to.revision) dirty.items }
        ensures { result ≡ record { from = from; to = to; dirty = dirty.items } }
    {
        Link { from, to, dirty }
    }

    /// What a link says of its revisions, for proofs. It does nothing.
    pub fn is_link(&self)
        ensures { IsLink M.tables (M.seen self.now.from.revision) (M.seen self.now.to.revision) self.now.dirty }
    {
        let _ = &self.from;
    }

    /// Where the step begins.
    pub fn from(&self) -> &Ticket<M>
        ensures { result.now ≡ self.now.from }
    {
        &self.from
    }

    /// Where the step ends.
    pub fn to(&self) -> &Ticket<M>
        ensures { result.now ≡ self.now.to }
    {
        &self.to
    }

    /// What is dirty by the step, in endpoint order.
    pub fn dirty(&self) -> &[Endpoint]
        ensures { result.now ≡ self.now.dirty }
    {
        self.dirty.as_slice()
    }

    /// Where the step begins, where it ends, and what is dirty.
    pub fn parts(self) -> (Ticket<M>, Ticket<M>, Vec<Endpoint>)
        ensures from { result.0 ≡ self.from }
        ensures to { result.1 ≡ self.to }
        ensures dirty { result.2.items ≡ self.dirty }
        ensures link { IsLink M.tables (M.seen self.from.revision) (M.seen self.to.revision) self.dirty }
    {
        let Link { from, to, dirty } = self;
        (from, to, dirty)
    }
}

/// Adds the revision after another one to its line, with a graph that has the same rules outside of what
/// is touched, and gives the link between both.
pub fn follow<S: Schema, N: Line<Revision<S>>>(
    alloc: Global,
    line: &mut N,
    from: &Ticket<N::Mark>,
    graph: Graph<S>,
    next: u32,
    touched: &[Endpoint],
) -> Result<Link<N::Mark>, AllocError>
    requires tables { N.Mark.tables ≡ S.tables }
    requires seen { (r : Seen) → N.Mark.seen r ≡ r }
    requires room { from.now.revision.number + 1 < REVISIONS }
    requires agree { RulesAgreeOutside S.tables from.now.revision.graph graph touched.now }
    ensures stays { (t : Pin Seen N.Mark) → N.is_of line.old t → N.is_of line.new t }
    ensures of { IfOk result (λ l. N.is_of line.new l.to) }
    ensures from { IfOk result (λ l. l.from ≡ from.now) }
    ensures to { IfOk result (λ l. l.to.revision ≡ followed S.tables from.now.revision graph next touched.now) }
    ensures dirty { IfOk result (λ l. l.dirty ≡ dirty S.tables graph touched.now) }
{
    let dirty = graph.dirty(touched)?;
    graph.is_sound();
    let before = from.revision();
    before.graph().is_sound();
    let begin = from.share()?;
    let revision = before.after(alloc, graph, next, &dirty)?;
    let to = line.push(alloc, revision)?;
    Ok(Link::of(begin, to, dirty))
}
