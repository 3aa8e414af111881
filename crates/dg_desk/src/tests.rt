//! A desk beside a line of revisions of an empty graph, through rows of acts. The offers here used one known endpoint
//! and have no entries.
ghost use Rattle.std.specs.Prelude.{◌≡◌, IfOk, Some, slice_get};
ghost use Rattle.std.specs.List.{Contains};
ghost use Rattle.dg_line.specs.Revisions.{Seen};
ghost use Rattle.dg_line.specs.Tickets.{Pin};
ghost use Rattle.dg_desk.specs.Desks.{state_of};

use crate::{Desk, Followed, PublishEnd};
use dg_base::{Endpoint, Label, NodeId};
use dg_cache::{EvictEnd, Evicted};
use dg_kinds_go::GoKinds;
use dg_line::{Line, OwnLine, Revision, Ticket, Unmarked, follow};
use dg_offer::Offer;
use dg_view::Graph;
use std::alloc::{AllocError, Global};
use std::test::Fail;

type Plain = Unmarked<Revision<GoKinds>>;

/// A link from the desk's revision to a new one, a link from the first one, an offer of either, and the other acts.
#[derive(Clone, Copy)]
enum Row {
    Next,
    Jump,
    Offer,
    OfferFirst,
    Evict(u32),
    Settle,
    Pass(u32),
}

#[derive(Clone, Copy, Debug, PartialEq, Eq)]
enum Told {
    Followed(Followed),
    Put(Option<usize>, PublishEnd),
    Evicted(Evicted),
    Nothing,
}

/// What is done, what the desk answers (of a publication its place and end), its revision's index then, and how many records there are. A link that begins
/// elsewhere begins anew, and then no offer of before is known. Each revision gets the next index.
static ROWS: [(Row, Told, usize, usize); 13] = [
    (Row::Next, Told::Followed(Followed::Kept), 1, 1),
    (Row::OfferFirst, Told::Put(Some(1), PublishEnd::All), 1, 2),
    (Row::Pass(16), Told::Nothing, 1, 2),
    (Row::Next, Told::Followed(Followed::Kept), 2, 3),
    (Row::Offer, Told::Put(Some(3), PublishEnd::All), 2, 4),
    (
        Row::Jump,
        Told::Followed(Followed::Restarted { had: 2, wanted: 0 }),
        3,
        5,
    ),
    (
        Row::OfferFirst,
        Told::Put(Some(5), PublishEnd::Unknown { index: 0 }),
        3,
        6,
    ),
    (Row::Pass(0), Told::Nothing, 3, 6),
    (Row::Next, Told::Followed(Followed::Kept), 4, 7),
    (
        Row::Evict(9),
        Told::Evicted(Evicted {
            gone: 0,
            end: EvictEnd::All,
        }),
        4,
        8,
    ),
    (Row::Settle, Told::Nothing, 0, 9),
    (Row::OfferFirst, Told::Put(Some(9), PublishEnd::All), 0, 10),
    (Row::Jump, Told::Followed(Followed::Kept), 5, 11),
];

/// The pass of each record, and how many that pass had before.
static NUMBERS: [(u32, usize); 11] = [
    (0, 0),
    (0, 1),
    (16, 0),
    (16, 1),
    (16, 2),
    (16, 3),
    (0, 2),
    (0, 3),
    (0, 4),
    (0, 5),
    (0, 6),
];

// An offer that used the known answer of one endpoint.
fn asked(alloc: Global, ticket: &Ticket<Plain>) -> Result<Offer<Plain>, AllocError>
    ensures { IfOk result (λ o. o.ticket ≡ ticket.now) }
{
    let at = Endpoint {
        node: NodeId(1),
        label: Label(1),
    };
    let mut hits = Vec::new(alloc);
    hits.push(at)?;
    Ok(Offer::of(0, ticket.share()?, at, Vec::new(alloc), hits))
}

// A link from a revision to the same graph once more.
fn follow_from(
    alloc: Global,
    line: &mut OwnLine<Revision<GoKinds>>,
    from: &Ticket<Plain>,
    desk: &mut Desk<Plain>,
) -> Result<Told, AllocError>
    requires from { slice_get line.old from.now.index ≡ Some from.now.revision }
    requires desk { (p : Pin Seen (Unmarked Seen)) → Contains (state_of (λ (r : Seen). r) desk.old).list p → slice_get line.old p.index ≡ Some p.revision }
    ensures stays { (p : Pin Seen (Unmarked Seen)) → slice_get line.old p.index ≡ Some p.revision → slice_get line.new p.index ≡ Some p.revision }
    ensures desk { (p : Pin Seen (Unmarked Seen)) → Contains (state_of (λ (r : Seen). r) desk.new).list p → slice_get line.new p.index ≡ Some p.revision }
{
    if desk.spare() == 0 || from.revision().is_last() {
        return Ok(Told::Nothing);
    }
    let graph = from.revision().graph().share()?;
    let next = from.revision().next();
    let link = follow(alloc, line, from, graph, next, &[])?;
    Ok(Told::Followed(desk.follow(line, link)))
}

fn publish_at(
    alloc: Global,
    line: &OwnLine<Revision<GoKinds>>,
    ticket: &Ticket<Plain>,
    desk: &mut Desk<Plain>,
) -> Result<Told, AllocError>
    requires ticket { slice_get line.now ticket.now.index ≡ Some ticket.now.revision }
    requires desk { (p : Pin Seen (Unmarked Seen)) → Contains (state_of (λ (r : Seen). r) desk.old).list p → slice_get line.now p.index ≡ Some p.revision }
    ensures { (p : Pin Seen (Unmarked Seen)) → Contains (state_of (λ (r : Seen). r) desk.new).list p → slice_get line.now p.index ≡ Some p.revision }
{
    let offer = asked(alloc, ticket)?;
    let answer = desk.publish(line, offer);
    Ok(Told::Put(answer.place, answer.end))
}

fn settle_at(
    line: &OwnLine<Revision<GoKinds>>,
    ticket: &Ticket<Plain>,
    desk: &mut Desk<Plain>,
) -> Result<Told, AllocError>
    requires ticket { slice_get line.now ticket.now.index ≡ Some ticket.now.revision }
    requires desk { (p : Pin Seen (Unmarked Seen)) → Contains (state_of (λ (r : Seen). r) desk.old).list p → slice_get line.now p.index ≡ Some p.revision }
    ensures { (p : Pin Seen (Unmarked Seen)) → Contains (state_of (λ (r : Seen). r) desk.new).list p → slice_get line.now p.index ≡ Some p.revision }
{
    if desk.spare() > 0 {
        desk.settle(ticket.share()?);
    }
    Ok(Told::Nothing)
}

fn play(
    alloc: Global,
    line: &mut OwnLine<Revision<GoKinds>>,
    first: &Ticket<Plain>,
    desk: &mut Desk<Plain>,
    row: Row,
) -> Result<Told, AllocError>
    requires first { slice_get line.old first.now.index ≡ Some first.now.revision }
    requires desk { (p : Pin Seen (Unmarked Seen)) → Contains (state_of (λ (r : Seen). r) desk.old).list p → slice_get line.old p.index ≡ Some p.revision }
    ensures first { slice_get line.new first.now.index ≡ Some first.now.revision }
    ensures desk { (p : Pin Seen (Unmarked Seen)) → Contains (state_of (λ (r : Seen). r) desk.new).list p → slice_get line.new p.index ≡ Some p.revision }
{
    let now = desk.now().share()?;
    match row {
        Row::Next => follow_from(alloc, line, &now, desk),
        Row::Jump => follow_from(alloc, line, first, desk),
        Row::Offer => publish_at(alloc, line, &now, desk),
        Row::OfferFirst => publish_at(alloc, line, first, desk),
        Row::Settle => settle_at(line, first, desk),
        Row::Evict(most) => Ok(Told::Evicted(desk.evict(most))),
        Row::Pass(pass) => {
            desk.set_pass(pass % 17);
            Ok(Told::Nothing)
        }
    }
}

// The place of the first row after which something else is told than expected, if there is one.
fn first_other(
    alloc: Global,
    line: &mut OwnLine<Revision<GoKinds>>,
    first: &Ticket<Plain>,
    desk: &mut Desk<Plain>,
) -> Result<Option<usize>, AllocError>
    requires first { slice_get line.old first.now.index ≡ Some first.now.revision }
    requires desk { (p : Pin Seen (Unmarked Seen)) → Contains (state_of (λ (r : Seen). r) desk.old).list p → slice_get line.old p.index ≡ Some p.revision }
    ensures first { slice_get line.new first.now.index ≡ Some first.now.revision }
    ensures desk { (p : Pin Seen (Unmarked Seen)) → Contains (state_of (λ (r : Seen). r) desk.new).list p → slice_get line.new p.index ≡ Some p.revision }
{
    for place in 0..ROWS.len() {
        let (row, told, index, records) = ROWS[place];
        let answer = play(alloc, line, first, desk, row)?;
        if answer != told || desk.now().index() != index || desk.history().len() != records {
            return Ok(Some(place));
        }
    }
    Ok(None)
}

fn begun(alloc: Global, line: &mut OwnLine<Revision<GoKinds>>) -> Result<Ticket<Plain>, AllocError>
    ensures { IfOk result (λ t. slice_get line.new t.index ≡ Some t.revision) }
{
    let graph = Graph::<GoKinds>::new(alloc)?;
    line.push(alloc, Revision::<GoKinds>::first(alloc, graph, 1)?)
}

fn opened(
    alloc: Global,
    line: &OwnLine<Revision<GoKinds>>,
    first: &Ticket<Plain>,
) -> Result<Desk<Plain>, AllocError>
    requires { slice_get line.now first.now.index ≡ Some first.now.revision }
    ensures { IfOk result (λ d. (p : Pin Seen (Unmarked Seen)) → Contains (state_of (λ (r : Seen). r) d).list p → slice_get line.now p.index ≡ Some p.revision) }
{
    Desk::open(alloc, first.share()?, 1)
}

#[test]
fn goes_along_a_line(rt: HostRuntime) -> Result<(), Fail> {
    let alloc = rt.alloc();
    let mut line = OwnLine::<Revision<GoKinds>>::new(alloc);
    let first = begun(alloc, &mut line)?;
    let mut desk = opened(alloc, &line, &first)?;
    assert_eq!(rt; first_other(alloc, &mut line, &first, &mut desk)?, None);
    for (event, (pass, nth)) in desk.history().iter().zip(NUMBERS.iter()) {
        assert_eq!(rt; event.pass, *pass);
        assert_eq!(rt; event.nth, *nth);
    }
    assert_eq!(rt; desk.cache_len(), 0);
    assert!(rt; desk.snapshot(&line, &first)?.is_empty());
    Ok(())
}
