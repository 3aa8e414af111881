//! The editor.
ghost use Rattle.std.specs.Prelude.{◌≡◌, ◌∷◌, All, IfOk, OnErr};
ghost use Rattle.dg_base.specs.Graph.{empty};
ghost use Rattle.dg_base.specs.Refusal.{Gives};
ghost use Rattle.dg_base.specs.Transact.{applied};
ghost use Rattle.dg_line.specs.Revisions.{Seen};
ghost use Rattle.dg_line.specs.Tickets.{Pin};
ghost use Rattle.dg_touch.specs.Laws.{RulesAgreeOutside};
ghost use Rattle.dg_editor.specs.Changes.{touched_first};
ghost use Rattle.dg_editor.specs.Machine.{edited, made_by, opened, redo_of, touched_by, undo_of};
ghost use Rattle.dg_editor.specs.Fits.{IsRight};
ghost use Rattle.dg_editor.specs.Seeing.{IsUnchanged, state_of};
ghost use Rattle.dg_editor.specs.Laws.{RedoGivesBack, UndoGivesBack};

use crate::EditCause;
use crate::advance::{add_revision, applied_to, go_to};
use crate::change::Change;
use dg_base::{NodeId, Refusal, RefusedStep, Schema, Step};
use dg_history::Stacks;
use dg_line::{Line, Link, Mark, Revision, Ticket};
use dg_tx::{Applied, apply};
use dg_view::Graph;
use sqlite_items::Items;
use std::alloc::Global;
use std::marker::Model;

/// The revisions of a project graph on a line, and what can be undone and done again.
#[derive(Drop)]
pub struct Editor<S: Schema, N: Line<Revision<S>> + Drop> {
    alloc: Global,
    line: N,
    here: Ticket<N::Mark>,
    passed: Vec<Ticket<N::Mark>>,
    stacks: Stacks<Change<S>>,
}

/// What an edit gives: the step to the new revision, and the nodes that its steps made, one for each
/// step that makes one.
#[derive(Drop)]
pub struct Commit<M: Mark> {
    pub link: Link<M>,
    pub made: Items<NodeId>,
}

impl<S: Schema, N: Line<Revision<S>> + Drop> Model for Editor<S, N> {
    ghost use Rattle.std.specs.Prelude.{◌≡◌, All, reverse};
    ghost use Rattle.dg_line.specs.Revisions.{Seen};
    ghost use Rattle.dg_editor.specs.Seeing.{Editing, editing_code, state_of};
    ghost use Rattle.dg_editor.specs.Fits.{IsRight};

    ghost Value = { Editing N N.Mark };

    ghost coded = { editing_code N.code N.Mark.code };

    ghost view = { λ e. record { line = e.line; here = e.here; passed = reverse e.passed.items; history = e.stacks } };

    ghost invariant = { λ e. (N.Mark.tables ≡ S.tables) × ((r : Seen) → N.Mark.seen r ≡ r) × N.is_of e.line e.here × All (N.is_of e.line) e.passed.items
        × IsRight S.tables (state_of (record { line = e.line; here = e.here; passed = reverse e.passed.items; history = e.stacks })) };
}

impl<S: Schema, N: Line<Revision<S>> + Drop> Editor<S, N> {
    /// An editor whose first revision has the graph of these steps, and the nodes that they made.
    pub fn open(
        alloc: Global,
        line: N,
        steps: &[Step],
    ) -> Result<(Editor<S, N>, Items<NodeId>), Refusal<RefusedStep>>
        requires tables { N.Mark.tables ≡ S.tables }
        requires seen { (r : Seen) → N.Mark.seen r ≡ r }
        ensures opened { Gives (λ r. state_of r.0) result (opened S.tables steps.now) }
        ensures made { IfOk result (λ r. made_by (applied S.tables empty 1 steps.now) ≡ r.1) }
    {
        let graph = Graph::new(alloc)?;
        let Applied {
            graph,
            next,
            made,
            touched: _,
        } = apply(alloc, &graph, 1, steps)?;
        graph.is_sound();
        let first = Revision::first(alloc, graph, next)?;
        let mut line = line;
        let here = line.push(alloc, first)?;
        let editor = Editor {
            alloc,
            line,
            here,
            passed: Vec::new(alloc),
            stacks: Stacks::new(alloc),
        };
        Ok((editor, made))
    }

    /// The ticket of the current revision.
    pub fn ticket(&self) -> &Ticket<N::Mark>
        ensures { result.now ≡ self.now.here }
    {
        &self.here
    }

    /// The line that holds the revisions.
    pub fn line(&self) -> &N
        ensures { result.now ≡ self.now.line }
    {
        &self.line
    }

    /// What holds of an editor at every moment, for proofs. It does nothing.
    pub fn is_editor(&self)
        ensures tables { N.Mark.tables ≡ S.tables }
        ensures seen { (r : Seen) → N.Mark.seen r ≡ r }
        ensures here { N.is_of self.now.line self.now.here }
        ensures passed { All (N.is_of self.now.line) self.now.passed }
        ensures right { IsRight S.tables (state_of self.now) }
    {
        let _ = &self.here;
    }

    /// Does the steps, all of them, or none where one is refused. What was undone can't be done again
    /// afterwards. Beside the steps it costs what dirty endpoints cost, and a copy of the counters.
    pub fn transact(&mut self, steps: &[Step]) -> Result<Commit<N::Mark>, Refusal<EditCause>>
        ensures edited { Gives (λ c. state_of self.new) result (edited S.tables (state_of self.old) steps.now) }
        ensures from { IfOk result (λ c. c.link.from ≡ self.old.here) }
        ensures to { IfOk result (λ c. c.link.to ≡ self.new.here) }
        ensures made { IfOk result (λ c. made_by (applied S.tables self.old.here.revision.graph self.old.here.revision.next steps.now) ≡ c.made) }
        ensures changes { IfOk result (λ c. RulesAgreeOutside S.tables self.old.here.revision.graph self.new.here.revision.graph (touched_by (applied S.tables self.old.here.revision.graph self.old.here.revision.next steps.now))) }
        ensures refused { OnErr result (IsUnchanged self.old self.new) }
        ensures stays { (t : Pin Seen N.Mark) → N.is_of self.old.line t → N.is_of self.new.line t }
    {
        if steps.is_empty() {
            return Err(Refusal::Because(EditCause::Empty));
        }
        let here = self.here.revision();
        if here.is_last() {
            return Err(Refusal::Because(EditCause::LineFull));
        }
        let Applied {
            graph,
            next,
            made,
            touched,
        } = applied_to(self.alloc, here, steps)?;
        let change = Change::of(here.graph().share()?, graph.share()?, touched);
        let (link, to) = add_revision(
            self.alloc,
            &mut self.line,
            &self.here,
            &mut self.passed,
            graph,
            next,
            change.touched(),
        )?;
        self.stacks.record(change)?;
        go_to(&mut self.here, &mut self.passed, to);
        Ok(Commit { link, made })
    }

    /// Goes back to the graph before the latest change that isn't undone. No step is taken back one by
    /// one: the graph was kept.
    pub fn undo(&mut self) -> Result<Link<N::Mark>, Refusal<EditCause>>
        ensures undone { Gives (λ l. state_of self.new) result (undo_of S.tables (state_of self.old)) }
        ensures from { IfOk result (λ l. l.from ≡ self.old.here) }
        ensures to { IfOk result (λ l. l.to ≡ self.new.here) }
        ensures changes { IfOk result (λ l. RulesAgreeOutside S.tables self.old.here.revision.graph self.new.here.revision.graph (touched_first self.old.history.undo)) }
        ensures back { IfOk result (λ l. RedoGivesBack S.tables (state_of self.new) self.old.here.revision) }
        ensures refused { OnErr result (IsUnchanged self.old self.new) }
        ensures stays { (t : Pin Seen N.Mark) → N.is_of self.old.line t → N.is_of self.new.line t }
    {
        let Some(change) = self.stacks.peek_undo() else {
            return Err(Refusal::Because(EditCause::NothingToUndo));
        };
        let here = self.here.revision();
        if here.is_last() {
            return Err(Refusal::Because(EditCause::LineFull));
        }
        let graph = change.before().share()?;
        let (link, to) = add_revision(
            self.alloc,
            &mut self.line,
            &self.here,
            &mut self.passed,
            graph,
            here.next(),
            change.touched(),
        )?;
        self.stacks.undo();
        go_to(&mut self.here, &mut self.passed, to);
        Ok(link)
    }

    /// Goes on to the graph after the change that was undone last, with the ids that it had.
    pub fn redo(&mut self) -> Result<Link<N::Mark>, Refusal<EditCause>>
        ensures redone { Gives (λ l. state_of self.new) result (redo_of S.tables (state_of self.old)) }
        ensures from { IfOk result (λ l. l.from ≡ self.old.here) }
        ensures to { IfOk result (λ l. l.to ≡ self.new.here) }
        ensures changes { IfOk result (λ l. RulesAgreeOutside S.tables self.old.here.revision.graph self.new.here.revision.graph (touched_first self.old.history.redo)) }
        ensures back { IfOk result (λ l. UndoGivesBack S.tables (state_of self.new) self.old.here.revision) }
        ensures refused { OnErr result (IsUnchanged self.old self.new) }
        ensures stays { (t : Pin Seen N.Mark) → N.is_of self.old.line t → N.is_of self.new.line t }
    {
        let Some(change) = self.stacks.peek_redo() else {
            return Err(Refusal::Because(EditCause::NothingToRedo));
        };
        let here = self.here.revision();
        if here.is_last() {
            return Err(Refusal::Because(EditCause::LineFull));
        }
        let graph = change.after().share()?;
        let (link, to) = add_revision(
            self.alloc,
            &mut self.line,
            &self.here,
            &mut self.passed,
            graph,
            here.next(),
            change.touched(),
        )?;
        self.stacks.redo();
        go_to(&mut self.here, &mut self.passed, to);
        Ok(link)
    }
}
