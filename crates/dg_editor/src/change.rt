//! Changes that can be undone.
ghost use Rattle.std.specs.Prelude.{◌≡◌};
ghost use Rattle.dg_touch.specs.Laws.{RulesAgreeOutside};

use dg_base::{Endpoint, Ends, Schema};
use dg_view::Graph;
use std::marker::Model;

/// The graphs before and after a change, and what it touched: every endpoint whose rule differs between
/// them is among these.
#[derive(Drop)]
pub(crate) struct Change<S: Schema> {
    before: Graph<S>,
    after: Graph<S>,
    touched: Ends,
}

impl<S: Schema> Model for Change<S> {
    ghost use Rattle.dg_touch.specs.Laws.{RulesAgreeOutside};
    ghost use Rattle.dg_editor.specs.Changes.{Changed, changed_code};

    ghost Value = { Changed };

    ghost coded = { changed_code };

    ghost view = { λ c. record { before = c.before; after = c.after; touched = c.touched } };

    ghost invariant = { λ c. RulesAgreeOutside S.tables c.before c.after c.touched };
}

impl<S: Schema> Change<S> {
    pub(crate) fn of(before: Graph<S>, after: Graph<S>, touched: Ends) -> Change<S>
        requires { RulesAgreeOutside S.tables before after touched }
        ensures { result ≡ record { before = before; after = after; touched = touched } }
    {
        Change {
            before,
            after,
            touched,
        }
    }

    pub(crate) fn before(&self) -> &Graph<S>
        ensures { result.now ≡ self.now.before }
    {
        &self.before
    }

    pub(crate) fn after(&self) -> &Graph<S>
        ensures { result.now ≡ self.now.after }
    {
        &self.after
    }

    /// What it touched. Taken back, it touches the same.
    pub(crate) fn touched(&self) -> &[Endpoint]
        ensures touched { result.now ≡ self.now.touched }
        ensures done { RulesAgreeOutside S.tables self.now.before self.now.after self.now.touched }
        ensures undone { RulesAgreeOutside S.tables self.now.after self.now.before self.now.touched }
    {
        self.touched.as_slice()
    }
}
