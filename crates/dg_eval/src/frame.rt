//! Endpoints that are open: whose dependencies are being taken.
ghost use Rattle.std.specs.Prelude.{◌≡◌, length, slice_get, IfOk};
ghost use Rattle.dg_eval.specs.Frames.{opened};

use dg_answer::named_by;
use dg_base::{Endpoint, Ends, Helds, Rule, Schema};
use dg_view::Graph;
use std::alloc::{AllocError, Global};

/// An open endpoint: its rule, the endpoints that the rule names, and the values of the first of them.
#[derive(Debug, Drop)]
pub struct Frame {
    pub at: Endpoint,
    pub rule: Rule,
    pub needs: Ends,
    pub answers: Helds,
}

impl Frame {
    /// An endpoint that is just opened.
    pub(crate) fn open<S: Schema>(
        alloc: Global,
        graph: &Graph<S>,
        at: Endpoint,
    ) -> Result<Frame, AllocError>
        ensures { IfOk result (λ f. f ≡ opened S.tables graph.now at) }
    {
        let rule = graph.rule(at)?;
        let needs = Ends::from_vec(named_by(alloc, &rule)?);
        Ok(Frame {
            at,
            rule,
            needs,
            answers: Helds::new(alloc),
        })
    }

    /// The next endpoint whose value it needs.
    pub(crate) fn next(&self) -> Option<Endpoint>
        ensures { result ≡ slice_get self.now.needs (length self.now.answers) }
    {
        match self.needs.get(self.answers.len()) {
            Some(end) => Some(*end),
            None => None,
        }
    }
}
