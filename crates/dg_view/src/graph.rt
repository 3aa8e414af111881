//! The graph as lists behind a counted pointer.
ghost use Rattle.std.specs.Prelude.{◌≡◌, IfOk};
ghost use Rattle.dg_base.specs.Graph.{empty};
ghost use Rattle.dg_base.specs.Sound.{IsSound};

use dg_base::Schema;
use dg_flat::Graph as Lists;
use std::alloc::{AllocError, Global};
use std::marker::Model;
use std::sync::Arc;

/// A project graph, sound at every moment.
#[derive(Drop)]
pub struct Graph<S: Schema> {
    pub(crate) lists: Arc<Lists<S>, Global>,
}

impl<S: Schema> Model for Graph<S> {
    ghost use Rattle.dg_base.specs.Graph.{Graph as Lists};
    ghost use Rattle.dg_flat.specs.Code.{graph_code};

    ghost Value = { Lists };

    ghost coded = { graph_code };

    ghost view = { λ s. s.lists.value };
}

impl<S: Schema> Graph<S> {
    /// A graph without nodes.
    pub fn new(alloc: Global) -> Result<Graph<S>, AllocError>
        ensures { IfOk result (λ g. g ≡ empty) }
    {
        let lists = Arc::new(alloc, Lists::new(alloc))?;
        Ok(Graph { lists })
    }

    /// That the graph is sound, for proofs. It does nothing.
    pub fn is_sound(&self)
        ensures { IsSound S.tables self.now }
    {
        self.lists.is_sound();
    }

    /// An equal graph, which shares all with this one. Neither changes through the other. In
    /// constant time.
    pub fn share(&self) -> Result<Graph<S>, AllocError>
        ensures graph { IfOk result (λ g. g ≡ self.now) }
        ensures sound { IsSound S.tables self.now }
    {
        self.is_sound();
        let lists = Arc::try_clone(&self.lists)?;
        Ok(Graph { lists })
    }
}
