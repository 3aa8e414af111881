//! The arcs: under its number each, and three indexes of the numbers.
ghost use Rattle.std.specs.Prelude.{◌≡◌, [], false, length, not, IfOk, OnOk, OnErr};
ghost use Rattle.dg_base.specs.Changes.{is_arc, with_arc, without_arc};
ghost use Rattle.dg_arcs.specs.ArcLists.{arcs_alone, with_new_arc};

use dg_base::{ArcRec, Endpoint, Label, NodeId};
use dg_pmap::PMap;
use std::alloc::{AllocError, Global};
use std::marker::Model;

/// Arcs in the order in which they were connected, each once. Contracts see the list.
///
/// Each arc stands under a number that no arc before it had: the numbers rise by one with each arc, so
/// the order of the numbers is that of the list, also within an index. The numbers are those of 64
/// bits: an arc in each nanosecond of five centuries would use them up, and no run lasts as long. Where
/// the last one is given out, an arc more is refused as where there is no memory.
#[derive(Drop)]
pub struct Arcs {
    pub(crate) alloc: Global,
    next: u64,
    list: PMap<u64, ArcRec>,
    pub(crate) targets: PMap<((NodeId, Label), u64), Endpoint>,
    pub(crate) sources: PMap<(NodeId, u64), ArcRec>,
    places: PMap<ArcRec, u64>,
}

impl Model for Arcs {
    ghost use Rattle.std.specs.Prelude.{List};
    ghost use Rattle.std.specs.Map.{values_of};
    ghost use Rattle.dg_base.specs.declared.ids.ArcRec.{ArcRec as Arc};
    ghost use Rattle.dg_arcs.specs.Kept.{AreKept};

    ghost Value = { List Arc };

    ghost view = { λ s. values_of s.list };

    ghost invariant = { λ s. AreKept ⟦<ArcRec as Ord>⟧.cmp s.next s.list s.targets s.sources s.places };
}

impl Arcs {
    /// No arcs. It takes no memory.
    pub fn new(alloc: Global) -> Arcs
        ensures { result ≡ [] }
    {
        Arcs {
            alloc,
            next: 0,
            list: PMap::new(alloc),
            targets: PMap::new(alloc),
            sources: PMap::new(alloc),
            places: PMap::new(alloc),
        }
    }

    /// How many arcs there are, in constant time.
    pub fn len(&self) -> usize
        ensures { result ≡ length self.now }
    {
        self.list.len()
    }

    /// Whether there is such an arc. In time logarithmic in the arcs.
    pub fn has(&self, arc: ArcRec) -> bool
        ensures { result ≡ is_arc (arcs_alone self.now) arc }
    {
        self.places.contains_key(&arc)
    }

    /// Adds an arc as the last one, unless it is there, and says whether it is new. In time logarithmic
    /// in the arcs. Nothing is touched where the arc is there; where there is no memory, or no number
    /// is left, the arcs are as before.
    pub fn add(&mut self, arc: ArcRec) -> Result<bool, AllocError>
        ensures ok { OnOk result (self.new ≡ with_new_arc self.old arc) }
        ensures added { IfOk result (λ added. added ≡ not (is_arc (arcs_alone self.old) arc)) }
        ensures err { OnErr result (self.new ≡ self.old) }
    {
        if self.has(arc) {
            return Ok(false);
        }
        self.append(arc)?;
        Ok(true)
    }

    // The indexes are changed on shares, and taken in once nothing more can be refused.
    fn append(&mut self, arc: ArcRec) -> Result<(), AllocError>
        requires new { is_arc (arcs_alone self.old) arc ≡ false }
        ensures ok { OnOk result (self.new ≡ (with_arc (arcs_alone self.old) arc).arcs) }
        ensures err { OnErr result (self.new ≡ self.old) }
    {
        let number = self.next;
        let Some(next) = number.checked_add(1) else {
            return Err(AllocError);
        };
        let mut targets = self.targets.share()?;
        targets.insert(((arc.node, arc.input), number), arc.src)?;
        let mut sources = self.sources.share()?;
        sources.insert((arc.src.node, number), arc)?;
        let mut places = self.places.share()?;
        places.insert(arc, number)?;
        self.list.insert(number, arc)?;
        self.next = next;
        self.targets = targets;
        self.sources = sources;
        self.places = places;
        Ok(())
    }

    /// Removes an arc, and says whether it was there. In time logarithmic in the arcs. Nothing is
    /// touched where the arc isn't there; where there is no memory the arcs are as before.
    pub fn remove(&mut self, arc: ArcRec) -> Result<bool, AllocError>
        ensures ok { OnOk result (self.new ≡ (without_arc (arcs_alone self.old) arc).arcs) }
        ensures there { IfOk result (λ there. there ≡ is_arc (arcs_alone self.old) arc) }
        ensures err { OnErr result (self.new ≡ self.old) }
    {
        let Some(number) = self.places.get(&arc) else {
            return Ok(false);
        };
        let number = *number;
        let mut targets = self.targets.share()?;
        targets.remove(&((arc.node, arc.input), number))?;
        let mut sources = self.sources.share()?;
        sources.remove(&(arc.src.node, number))?;
        let mut places = self.places.share()?;
        places.remove(&arc)?;
        self.list.remove(&number)?;
        self.targets = targets;
        self.sources = sources;
        self.places = places;
        Ok(true)
    }

    /// Equal arcs that share all that these hold, in constant time. No change of the one shows in the
    /// other. It is refused where the count of shares is full.
    pub fn share(&self) -> Result<Arcs, AllocError>
        ensures { IfOk result (λ again. again ≡ self.now) }
    {
        Ok(Arcs {
            alloc: self.alloc,
            next: self.next,
            list: self.list.share()?,
            targets: self.targets.share()?,
            sources: self.sources.share()?,
            places: self.places.share()?,
        })
    }
}
