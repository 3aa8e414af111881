//! What a load has made so far: its steps, the names that it interned and those that it binds, and the bad places that
//! it found.
ghost use Rattle.std.specs.Prelude.{◌≡◌, ◌++◌, ◌∷◌, [], IfOk, OnOk};
ghost use Rattle.dg_base.specs.declared.datum.Datum.TheVariants as datum;
ghost use Rattle.dg_base.specs.declared.step.NodeRef.TheVariants as ref_;
ghost use Rattle.dg_base.specs.declared.step.Step.TheVariants as step_;
ghost use Rattle.dg_load.specs.Draft.{started, stepped, making, made, overridden, bound, set, set_text, set_vector, set_rotation, placed, connected, marked, noted, refused, file_made};

use dg_base::{Datum, Kind, Label, Names, NodeRef, Step, Str, V3, V4};
use dg_labels::labels;
use dg_sources::{BadCode, BadPlace, BadPlaces, Reads, Unread};
use std::alloc::{AllocError, Global};

/// A name, and the node that it is bound to: that of the k-th making step, counted from 0.
#[derive(Debug, Drop)]
pub struct Bound {
    pub name: Str,
    pub node: u32,
}

/// What a load has made so far. `makes` counts its making steps; a node that it makes has the count before as its number.
#[derive(Drop)]
pub struct Draft {
    pub names: Names,
    pub makes: u32,
    pub steps: Reads<Step>,
    pub bound: Reads<Bound>,
    pub bad: BadPlaces,
}

/// Where a node stands, as far as its file says it.
#[derive(Clone, Copy, PartialEq, Eq, Debug)]
pub struct Place {
    pub position: Option<V3>,
    pub rotation: Option<V4>,
    pub scale3: Option<V3>,
}

/// A text of its own.
pub(crate) fn text(alloc: Global, words: &str) -> Result<Str, AllocError>
    ensures { IfOk result (λ text. text ≡ words.now) }
{
    Ok(Str::of(String::from_str(alloc, words)?))
}

/// Two texts, one behind the other.
pub(crate) fn joined(alloc: Global, before: &str, behind: &str) -> Result<Str, AllocError>
    ensures { IfOk result (λ text. text ≡ before.now ++ behind.now) }
{
    let mut whole = String::from_str(alloc, before)?;
    whole.push_str(behind)?;
    Ok(Str::of(whole))
}

impl Draft {
    /// Nothing yet, but for these names.
    pub(crate) fn new(alloc: Global, names: Names) -> Draft
        ensures { result ≡ started names }
    {
        Draft {
            names,
            makes: 0,
            steps: Reads::new(alloc),
            bound: Reads::new(alloc),
            bad: BadPlaces::new(alloc),
        }
    }

    /// One more step, that makes no node.
    pub(crate) fn step(&mut self, step: Step) -> Result<(), AllocError>
        ensures { OnOk result (self.new ≡ stepped step self.old) }
    {
        self.steps.push(step)
    }

    // One more step, that makes a node. A number of nodes above `u32::MAX` is answered as want of memory.
    fn making(&mut self, step: Step) -> Result<u32, AllocError>
        ensures made { OnOk result (self.new ≡ making step self.old) }
        ensures node { IfOk result (λ k. k ≡ self.old.makes) }
    {
        let node = self.makes;
        let Some(makes) = node.checked_add(1) else {
            return Err(AllocError);
        };
        self.steps.push(step)?;
        self.makes = makes;
        Ok(node)
    }

    /// A node of this kind. Its number is answered.
    pub(crate) fn make(&mut self, kind: Kind) -> Result<u32, AllocError>
        ensures made { OnOk result (self.new ≡ made kind self.old) }
        ensures node { IfOk result (λ k. k ≡ self.old.makes) }
    {
        self.making(Step::Make { kind })
    }

    /// An override of a node. The number of its root is answered.
    pub(crate) fn make_override(&mut self, root: u32) -> Result<u32, AllocError>
        ensures made { OnOk result (self.new ≡ overridden root self.old) }
        ensures node { IfOk result (λ k. k ≡ self.old.makes) }
    {
        self.making(Step::Override {
            root: NodeRef::New(root),
        })
    }

    /// Binds a name to a node.
    pub(crate) fn bind(&mut self, name: Str, node: u32) -> Result<(), AllocError>
        ensures { OnOk result (self.new ≡ bound name node self.old) }
    {
        self.bound.push(Bound { name, node })
    }

    /// Sets a property of a node.
    pub(crate) fn set(&mut self, node: u32, label: Label, value: Datum) -> Result<(), AllocError>
        ensures { OnOk result (self.new ≡ set node label value self.old) }
    {
        self.step(Step::Set {
            node: NodeRef::New(node),
            label,
            value,
        })
    }

    pub(crate) fn set_text(
        &mut self,
        alloc: Global,
        node: u32,
        label: Label,
        words: &str,
    ) -> Result<(), AllocError>
        ensures { OnOk result (self.new ≡ set_text node label words.now self.old) }
    {
        let value = Datum::Text(text(alloc, words)?);
        self.set(node, label, value)
    }

    fn set_vector(&mut self, node: u32, label: Label, vector: Option<V3>) -> Result<(), AllocError>
        ensures { OnOk result (self.new ≡ set_vector node label vector self.old) }
    {
        match vector {
            None => Ok(()),
            Some(vector) => self.set(node, label, Datum::Vec3(vector)),
        }
    }

    fn set_rotation(&mut self, node: u32, rotation: Option<V4>) -> Result<(), AllocError>
        ensures { OnOk result (self.new ≡ set_rotation node rotation self.old) }
    {
        match rotation {
            None => Ok(()),
            Some(rotation) => self.set(node, labels::ROTATION, Datum::Quat(rotation)),
        }
    }

    /// Sets what a file says of where a node stands.
    pub(crate) fn set_place(&mut self, node: u32, place: Place) -> Result<(), AllocError>
        ensures { OnOk result (self.new ≡ placed node place self.old) }
    {
        self.set_vector(node, labels::POSITION, place.position)?;
        self.set_rotation(node, place.rotation)?;
        self.set_vector(node, labels::SCALE3, place.scale3)
    }

    /// Connects an output of a node to an input of another.
    pub(crate) fn connect(
        &mut self,
        from: u32,
        output: Label,
        to: u32,
        input: Label,
    ) -> Result<(), AllocError>
        ensures { OnOk result (self.new ≡ connected from output to input self.old) }
    {
        self.step(Step::Connect {
            src: NodeRef::New(from),
            label: output,
            node: NodeRef::New(to),
            input,
        })
    }

    /// Marks a node as defective.
    pub(crate) fn mark(&mut self, node: u32) -> Result<(), AllocError>
        ensures { OnOk result (self.new ≡ marked node self.old) }
    {
        self.step(Step::Mark {
            node: NodeRef::New(node),
            defective: true,
        })
    }

    /// Notes a bad place.
    pub(crate) fn note(
        &mut self,
        alloc: Global,
        path: &str,
        line: u32,
        code: BadCode,
    ) -> Result<(), AllocError>
        ensures { OnOk result (self.new ≡ noted path.now line code self.old) }
    {
        let path = text(alloc, path)?;
        self.bad.push(BadPlace { path, line, code })
    }

    /// Marks the node of a file that can't be read, and notes why.
    pub(crate) fn refuse(
        &mut self,
        alloc: Global,
        node: u32,
        path: &str,
        why: Unread,
    ) -> Result<(), AllocError>
        ensures { OnOk result (self.new ≡ refused node path.now why self.old) }
    {
        self.mark(node)?;
        self.note(alloc, path, why.line, why.code)
    }

    /// The node of a file: it is bound to the file's path, which is set.
    pub(crate) fn make_file(
        &mut self,
        alloc: Global,
        kind: Kind,
        path: &str,
    ) -> Result<u32, AllocError>
        ensures made { OnOk result (self.new ≡ file_made kind path.now self.old) }
        ensures node { IfOk result (λ k. k ≡ self.old.makes) }
    {
        let node = self.make(kind)?;
        self.bind(text(alloc, path)?, node)?;
        self.set_text(alloc, node, labels::PATH, path)?;
        Ok(node)
    }
}
