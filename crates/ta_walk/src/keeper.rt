//! What takes the nodes of a visit as they come: the nodes themselves, their lines, or nothing.
//!
//! A certificate may have millions of nodes, so the visit keeps none. In a parallel visit each
//! later part has a keeper of its own, which the part before it appends to its own where the two
//! join.
#![tactic(auto)]

use std::alloc::{AllocError, Global};
use ta_cert::Node;

/// What takes the nodes of a tree one after the other, in the order of the visit, and keeps of them
/// what it wants: the nodes themselves, their lines, or nothing.
pub trait Keeper {
    ghost use Rattle.std.specs.Prelude.{List, [], ◌∷◌, ◌++◌, OnOk};
    ghost use Rattle.ta_cert.specs.declared.line.Node.{Node};

    // the second keeps what the first does, and what these nodes add to it
    ghost keeps: { Self → Self → List Node → Type 0 };

    /// Takes one more node.
    fn take(&mut self, alloc: Global, node: Node) -> Result<(), AllocError>
        ensures { (first : Self) (nodes : List Node) → keeps first self.old nodes → OnOk result (keeps first self.new (nodes ++ node ∷ [])) };
}

/// A keeper for a visit whose parts run beside each other: the nodes of a later part go to a keeper
/// of their own, in another thread.
pub trait PartKeeper: Keeper + Sized + Drop + Send {
    ghost use Rattle.std.specs.Prelude.{List, [], ◌++◌, IfOk, OnOk};
    ghost use Rattle.ta_cert.specs.declared.line.Node.{Node};

    // the second is one of a later part, for the first
    ghost begins: { Self → Self → Type 0 };

    /// A keeper of the nodes of a later part of the visit, which has none yet.
    fn later(&self, alloc: Global) -> Result<Self, AllocError>
        ensures begins { (first : Self) (nodes : List Node) → Self.keeps first self.now nodes → IfOk result (begins first) }
        ensures keeps { IfOk result (λ part. Self.keeps part part []) };

    /// Takes what a keeper of the part behind its nodes kept.
    fn append(&mut self, alloc: Global, part: Self) -> Result<(), AllocError>
        ensures { (first begun : Self) (nodes more : List Node) → Self.keeps first self.old nodes → begins first begun → Self.keeps begun part more → OnOk result (Self.keeps first self.new (nodes ++ more)) };
}

/// Keeps the nodes themselves.
#[derive(Drop)]
pub(crate) struct Nodes {
    pub items: Vec<Node>,
}

impl Keeper for Nodes {
    ghost use Rattle.std.specs.Prelude.{◌≡◌, ◌++◌};

    ghost keeps = { λ first now nodes. now.items.items ≡ first.items.items ++ nodes };

    fn take(&mut self, alloc: Global, node: Node) -> Result<(), AllocError> {
        let _alloc = alloc;
        self.items.push(node)?;
        Ok(())
    }
}

impl PartKeeper for Nodes {
    ghost use Rattle.std.specs.Prelude.{◌≡◌, []};

    ghost begins = { λ first part. part.items.items ≡ [] };

    fn later(&self, alloc: Global) -> Result<Nodes, AllocError> {
        Ok(Nodes {
            items: Vec::new(alloc),
        })
    }

    fn append(&mut self, alloc: Global, part: Nodes) -> Result<(), AllocError> {
        let _alloc = alloc;
        let Nodes { mut items } = part;
        self.items.append(&mut items)?;
        Ok(())
    }
}

/// Keeps no nodes.
#[derive(Drop)]
pub struct Nothing {}

impl Keeper for Nothing {
    ghost keeps = { λ first now nodes. Unit {0} };

    fn take(&mut self, alloc: Global, node: Node) -> Result<(), AllocError> {
        let _alloc = alloc;
        drop(node);
        Ok(())
    }
}
