//! A certificate while it is written.
#![tactic(auto)]

ghost use Rattle.std.specs.List.{concat};
ghost use Rattle.std.specs.Prelude.{◌≡◌, ◌++◌, [], IfOk, OnOk, List, ℕ, false, true};
ghost use Rattle.ta_cert.specs.Certificates.{head_text};
ghost use Rattle.ta_verdict.specs.Drafts.{DraftKeeps, HasText, ended_line};

use crate::pieces::Pieces;
use std::alloc::{AllocError, Global};
use ta_base::{List, Text};
use ta_cert::{Line, Node, Order};
use ta_walk::{Keeper, PartKeeper};

/// The lines of a certificate, or of the proof of a pattern, as they are made; none where no
/// certificate is asked for.
#[derive(Drop)]
pub struct Draft {
    pub wanted: bool,
    pub lines: Pieces,
}

impl Draft {
    /// A draft without lines. It takes no memory.
    pub fn new(alloc: Global, wanted: bool) -> Draft
        ensures wanted { result.wanted ≡ wanted }
        ensures text { HasText result [] }
    {
        Draft {
            wanted,
            lines: Pieces::new(alloc),
        }
    }

    /// A draft that begins with a line.
    pub fn begin(alloc: Global, wanted: bool, line: &Line) -> Result<Draft, AllocError>
        ensures wanted { IfOk result (λ draft. draft.wanted ≡ wanted) }
        ensures text { IfOk result (λ draft. HasText draft (ended_line line.now)) }
    {
        let mut lines = Pieces::new(alloc);
        if !wanted {
            return Ok(Draft { wanted, lines });
        }
        lines.write(alloc, line)?;
        Ok(Draft { wanted, lines })
    }

    /// A draft of a certificate, with its first line and its orders.
    pub fn certificate(alloc: Global, wanted: bool, orders: &[Order]) -> Result<Draft, AllocError>
        ensures wanted { IfOk result (λ draft. draft.wanted ≡ wanted) }
        ensures text { IfOk result (λ draft. HasText draft (head_text orders.now)) }
    {
        let mut lines = Pieces::new(alloc);
        if !wanted {
            return Ok(Draft { wanted, lines });
        }
        lines.write_head(orders)?;
        Ok(Draft { wanted, lines })
    }

    /// Adds the lines of another draft.
    pub fn join(&mut self, alloc: Global, other: Draft) -> Result<(), AllocError>
        requires { self.old.wanted ≡ other.wanted }
        ensures wanted { OnOk result (self.new.wanted ≡ self.old.wanted) }
        ensures text { (begun more : List ℕ) → HasText self.old begun → HasText other more → OnOk result (HasText self.new (begun ++ more)) }
    {
        if !self.wanted {
            return Ok(());
        }
        self.lines.append(alloc, other.lines)
    }

    /// The pieces; none where no lines are wanted.
    pub fn into_pieces(self, alloc: Global) -> Result<List<Text>, AllocError>
        ensures text { self.wanted ≡ true → (text : List ℕ) → HasText self text → IfOk result (λ texts. concat texts ≡ text) }
        ensures unwanted { self.wanted ≡ false → IfOk result (λ texts. texts ≡ []) }
    {
        if !self.wanted {
            return Ok(List::from_vec(Vec::new(alloc)));
        }
        let mut lines = self.lines;
        lines.close(alloc)?;
        Ok(List::from_vec(lines.whole))
    }
}

impl Keeper for Draft {
    ghost use Rattle.ta_verdict.specs.Drafts.{DraftKeeps};

    ghost keeps = { DraftKeeps };

    fn take(&mut self, alloc: Global, node: Node) -> Result<(), AllocError> {
        if !self.wanted {
            return Ok(());
        }
        self.lines.write(alloc, &Line::Tree(node))
    }
}

impl PartKeeper for Draft {
    ghost use Rattle.ta_verdict.specs.Drafts.{DraftBegins};

    ghost begins = { DraftBegins };

    fn later(&self, alloc: Global) -> Result<Draft, AllocError> {
        Ok(Draft {
            wanted: self.wanted,
            lines: Pieces::new(alloc),
        })
    }

    fn append(&mut self, alloc: Global, part: Draft) -> Result<(), AllocError> {
        if !self.wanted {
            return Ok(());
        }
        self.lines.append(alloc, part.lines)
    }
}
