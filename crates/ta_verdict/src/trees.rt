//! Which trees are visited for the patterns of a file: those of schemas, or of moments.
#![tactic(auto)]

ghost use Rattle.std.specs.Prelude.{◌≡◌, IfOk, map};
ghost use Rattle.ta_cert.specs.Certificates.{pair_of};
ghost use Rattle.ta_verdict.specs.Drafts.{HasText};
ghost use Rattle.ta_verdict.specs.Trees.{AreTreesOfFile, head_of, is_lazy};
ghost use Rattle.ta_walk.specs.FoundOrders.{FoundOrders};

use crate::draft::Draft;
use std::alloc::{AllocError, Global};
use ta_cert::Line;
use ta_dense::DenseDictionary;
use ta_scope::ScopedFile;
use ta_walk::{OrdersFound, find_orders};

/// Which trees of the patterns of a file are visited.
#[derive(Drop)]
pub enum Trees {
    /// Those of words, under the orders that were found.
    Words(OrdersFound),
    /// Those of moments on demand.
    Moments,
}

impl Trees {
    /// The trees, with what is found once for all patterns.
    pub fn find(alloc: Global, scoped: &ScopedFile, lazy: bool) -> Result<Trees, AllocError>
        ensures known { IfOk result (AreTreesOfFile scoped.now.file) }
        ensures lazy { IfOk result (λ trees. is_lazy trees ≡ lazy) }
    {
        if lazy {
            return Ok(Trees::Moments);
        }
        Ok(Trees::Words(orders_of(alloc, scoped)?))
    }

    /// A draft of a certificate of such trees, with what stands in front of its proofs.
    pub fn begin(&self, alloc: Global, wanted: bool) -> Result<Draft, AllocError>
        ensures wanted { IfOk result (λ draft. draft.wanted ≡ wanted) }
        ensures text { IfOk result (λ draft. HasText draft (head_of self.now)) }
    {
        match self {
            Trees::Words(found) => Draft::certificate(alloc, wanted, found.list.as_slice()),
            Trees::Moments => Draft::begin(alloc, wanted, &Line::Header(3)),
        }
    }
}

/// The orders of the guards of a file, under which words are visited.
pub fn orders_of(alloc: Global, scoped: &ScopedFile) -> Result<OrdersFound, AllocError>
    ensures found { IfOk result (λ found. FoundOrders scoped.now.file.automaton found.list) }
    ensures same { IfOk result (λ found. found.orders ≡ map pair_of found.list) }
{
    find_orders::<DenseDictionary>(alloc, scoped)
}
