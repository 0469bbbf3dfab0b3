//! The command `show`.
#![tactic(auto)]

ghost use Rattle.std.specs.Prelude.{◌≡◌, IfOk, map};
ghost use Rattle.ta_cert.specs.Certificates.{pair_of};
ghost use Rattle.ta_program.specs.Show.{IsShown};

use crate::one_file::OfOneFile;
use std::alloc::{AllocError, Global};
use ta_base::limits::Limits;
use ta_base::{List, Text};
use ta_cert::Order;
use ta_scope::ScopedFile;
use ta_verdict::orders_of;

/// Prints a file as it was understood.
#[derive(Drop)]
pub(crate) struct Show;

impl OfOneFile for Show {
    ghost use Rattle.ta_program.specs.Show.{IsShown};

    ghost text = { λ limits. IsShown };

    fn write_text(alloc: Global, scoped: &ScopedFile, limits: &Limits) -> Result<Text, AllocError> {
        let _ = limits;
        file_text(alloc, scoped)
    }
}

/// The text of a file and of the orders that are found of its guards, and the unknowns of its patterns.
fn file_text(alloc: Global, scoped: &ScopedFile) -> Result<Text, AllocError>
    ensures { IfOk result (IsShown scoped.now.file) }
{
    let found = orders_of(alloc, scoped)?;
    let pairs = pairs_of(alloc, found.list.as_slice())?;
    let text = ta_report::show(alloc, &scoped.file, &pairs)?;
    Ok(text)
}

/// The pairs of orders.
fn pairs_of(alloc: Global, orders: &[Order]) -> Result<List<(u32, u32)>, AllocError>
    ensures { IfOk result (λ pairs. pairs ≡ map pair_of orders.now) }
{
    let mut pairs = Vec::new(alloc);
    for order in orders {
        pairs.push((order.before, order.after))?;
    }
    Ok(List::from_vec(pairs))
}
