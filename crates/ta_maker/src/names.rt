//! Names and numbers of the family.
#![tactic(auto)]

ghost use Rattle.std.specs.Prelude.{◌≡◌, IfOk, codes};
ghost use Rattle.ta_syntax.specs.Kinds.{IsNameText};
ghost use Rattle.ta_maker.specs.Family.{numbered};

use std::alloc::{AllocError, Global};
use ta_base::Text;
use ta_syntax::{Digits, Spelled};

/// A name.
pub(crate) fn spelled(alloc: Global, name: &str) -> Result<Spelled, AllocError>
    requires { IsNameText name.now }
    ensures { IfOk result (λ it. it.name ≡ name.now) }
{
    Ok(Spelled {
        name: Text::from_string(String::from_str(alloc, name)?),
        at: 0,
    })
}

/// A name with a number behind it.
pub(crate) fn numbered(alloc: Global, front: &str, index: u32) -> Result<Spelled, AllocError>
    requires { IsNameText (numbered front.now index) }
    ensures { IfOk result (λ it. it.name ≡ numbered front.now index) }
{
    let name = format!(in alloc; "{front}{index}")?;
    Ok(Spelled {
        name: Text::from_string(name),
        at: 0,
    })
}

/// The number 1.
pub(crate) fn one(alloc: Global) -> Result<Digits, AllocError>
    ensures { IfOk result (λ it. it.text ≡ codes "1") }
{
    Ok(Digits {
        text: Text::from_string(String::from_str(alloc, "1")?),
        at: 0,
    })
}
