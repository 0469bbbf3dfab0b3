//! What the refutations for a claim say. The function does nothing: its contract states the law.
#![tactic(auto)]

ghost use Rattle.ta_rest.specs.Claims.{ProofsShowClaims};

/// A pattern of a file of which a proof of a claim is there has what is claimed.
pub fn proofs_show_claims()
    ensures { ProofsShowClaims }
{}
