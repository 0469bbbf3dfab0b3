//! What cursors stand for at first. The function does nothing: its contract states the law.
#![tactic(auto)]

ghost use Rattle.ta_encode.specs.Cursors.{BeginsWithin};

/// At a node with which a search begins, that node is left.
pub fn begins_within<F: Copy + Drop>()
    ensures { BeginsWithin F }
{}
