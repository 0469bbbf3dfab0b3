//! What is asked of a run, and what may be answered.
#![tactic(auto)]

/// What may be asked of a run.
#[derive(Clone, Copy, Debug, PartialEq, Eq)]
pub enum Question {
    /// Whether a rule that needs this guard fires.
    OfGuard(u32),
    /// Which of two moments comes first.
    OfOrder(u32, u32),
    /// What keeps a rule from firing at the end, at rest.
    OfStuck(u32),
}

/// An answer of a question.
#[derive(Clone, Copy, Debug, PartialEq, Eq)]
pub enum Fact {
    /// No moving rule that needs the guard fires.
    Never(u32),
    /// One does, and the moment is the one before the first such firing.
    First(u32),
    /// The fall guard holds at the end.
    Stands(u32),
    /// Such a rule fires, the guard fails at the end, and the moment is the step of the last such firing.
    Last(u32),
    /// The first moment isn't after the second.
    Before(u32, u32),
    /// The second moment isn't after the first.
    After(u32, u32),
    /// Both moments are the same step.
    Same(u32, u32),
    /// Nobody is at the rule's source at the end.
    Vacant(u32),
    /// The rule's guard of this number fails at the end.
    Fails(u32, u32),
}
