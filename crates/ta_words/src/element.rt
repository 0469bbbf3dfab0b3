//! The elements of words.
#![tactic(auto)]

ghost use Rattle.std.specs.Prelude.{◌≡◌, ◌↔◌, IsTrue};

/// An event of the pattern by its number, a rise guard that becomes true by its number, or a
/// non-empty set of fall guards that become false in one step (bit j for fall guard j).
#[derive(Clone, Copy, Debug, PartialEq, Eq)]
pub enum Element {
    Event(u32),
    Rise(u32),
    Fall(u8),
}

impl Default for Element {
    ghost use Rattle.ta_words.specs.declared.element.Element.TheVariants.{Event};

    ghost is_default = { λ e. e ≡ Event 0 };

    fn default() -> Element {
        Element::Event(0)
    }
}

impl Element {
    pub(crate) fn is(self, other: Element) -> bool
        ensures { IsTrue result ↔ (self ≡ other) }
    {
        self == other
    }
}
