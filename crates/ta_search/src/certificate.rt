//! The text of a certificate in pieces.
#![tactic(auto)]

ghost use Rattle.std.specs.List.{concat};
ghost use Rattle.std.specs.Prelude.{◌≡◌};

use std::marker::Model;
use ta_base::{List, Text};

/// The text of a certificate in pieces, so that a long one is never copied as it grows. A contract
/// sees it as the one text.
#[derive(Drop)]
pub struct CertificateText {
    pieces: List<Text>,
}

impl Model for CertificateText {
    ghost use Rattle.std.specs.Prelude.{List, ℕ};
    ghost use Rattle.std.specs.List.{concat};

    ghost Value = { List ℕ };

    ghost view = { λ c. concat c.pieces };
}

impl CertificateText {
    /// The text of these pieces. It takes no memory.
    pub fn from_pieces(pieces: List<Text>) -> CertificateText
        ensures { result ≡ concat pieces }
    {
        CertificateText { pieces }
    }

    /// The pieces.
    pub fn as_pieces(&self) -> &[Text]
        ensures { concat result.now ≡ self.now }
    {
        self.pieces.as_slice()
    }

    /// The pieces, handed out. It takes no memory.
    pub fn into_pieces(self) -> List<Text>
        ensures { concat result ≡ self }
    {
        self.pieces
    }
}
