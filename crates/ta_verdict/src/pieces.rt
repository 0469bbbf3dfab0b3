//! Long texts in pieces.
#![tactic(auto)]

ghost use Rattle.std.specs.List.{concat};
ghost use Rattle.std.specs.Prelude.{◌≡◌, [], ◌∷◌, ◌++◌, OnOk, string_bytes};
ghost use Rattle.ta_cert.specs.Certificates.{head_text};
ghost use Rattle.ta_cert.specs.Lines.{line_text};
ghost use Rattle.ta_verdict.specs.Drafts.{pieces_text};

use std::alloc::{AllocError, Global};
use std::mem;
use ta_base::Text;
use ta_cert::{Line, Order, write_head, write_line};

/// How long a piece grows before the next one is begun, in bytes: a line less than the 64 KB to which a
/// text grows by doubling, so that little of a piece's memory is left over.
const PIECE: usize = 61_440;

/// Lines of a certificate, one behind the other, in pieces: so a long text is never copied as it
/// grows. The last piece is still open.
#[derive(Drop)]
pub struct Pieces {
    pub whole: Vec<Text>,
    pub open: String,
}

impl Pieces {
    /// No lines. It takes no memory.
    pub fn new(alloc: Global) -> Pieces
        ensures { pieces_text result ≡ [] }
    {
        Pieces {
            whole: Vec::new(alloc),
            open: String::new(alloc),
        }
    }

    /// Adds a line.
    pub fn write(&mut self, alloc: Global, line: &Line) -> Result<(), AllocError>
        ensures { OnOk result (pieces_text self.new ≡ pieces_text self.old ++ (line_text line.now ++ 10 ∷ [])) }
    {
        write_line(&mut self.open, line)?;
        if self.open.len() < PIECE {
            return Ok(());
        }
        self.close(alloc)
    }

    /// Adds what stands in front of a certificate's proofs: the first line and the orders.
    pub fn write_head(&mut self, orders: &[Order]) -> Result<(), AllocError>
        ensures { OnOk result (pieces_text self.new ≡ pieces_text self.old ++ head_text orders.now) }
    {
        write_head(&mut self.open, orders)
    }

    /// Ends the open piece.
    pub fn close(&mut self, alloc: Global) -> Result<(), AllocError>
        ensures text { OnOk result (pieces_text self.new ≡ pieces_text self.old) }
        ensures closed { OnOk result (concat self.new.whole.items ≡ pieces_text self.old) }
    {
        let piece = mem::replace(&mut self.open, String::new(alloc));
        self.whole.push(Text::from_string(piece))?;
        Ok(())
    }

    /// Adds the lines of another.
    pub fn append(&mut self, alloc: Global, other: Pieces) -> Result<(), AllocError>
        ensures { OnOk result (pieces_text self.new ≡ pieces_text self.old ++ pieces_text other) }
    {
        self.close(alloc)?;
        let Pieces { mut whole, open } = other;
        self.whole.append(&mut whole)?;
        self.open = open;
        Ok(())
    }
}
