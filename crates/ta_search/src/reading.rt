//! Reading a template.
#![tactic(auto)]

ghost use Rattle.std.specs.Prelude.{◌≡◌, ◌≤◌, ◌<◌, ◌+◌, ◌↔◌, IfOk, IfErr, IsTrue, codes, length};
ghost use Rattle.ta_search.specs.Holes.{AreHoles, unknown_place, word_at};
ghost use Rattle.ta_search.specs.Templates.{template_text};
ghost use Rattle.ta_search.specs.TemplateFaults.{FaultOf};
ghost use Rattle.ta_search.specs.Inside.Lines.{BodyRefused};

use crate::fault::TemplateFault;
use crate::lines::{is_among, next_hole};
use crate::template::{Hole, Template};
use std::alloc::Global;
use ta_base::List;
use ta_base::bytes::{split_at_byte, word_len};
use ta_base::limits::FILE_BYTES;

/// The template that a text is. The first wrong line is refused, and then the first `$` of the
/// body without a hole's name behind it.
pub fn read_template(alloc: Global, bytes: &[u8]) -> Result<Template, TemplateFault>
    requires { length bytes.now ≤ FILE_BYTES }
    ensures text { IfOk result (λ template. template_text template ≡ bytes.now) }
    ensures fault { IfErr result (λ e. FaultOf bytes.now e) }
{
    let mut holes = Vec::new(alloc);
    let mut rest = bytes;
    'lines: while let Some((line, behind)) = split_at_byte(rest, b'\n') {
        if is_begin(line) {
            return with_body(alloc, holes, bytes.len() - behind.len(), behind);
        }
        let hole = next_hole(alloc, holes.as_slice(), line, holes.len() as u32 + 1)?;
        holes.push(hole)?;
        rest = behind;
    }
    Err(TemplateFault::Line(holes.len() as u32 + 1))
}

/// Whether a line is the last before the body.
fn is_begin(line: &[u8]) -> bool
    ensures { IsTrue result ↔ (line.now ≡ codes "begin") }
{
    line == b"begin".as_slice()
}

/// The template of these holes with a body, which stands at this offset of the text.
fn with_body(
    alloc: Global,
    holes: Vec<Hole>,
    offset: usize,
    body: &[u8],
) -> Result<Template, TemplateFault>
    requires { AreHoles holes.items × (offset + length body.now ≤ FILE_BYTES) }
    ensures body { IfOk result (λ template. (template.holes ≡ holes.items) × (template.body ≡ body.now)) }
    ensures refused { IfErr result (λ e. BodyRefused holes.items offset body.now e) }
{
    if let Some(place) = unknown_place(holes.as_slice(), body) {
        return Err(TemplateFault::UnknownHole((offset + place) as u32));
    }
    let body = Vec::from_slice(alloc, body)?;
    Ok(Template {
        holes: List::from_vec(holes),
        body: List::from_vec(body),
    })
}

/// The place of the first `$` behind which no name of a hole stands.
fn unknown_place(holes: &[Hole], body: &[u8]) -> Option<usize>
    ensures { result ≡ unknown_place holes.now body.now }
{
    let mut place = 0;
    let mut rest = body;
    'bytes: while let Some((byte, behind)) = rest.split_first() {
        if *byte == b'$' && !is_among(holes, word_at(behind)) {
            return Some(place);
        }
        place += 1;
        rest = behind;
    }
    None
}

/// The letters, digits and `_` that stand first.
pub(crate) fn word_at(bytes: &[u8]) -> &[u8]
    ensures { result.now ≡ word_at bytes.now }
{
    &bytes[..word_len(bytes)]
}
