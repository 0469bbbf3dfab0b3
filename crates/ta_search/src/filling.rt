//! Filling the holes of a template.
#![tactic(auto)]

ghost use Rattle.std.specs.Prelude.{◌≡◌, ◌++◌, IfOk, OnOk, decimal, length};
ghost use Rattle.ta_search.specs.Filling.{filled_text, hole_value};

use crate::reading::word_at;
use crate::template::{Hole, Template};
use std::alloc::{AllocError, Global};
use ta_base::List;
use ta_base::bytes::is_word_byte;
use ta_base::decimals::push_decimal;

/// The text of a template's body with these values, one for each hole.
pub fn fill(alloc: Global, template: &Template, values: &[u32]) -> Result<List<u8>, AllocError>
    requires { length values.now ≡ length template.now.holes }
    ensures { IfOk result (λ text. text ≡ filled_text template.now values.now) }
{
    let holes = template.holes.as_slice();
    let body = template.body.as_slice();
    let mut text = Vec::new(alloc);
    let mut named = false;
    let mut rest = body;
    'bytes: while let Some((byte, behind)) = rest.split_first() {
        if *byte == b'$' {
            push_decimal(alloc, &mut text, hole_value(holes, values, word_at(behind)))?;
            named = true;
        } else if !(named && is_word_byte(*byte)) {
            text.push(*byte)?;
            named = false;
        }
        rest = behind;
    }
    Ok(List::from_vec(text))
}

/// The value of the hole of this name.
fn hole_value(holes: &[Hole], values: &[u32], word: &[u8]) -> u32
    ensures { result ≡ hole_value holes.now values.now word.now }
{
    match (holes.split_first(), values.split_first()) {
        (Some((hole, holes)), Some((value, values))) => {
            if word == hole.name.as_str().as_bytes() {
                *value
            } else {
                hole_value(holes, values, word)
            }
        }
        _ => 0,
    }
}
