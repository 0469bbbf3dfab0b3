//! Rows of texts: their first errors.
#![tactic(auto)]

use crate::files::Files;
use crate::given::Given;
use std::alloc::Global;
use ta_base::limits::{FILE_BYTES, Limits};
use ta_meaning::read_file;
use ta_scope::ScopedFile;
use ta_syntax::FileFault;

/// The file of a name, where its text is legal.
pub fn scoped(alloc: Global, files: &Files, name: &str) -> Option<ScopedFile> {
    file_of(alloc, files.text(name)).ok()
}

fn file_of(alloc: Global, text: &str) -> Result<ScopedFile, FileFault> {
    let bytes = text.as_bytes();
    if bytes.len() > FILE_BYTES {
        return Err(FileFault::Memory);
    }
    read_file(alloc, bytes, &Limits::narrow())
}

/// The first error of a text, or `legal`.
pub fn fault(given: &mut Given, text: &str) {
    match file_of(given.alloc, text).err() {
        Some(fault) => given.value(&fault),
        None => given.say("legal"),
    }
}
