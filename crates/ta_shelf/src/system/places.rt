//! Whether two names lead to one place.
#![tactic(auto)]

use crate::system::links::target_of;
use crate::system::opened::folder_of;
use std::alloc::AllocGlobal;
use std::os::unix::fs::MetadataExt;
use std::rt::Files;
use std::{fs, io};

/// Whether a file that comes in the place of one name comes in that of another: both lead to one name in
/// one folder. A folder is told by its device and number, so that no link, mount or spelling hides it.
pub fn lead_to_one<R: Files + AllocGlobal>(rt: &R, name: &str, other: &str) -> io::Result<bool> {
    match (target_of(rt, name)?, target_of(rt, other)?) {
        (Some(target), Some(place)) => are_one(rt, target.as_str(), place.as_str()),
        _ => Ok(false),
    }
}

/// The same for two names that are no links.
fn are_one<R: Files>(rt: &R, target: &str, place: &str) -> io::Result<bool> {
    if own_name(target) != own_name(place) {
        return Ok(false);
    }
    let first = fs::metadata(rt, folder_of(target))?; // trusted
    let second = fs::metadata(rt, folder_of(place))?; // trusted
    Ok(first.dev() == second.dev() && first.ino() == second.ino()) // trusted
}

/// A name in its folder.
fn own_name(name: &str) -> &str {
    match name.rfind('/') {
        Some(end) => &name[end + 1..],
        None => name,
    }
}
