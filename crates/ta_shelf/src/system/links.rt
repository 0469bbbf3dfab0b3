//! Where a name leads.
#![tactic(auto)]

use std::alloc::{AllocGlobal, Global};
use std::fs::Metadata;
use std::io::ErrorKind;
use std::rt::Files;
use std::{fs, io};

/// How many links are followed, as by the system.
const LINKS: u32 = 40;

/// What stands under a name.
enum Sort {
    /// A regular file, or none.
    Place,
    /// A link to be followed.
    Link,
    /// Another kind, as a pipe or a device; or a link of the system's own, as `/dev/stdout`.
    Other,
}

/// What stands under a name; a folder is an error.
fn sort_of<R: Files>(rt: &R, name: &str) -> io::Result<Sort> {
    match fs::symlink_metadata(rt, name) {
        Ok(known) => sort_known(name, &known),
        Err(error) if error.kind() == ErrorKind::NotFound => Ok(Sort::Place), // trusted
        Err(error) => Err(error),
    }
}

/// The same of what the system says of the name.
fn sort_known(name: &str, known: &Metadata) -> io::Result<Sort> {
    if known.is_file() {
        return Ok(Sort::Place); // trusted
    }
    if known.is_dir() {
        return Err(io::Error::from(ErrorKind::IsADirectory));
    }
    if known.is_symlink() && !is_of_system(name) {
        return Ok(Sort::Link);
    }
    Ok(Sort::Other)
}

/// Whether a name is in a folder whose links stand for what is open.
fn is_of_system(name: &str) -> bool {
    name.starts_with("/dev/") || name.starts_with("/proc/")
}

/// The name to which a link leads.
fn behind<R: Files + AllocGlobal>(rt: &R, link: &str) -> io::Result<String> {
    let target = fs::read_link(rt, link)?; // trusted
    lead_on(rt.alloc(), link, target.as_str(), target.is_absolute())
}

/// The name to which a link with this target leads: the target itself if it is absolute, and else the
/// name that it has in the folder of the link.
fn lead_on(alloc: Global, link: &str, target: &str, is_absolute: bool) -> io::Result<String> {
    match link.rfind('/') {
        Some(end) if !is_absolute => Ok(format!(in alloc; "{}/{}", &link[..end], target)?),
        _ => Ok(String::from_str(alloc, target)?),
    }
}

/// The name in whose place a new file may come, so that a name holds it: the name itself, or that to
/// which its links lead. There is none where the name is that of no regular file.
pub fn target_of<R: Files + AllocGlobal>(rt: &R, name: &str) -> io::Result<Option<String>> {
    let mut target = String::from_str(rt.alloc(), name)?;
    for _ in 0..LINKS {
        match sort_of(rt, target.as_str())? {
            Sort::Place => return Ok(Some(target)),
            Sort::Other => return Ok(None),
            Sort::Link => target = behind(rt, target.as_str())?,
        }
    }
    Ok(None)
}
