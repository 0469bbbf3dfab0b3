//! A verifier of threshold automata.
#![tactic(auto)]

use std::env;
use std::io::ErrorKind;
use std::process::ExitCode;
use ta_program::run;
use ta_shelf::{DiskShelf, StdSink};

/// Runs the program over the words of the command line, the real files, standard output and
/// standard error, and ends with its number. Words that are no UTF-8 are no command's.
fn main(rt: HostRuntime) -> ExitCode {
    let mut out = StdSink::new(rt.stdout());
    let mut err = StdSink::new(rt.stderr());
    let Ok(files) = rt.clone() else {
        return ExitCode::from(7);
    };
    let mut shelf = DiskShelf::new(files);
    let arguments = match env::args(&rt) {
        Ok(arguments) => arguments,
        Err(error) if error.kind() == ErrorKind::OutOfMemory => return ExitCode::from(7),
        Err(_) => return ExitCode::from(run(&rt, rt.alloc(), &[], &mut shelf, &mut out, &mut err)),
    };
    let mut owned = Vec::new(rt.alloc());
    for word in arguments.skip(1) {
        if owned.push(word).is_err() {
            return ExitCode::from(7);
        }
    }
    let mut words = Vec::new(rt.alloc());
    for word in &owned {
        if words.push(word.as_str()).is_err() {
            return ExitCode::from(7);
        }
    }
    let words = words.as_slice();
    ExitCode::from(run(&rt, rt.alloc(), words, &mut shelf, &mut out, &mut err))
}
