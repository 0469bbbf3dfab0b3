//! The command `version`.
#![tactic(auto)]

ghost use Rattle.std.specs.Prelude.{◌≡◌, [], Option, map, option_map};
ghost use Rattle.ta_shelf.specs.Put.{Told};
ghost use Rattle.ta_shelf.specs.Commands.{Says};
ghost use Rattle.ta_shelf.specs.Reading.{ReadCause};
ghost use Rattle.ta_program.specs.Version.{version_meaning, version_words};

use crate::request::Request;
use crate::words::take_words;
use std::alloc::{AllocError, Global};
use std::thread::Threads;
use ta_base::Text;
use ta_shelf::{Answer, Command, Outputs, Refusal, Shelf};

/// The version, and the kit that the program is proved with.
const VERSION: &str = "tav 0.2.0\nrattle-kit-13f logic dac8208d650f15bf\n";

/// What `version` is asked for: nothing more.
#[derive(Drop)]
pub(crate) struct Version;

impl<'a> Request<'a> for Version {
    ghost use Rattle.ta_program.specs.Version.{version_asked};

    ghost asked = { version_asked };

    fn read(words: &[&'a str]) -> Option<Version> {
        read_version(words)
    }
}

impl Command for Version {
    ghost use Rattle.ta_program.specs.Version.{version_meaning};

    ghost meaning = { λ command. version_meaning };

    fn outputs(&self) -> Outputs<'_> {
        Outputs::none()
    }

    fn judge<R: Threads + Sync, S: Shelf>(
        &self,
        rt: &R,
        alloc: Global,
        shelf: &mut S,
    ) -> Result<Answer, Refusal<'_>> {
        let _ = rt;
        let _ = shelf;
        answer_version(alloc)
    }
}

/// Reads the words of `version`: there are none.
fn read_version(words: &[&str]) -> Option<Version>
    ensures { option_map (λ command. tt) result ≡ version_words (map (λ w. w.now) words.now) }
{
    take_words(0, &[], words)?;
    Some(Version)
}

/// The answer with the version.
fn answer_version<'a>(alloc: Global) -> Result<Answer, Refusal<'a>>
    ensures says { (files : Option Told) → Says version_meaning files result [] }
    ensures cause { ReadCause result 0 0 }
{
    match String::from_str(alloc, VERSION) {
        Ok(text) => Ok(Answer::writing(alloc, 0, Text::from_string(text))),
        Err(AllocError) => Err(Refusal::Memory),
    }
}
