//! The words of the command line.
#![tactic(auto)]

ghost use Rattle.std.specs.Prelude.{◌≡◌, ◌≤◌, ◌<◌, ◌+◌, codes, map, option_and_then, length, option_map, is_some, true, false, Some, None, IfSome, if◌then◌else◌};
ghost use Rattle.ta_program.specs.Taken.{form_of, options_of, taken_of};
ghost use Rattle.ta_program.specs.Words.{behind, is_dashed, nothing, plain_of, take_all, take_by, taken_by, option_value, whole, with_plain, with_value, with_word};

/// An option of a command: its word, and whether a value belongs to it.
#[derive(Clone, Copy)]
pub(crate) struct OptionWord<'a> {
    pub word: &'a str,
    pub valued: bool,
}

/// How many nodes may be visited.
pub(crate) const NODES_OPTION: OptionWord<'static> = OptionWord {
    word: "--nodes",
    valued: true,
};

/// The name of the file for the certificate.
pub(crate) const CERTIFICATE_OPTION: OptionWord<'static> = OptionWord {
    word: "--certificate",
    valued: true,
};

/// That moments are asked about on demand, in place of a list of words.
pub(crate) const LAZY_OPTION: OptionWord<'static> = OptionWord {
    word: "--lazy",
    valued: false,
};

/// That the output is to be a line of JSON.
pub(crate) const JSON_OPTION: OptionWord<'static> = OptionWord {
    word: "--json",
    valued: false,
};

/// The name of the pattern that a report is about, alone.
pub(crate) const PATTERN_OPTION: OptionWord<'static> = OptionWord {
    word: "--pattern",
    valued: true,
};

/// That status 0 is to say something of all patterns.
pub(crate) const ALL_OPTION: OptionWord<'static> = OptionWord {
    word: "--all",
    valued: false,
};

/// The names that are to be silent.
pub(crate) const SILENT_OPTION: OptionWord<'static> = OptionWord {
    word: "--silent",
    valued: true,
};

/// That FILE is read within the wide limits.
pub(crate) const WIDE_OPTION: OptionWord<'static> = OptionWord {
    word: "--wide",
    valued: false,
};

/// That the parameters are to be printed.
pub(crate) const PARAMETERS_OPTION: OptionWord<'static> = OptionWord {
    word: "--parameters",
    valued: false,
};

/// What the words of a form give: at most five plain words, and at most eight options.
pub(crate) fn take_words<'a>(
    plain: usize,
    options: &[OptionWord<'_>],
    words: &[&'a str],
) -> Option<Taken<'a>>
    requires plain { plain ≤ 5 }
    requires options { length options.now ≤ 8 }
    ensures { option_map taken_of result ≡ taken_by (form_of plain options.now) (map (λ w. w.now) words.now) }
{
    Taken::nothing()
        .with_all(plain, options, words)?
        .whole(plain)
}

/// What was taken of the words so far: plain words, of which there are so many, the values of the
/// options, whether `--` stood there, and the option whose value the next word is.
#[derive(Clone, Copy)]
pub(crate) struct Taken<'a> {
    plain: [&'a str; 5],
    count: usize,
    values: [Option<&'a str>; 8],
    ended: bool,
    awaits: Option<usize>,
}

impl<'a> Taken<'a> {
    /// Before the first word.
    fn nothing() -> Taken<'a>
        ensures { taken_of result ≡ nothing }
    {
        Taken {
            plain: [""; 5],
            count: 0,
            values: [None; 8],
            ended: false,
            awaits: None,
        }
    }

    /// With one more plain word, where the form has one more.
    fn with_plain(self, plain: usize, word: &'a str) -> Option<Taken<'a>>
        requires { plain ≤ 5 }
        ensures taken { option_map taken_of result ≡ with_plain plain (taken_of self.entry) word.now }
        ensures same { IfSome result (λ taken. taken.awaits ≡ self.entry.awaits) }
    {
        if self.count < plain {
            let mut words = self.plain;
            words[self.count] = word;
            Some(Taken {
                plain: words,
                count: self.count + 1,
                ..self
            })
        } else {
            None
        }
    }

    /// With the value of the option of a number, where it wasn't given.
    fn with_value(self, number: usize, value: &'a str) -> Option<Taken<'a>>
        requires { number < 8 }
        ensures taken { option_map taken_of result ≡ with_value (taken_of self.entry) number value.now }
        ensures none { IfSome result (λ taken. taken.awaits ≡ None) }
    {
        let given = self.values[number];
        if given.is_some() {
            return None;
        }
        let mut values = self.values;
        values[number] = Some(value);
        Some(Taken {
            values,
            awaits: None,
            ..self
        })
    }

    /// With a word that is one of these options, of which the first has this number, or else none.
    fn with_word(
        self,
        options: &[OptionWord<'_>],
        number: usize,
        plain: usize,
        word: &'a str,
    ) -> Option<Taken<'a>>
        requires plain { plain ≤ 5 }
        requires options { number + length options.now ≤ 8 }
        requires waits { self.awaits ≡ None }
        ensures taken { option_map taken_of result ≡ with_word (options_of options.now) number plain (taken_of self.entry) word.now }
        ensures inside { IfSome result (λ taken. IfSome taken.awaits (λ n. n < 8)) }
    {
        let Some((option, more)) = options.split_first() else {
            return if is_dashed(word) {
                None
            } else {
                self.with_plain(plain, word)
            };
        };
        if word == option.word {
            return if option.valued {
                Some(Taken {
                    awaits: Some(number),
                    ..self
                })
            } else {
                self.with_value(number, "")
            };
        }
        if option.valued {
            if let Some(value) = value_behind(option.word, word) {
                return self.with_value(number, value);
            }
        }
        self.with_word(more, number + 1, plain, word)
    }

    /// The plain word of a number.
    pub(crate) fn plain(&self, number: usize) -> &'a str
        requires { number < 5 }
        ensures { result.now ≡ plain_of (taken_of self.now) number }
    {
        if number < self.count {
            self.plain[number]
        } else {
            ""
        }
    }

    /// The value of the option of a number.
    pub(crate) fn value(&self, number: usize) -> Option<&'a str>
        requires { number < 8 }
        ensures { option_map (λ w. w.now) result ≡ option_value (taken_of self.now) number }
    {
        self.values[number]
    }

    /// With one more word.
    fn with(self, plain: usize, options: &[OptionWord<'_>], word: &'a str) -> Option<Taken<'a>>
        requires plain { plain ≤ 5 }
        requires options { length options.now ≤ 8 }
        requires inside { IfSome self.awaits (λ n. n < 8) }
        ensures taken { option_map taken_of result ≡ take_by self.entry.awaits (form_of plain options.now) (taken_of self.entry) word.now }
        ensures inside { IfSome result (λ taken. IfSome taken.awaits (λ n. n < 8)) }
    {
        match self.awaits {
            Some(number) => self.with_awaited(number, word),
            None if self.ended => self.with_plain(plain, word),
            None if word == "--" => Some(Taken {
                ended: true,
                ..self
            }),
            None => self.with_word(options, 0, plain, word),
        }
    }

    /// With all words, from the left. Each one that is taken is plain, an option, its value or `--`, so
    /// there are at most 22 calls in one another.
    fn with_all(
        self,
        plain: usize,
        options: &[OptionWord<'_>],
        words: &[&'a str],
    ) -> Option<Taken<'a>>
        requires plain { plain ≤ 5 }
        requires options { length options.now ≤ 8 }
        requires inside { IfSome self.awaits (λ n. n < 8) }
        ensures { option_map taken_of result ≡ take_all (form_of plain options.now) (taken_of self.entry) (map (λ w. w.now) words.now) }
    {
        match words.split_first() {
            Some((word, rest)) => self
                .with(plain, options, word)?
                .with_all(plain, options, rest),
            None => Some(self),
        }
    }

    /// Where no value and no plain word is missing.
    fn whole(self, plain: usize) -> Option<Taken<'a>>
        requires { plain ≤ 5 }
        ensures { option_map taken_of result ≡ whole plain (taken_of self.entry) }
    {
        if self.awaits.is_some() || self.count < plain {
            None
        } else {
            Some(self)
        }
    }

    /// With the value of the option of a number.
    fn with_awaited(self, number: usize, word: &'a str) -> Option<Taken<'a>>
        requires { number < 8 }
        ensures taken { option_map taken_of result ≡ (if is_dashed word.now then None else with_value (taken_of self.entry) number word.now) }
        ensures none { IfSome result (λ taken. taken.awaits ≡ None) }
    {
        if is_dashed(word) {
            None
        } else {
            self.with_value(number, word)
        }
    }
}

/// What stands behind a text at a word's beginning.
fn behind<'a>(text: &str, word: &'a str) -> Option<&'a str>
    ensures { option_map (λ w. w.now) result ≡ behind text.now word.now }
{
    match word.strip_prefix(text) {
        Some(rest) => Some(rest),
        None => None,
    }
}

/// The value that stands behind an option's word and `=`.
fn value_behind<'a>(option: &str, word: &'a str) -> Option<&'a str>
    ensures { option_map (λ w. w.now) result ≡ option_and_then (behind (codes "=")) (behind option.now word.now) }
{
    behind("=", behind(option, word)?)
}

/// Whether a word begins with `-` and is longer than that.
fn is_dashed(word: &str) -> bool
    ensures { result ≡ is_dashed word.now }
{
    let bytes = word.as_bytes();
    bytes.len() > 1 && bytes[0] == b'-'
}
