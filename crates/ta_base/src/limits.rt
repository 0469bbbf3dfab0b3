//! The limits of files, words and searches, each named once.
#![tactic(auto)]

ghost use Rattle.std.specs.Prelude.{◌+◌, ◌*◌, ◌≤◌};

/// How large an automaton file may be and how many things of each kind it may have, and how long a
/// line of a certificate for it is at most. Files are read within one of two rows of such limits,
/// `narrow` and `wide`. The ghost fields say that no row is wider than `wide`, that each allows a
/// parameter and a shared variable, and that a leaf's line has room for a multiplier, of at most 51
/// bytes, of each bound of an unknown: there are `parameters` and `locations` of them at the start,
/// and `rules` for each event and each guard.
#[derive(Clone, Copy)]
pub struct Limits {
    /// How many bytes an automaton file has at most.
    pub bytes: usize,
    /// How many bytes a line of a certificate has at most, its line feed aside.
    pub line_bytes: usize,
    /// How many parameters an automaton has at most.
    pub parameters: usize,
    /// How many shared variables it has at most.
    pub shared: usize,
    /// How many locations it has at most, and how many names the list `empty` of a pattern.
    pub locations: usize,
    /// How many rules it has at most.
    pub rules: usize,
    /// How many patterns a file has at most.
    pub patterns: usize,
    /// How many rise guards an automaton has at most.
    pub rises: usize,
    /// How many fall guards it has at most.
    pub falls: usize,
    pub ghost few_bytes: { bytes ≤ 4194304 },
    pub ghost long_lines: { 1048576 ≤ line_bytes },
    pub ghost leaf_lines: { 51 * (parameters + locations + (8 + rises + falls) * rules) + 64 ≤ line_bytes },
    pub ghost some_parameters: { 1 ≤ parameters },
    pub ghost some_shared: { 1 ≤ shared },
    pub ghost few_parameters: { parameters ≤ 32 },
    pub ghost few_shared: { shared ≤ 64 },
    pub ghost few_locations: { locations ≤ 128 },
    pub ghost few_rules: { rules ≤ 1024 },
    pub ghost few_patterns: { patterns ≤ 64 },
    pub ghost few_rises: { rises ≤ 64 },
    pub ghost few_falls: { falls ≤ 16 },
}

impl Limits {
    ghost use Rattle.std.specs.Prelude.{◌≡◌};
    ghost use Rattle.ta_base.specs.LimitRows.{narrow, wide};

    /// The limits of a file unless wider ones are asked for.
    pub fn narrow() -> Limits
        ensures { result ≡ narrow }
    {
        Limits {
            bytes: 1_048_576,
            line_bytes: 1_048_576,
            parameters: 16,
            shared: 16,
            locations: 32,
            rules: 128,
            patterns: 16,
            rises: 16,
            falls: 6,
        }
    }

    /// The wider limits.
    pub fn wide() -> Limits
        ensures { result ≡ wide }
    {
        Limits {
            bytes: 4_194_304,
            line_bytes: 8_388_608,
            parameters: 32,
            shared: 64,
            locations: 128,
            rules: 1024,
            patterns: 64,
            rises: 64,
            falls: 16,
        }
    }
}

/// How large a number of an automaton file is at most.
pub const LARGEST_NUMBER: u64 = 1_000_000_000;

/// How many bytes an automaton file or a template has at most, within any limits.
pub const FILE_BYTES: usize = 4_194_304;

/// How many bytes a file of values has at most.
pub const VALUES_BYTES: u64 = 1_048_576;

/// How many bytes a certificate has at most.
pub const CERTIFICATE_BYTES: u64 = 1_073_741_824;

/// How many bytes a run has at most.
pub const RUN_BYTES: u64 = 16_777_216;

/// How many parameters an automaton has at most within the narrow limits, as the tree of schemas wants.
pub const MOST_PARAMETERS: usize = 16;

/// How many locations it then has at most.
pub const MOST_LOCATIONS: usize = 32;

/// How many rules it then has at most.
pub const MOST_RULES: usize = 128;

/// How many events a pattern has at most.
pub const MOST_EVENTS: usize = 8;

/// How many rise guards an automaton has at most within the narrow limits.
pub const MOST_RISES: usize = 16;

/// How many fall guards it then has at most.
pub const MOST_FALLS: usize = 6;

/// How many elements a word has at most: an event, a rise guard or a fall guard in each.
pub const LONGEST_WORD: usize = MOST_EVENTS + MOST_RISES + MOST_FALLS;

/// How many sets of fall guards may fall in an element.
pub const MOST_FALL_SETS: usize = (1 << MOST_FALLS) - 1;

/// How many elements may follow a word at most.
pub const MOST_CHILDREN: usize = MOST_EVENTS + MOST_RISES + MOST_FALL_SETS;

/// How many unknowns the system of a word has at most: the parameters, the counters at the start,
/// and for each rule how often it fires before each element and in each step of a fall guard.
pub const MOST_UNKNOWNS: usize = MOST_PARAMETERS
    + MOST_LOCATIONS
    + (LONGEST_WORD + MOST_FALLS) * MOST_RULES;

/// How many nodes the search of a pattern may be given at most.
pub const MOST_NODES: u64 = 1_000_000_000;

/// How many nodes it is given where nobody says how many.
pub const DEFAULT_NODES: u64 = 1_000_000;

/// How many unit steps a run may have to be compressed.
pub const MOST_UNIT_STEPS: i128 = 1_000_000;

/// How many holes a template has at most.
pub const MOST_HOLES: usize = 4;

/// How large a value of a hole is at most.
pub const LARGEST_VALUE: u64 = 1_000_000_000;

/// How many vectors of values a template has at most.
pub const MOST_VECTORS: u64 = 10_000;
