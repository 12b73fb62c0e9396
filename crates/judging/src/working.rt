// The rows that a judging works with.
use meaning::verdict::{Origin, Verdict};
use rules::row::{Connective, Pick, Quantifier, Side};

// A scope: what its row names, and the rows of its test and its property.
#[derive(Clone, Copy)]
pub struct Scoping {
    pub side: Side,
    pub pick: Pick,
    pub name: u8,
    pub duration: u32,
    pub test: usize,
    pub body: usize,
}

// A quantifier: what its row names, and the row of its property.
#[derive(Clone, Copy)]
pub struct Quantifying {
    pub quantifier: Quantifier,
    pub variable: u8,
    pub code: u8,
    pub body: usize,
}

// A connective that waits for its left side: the row of its right side, and where it is judged.
// `depth` is how many variables are known at the row, here and below.
#[derive(Clone, Copy)]
pub struct LeftRow {
    pub connective: Connective,
    pub right: usize,
    pub window: (u16, u16),
    pub depth: usize,
}

// A quantifier at one of its values: the slot where the next ones are looked for, and what stands so far.
#[derive(Clone, Copy)]
pub struct ValuesRow {
    pub quantifying: Quantifying,
    pub window: (u16, u16),
    pub depth: usize,
    pub next: usize,
    pub verdict: Verdict,
}

impl ValuesRow {
    ghost use Rattle.std.specs.Prelude.{◌≡◌};
    ghost use Rattle.judging.specs.Machine.{start};

    // A quantifier before its first value.
    pub(crate) fn new(quantifying: Quantifying, window: (u16, u16)) -> ValuesRow
        ensures { result ≡ record { quantifying = quantifying; window = window; depth = 0; next = 0; verdict = start quantifying.quantifier } }
    {
        ValuesRow {
            quantifying,
            window,
            depth: 0,
            next: 0,
            verdict: match quantifying.quantifier {
                Quantifier::Forall => Verdict::Holds,
                Quantifier::Exists => Verdict::Fails,
            },
        }
    }
}

// A scope at one of its delimiters: the places still to be tried, the delimiter's test,
// the lowest open test, and what stands so far.
#[derive(Clone, Copy)]
pub struct PlacesRow {
    pub scoping: Scoping,
    pub window: (u16, u16),
    pub depth: usize,
    pub left: (u16, u16),
    pub test: Verdict,
    pub lowest: Option<Origin>,
    pub verdict: Verdict,
}

impl PlacesRow {
    ghost use Rattle.std.specs.Prelude.{◌≡◌, None};

    // A scope before its first delimiter.
    pub(crate) fn new(scoping: Scoping, window: (u16, u16)) -> PlacesRow
        ensures { result ≡ record { scoping = scoping; window = window; depth = 0; left = window; test = Verdict.Fails; lowest = None; verdict = Verdict.Holds } }
    {
        PlacesRow {
            scoping,
            window,
            depth: 0,
            left: window,
            test: Verdict::Fails,
            lowest: None,
            verdict: Verdict::Holds,
        }
    }
}

// A property row whose verdict waits for that of a property below it.
#[derive(Clone, Copy)]
pub enum JudgingRow {
    Negation,
    Left(LeftRow),
    Right {
        connective: Connective,
        left: Verdict,
    },
    Values(ValuesRow),
    Places(PlacesRow),
}

// Where a judging is: at a row, in a window, or past a property whose verdict is known.
#[derive(Clone, Copy)]
pub enum Turn {
    Ask { at: usize, window: (u16, u16) },
    Told { verdict: Verdict },
}

// The next possible delimiter: its place and time, its test, and the places still to be tried.
#[derive(Clone, Copy)]
pub struct Found {
    pub place: u16,
    pub time: u32,
    pub test: Verdict,
    pub left: (u16, u16),
}
