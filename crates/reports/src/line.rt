// What is written of a rule, and of a refused input.
ghost use Rattle.std.specs.Prelude.{Some};
ghost use Rattle.reports.specs.Lines.{line_of, refusal_line};

use crate::input::InputRefusal;
use meaning::verdict::Verdict;
use std::fmt;

// A rule and its verdict.
#[derive(Clone, Copy)]
pub struct Line {
    pub rule: usize,
    pub verdict: Verdict,
}

impl fmt::Display for Line {
    ghost output = { λ line. Some (line_of line) };

    fn fmt<W: fmt::Write>(&self, f: &mut fmt::Formatter<W>) -> fmt::Result {
        let rule = self.rule;
        match self.verdict {
            Verdict::Holds => write!(f, "{rule} holds"),
            Verdict::Fails => write!(f, "{rule} fails"),
            Verdict::Open(origin) => {
                let row = origin.row;
                let place = origin.place;
                let cause = u8::from(origin.cause);
                write!(f, "{rule} open {row} {place} {cause}")
            }
        }
    }
}

impl fmt::Display for InputRefusal {
    ghost output = { λ refusal. Some (refusal_line refusal) };

    fn fmt<W: fmt::Write>(&self, f: &mut fmt::Formatter<W>) -> fmt::Result {
        let number = u8::from(*self);
        match self.carried() {
            None => write!(f, "refused {number}"),
            Some(carried) => write!(f, "refused {number} {carried}"),
        }
    }
}
