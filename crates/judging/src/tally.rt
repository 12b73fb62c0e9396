// How many tests were yes, how many were open, and the origin of the first open one.
ghost use Rattle.std.specs.Prelude.{◌≡◌, ◌+◌, ◌<◌};

use meaning::verdict::{Origin, Verdict};

#[derive(Clone, Copy, Default)]
pub struct Tally {
    yes: u16,
    open: u16,
    first: Option<Origin>,
}

impl Tally {
    ghost use Rattle.judging.specs.Tallies.{noted, weighed, unchanging};

    // With one answer more.
    pub(crate) fn note(self, answer: Verdict) -> Tally
        requires { self.yes + self.«open» < 65535 }
        ensures { result ≡ noted answer self }
    {
        match answer {
            Verdict::Holds => Tally {
                yes: self.yes + 1,
                ..self
            },
            Verdict::Fails => self,
            Verdict::Open(origin) => Tally {
                open: self.open + 1,
                first: Some(self.first.unwrap_or(origin)),
                ..self
            },
        }
    }

    // Whether at least `count` of the answers are yes.
    pub(crate) fn weigh(self, count: u16) -> Verdict
        ensures { result ≡ weighed count self }
    {
        let possible = self.yes as u32 + self.open as u32;
        match self.first {
            _ if count <= self.yes => Verdict::Holds,
            Some(origin) if count as u32 <= possible => Verdict::Open(origin),
            _ => Verdict::Fails,
        }
    }

    // Whether `left` more answers cannot change the verdict.
    pub(crate) fn is_unchanging(self, left: u16, count: u16) -> bool
        ensures { result ≡ unchanging count left self }
    {
        let yes = self.yes as u32;
        let open = self.open as u32;
        let left = left as u32;
        let count = count as u32;
        count <= yes || yes + open + left < count || (yes + left < count && count <= yes + open)
    }
}
