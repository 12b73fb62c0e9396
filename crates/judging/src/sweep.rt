// A scope's delimiters, tried one after another.
ghost use Rattle.std.specs.Prelude.{◌≡◌};
ghost use Rattle.judging.specs.Sweeps.{needed, doubted, closed, former, absorbed};

use crate::working::PlacesRow;
use meaning::verdict::{Origin, Verdict};
use rules::row::Pick;
use std::ops::ControlFlow::{self, Break, Continue};

// The verdict of a scope, from that of its property at the lowest delimiter where it does not hold.
fn close(lowest: Option<Origin>, v: Verdict) -> Verdict
    ensures { result ≡ closed lowest v }
{
    match (v, lowest) {
        (Verdict::Fails, Some(origin)) => Verdict::Open(origin),
        (v, _) => v,
    }
}

fn first_of(v: Verdict, w: Verdict) -> Verdict
    ensures { result ≡ former v w }
{
    match v {
        Verdict::Holds => w,
        Verdict::Fails | Verdict::Open(_) => v,
    }
}

impl PlacesRow {
    // Whether the property has to be judged at a delimiter with this test.
    pub(crate) fn is_needed(&self, test: Verdict) -> bool
        ensures { result ≡ needed self.now.scoping.pick self.now.verdict test }
    {
        match (self.scoping.pick, self.verdict, test) {
            (_, _, Verdict::Fails) => false,
            (_, _, Verdict::Holds) => true,
            (Pick::Each, Verdict::Fails | Verdict::Open(_), Verdict::Open(_)) => false,
            (_, _, Verdict::Open(_)) => true,
        }
    }

    // The lowest open test of the delimiters tried, with one more.
    pub(crate) fn doubt(&self, test: Verdict) -> Option<Origin>
        ensures { result ≡ doubted self.now.scoping.pick test self.now.lowest }
    {
        match (self.scoping.pick, test) {
            (_, Verdict::Holds | Verdict::Fails) => self.lowest,
            (Pick::Last, Verdict::Open(origin)) => Some(origin),
            (Pick::First | Pick::Each, Verdict::Open(origin)) => self.lowest.or(Some(origin)),
        }
    }

    // One more delimiter, where the property has the verdict v: the scope's verdict, or what stands so far.
    pub(crate) fn absorb(&self, v: Verdict) -> ControlFlow<Verdict, Verdict>
        ensures { result ≡ absorbed self.now.scoping.pick self.now.test self.now.lowest self.now.verdict v }
    {
        let PlacesRow {
            test,
            lowest,
            verdict: so_far,
            ..
        } = *self;
        match (self.scoping.pick, test, v) {
            (_, Verdict::Fails, _) => Continue(so_far),
            (Pick::First, Verdict::Holds, v) => Break(close(lowest, v)),
            (Pick::First, Verdict::Open(_), Verdict::Holds) => Continue(so_far),
            (Pick::First, Verdict::Open(_), v) => Break(close(lowest, v)),
            (Pick::Each, Verdict::Holds, Verdict::Fails) => Break(Verdict::Fails),
            (Pick::Each, Verdict::Holds, v) => Continue(first_of(so_far, v)),
            (Pick::Each, Verdict::Open(_), v) => Continue(first_of(so_far, close(lowest, v))),
            (Pick::Last, Verdict::Holds, v) => Break(close(lowest, first_of(v, so_far))),
            (Pick::Last, Verdict::Open(_), v) => Continue(first_of(v, so_far)),
        }
    }

    // The scope's verdict, once all its delimiters are tried.
    pub(crate) fn ending(&self) -> Verdict
        ensures { result ≡ closed self.now.lowest self.now.verdict }
    {
        close(self.lowest, self.verdict)
    }
}
