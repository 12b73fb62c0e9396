// The answers of tests, by recursion over their rows.
ghost use Rattle.std.specs.Prelude.{◌≡◌};
ghost use Rattle.rules.specs.Trees.{Test, Begins, test_rows};
ghost use Rattle.meaning.specs.Terms.{related, compared, answer_of};
ghost use Rattle.judging.specs.Answers.{TestAt};

use crate::combine::join;
use crate::question::Question;
use meaning::verdict::{Origin, Verdict};
use rules::row::{Relation, Row};

fn relate(relation: Relation, x: i32, y: i32) -> bool
    ensures { result ≡ related relation x y }
{
    match relation {
        Relation::Equal => x == y,
        Relation::Less => x < y,
        Relation::AtMost => x <= y,
    }
}

fn compare(
    relation: Relation,
    x: Result<i32, Origin>,
    y: Result<i32, Origin>,
) -> Result<bool, Origin>
    ensures { answer_of result ≡ compared relation x y }
{
    Ok(relate(relation, x?, y?))
}

impl Question<'_> {
    // The answer of the test whose rows begin at `at`, and the row behind it.
    pub(crate) fn test(&self, at: usize) -> (Verdict, usize)
        requires { (t : Test) × Begins self.now.rows.now at (test_rows t) }
        ensures { (t : Test) → Begins self.now.rows.now at (test_rows t) → TestAt self.now.known.now self.now.place at t result }
    {
        match self.row(at) {
            Row::True => (Verdict::Holds, at + 1),
            Row::NotTest => {
                let (x, next) = self.test(at + 1);
                (x.negate(), next)
            }
            Row::Join { junction } => {
                let (x, mid) = self.test(at + 1);
                let (y, next) = self.test(mid);
                (join(junction, x, y), next)
            }
            Row::Compare { relation } => {
                let (x, mid) = self.term(at + 1);
                let (y, next) = self.term(mid);
                (compare(relation, x, y).into(), next)
            }
            _ => unreachable!(),
        }
    }
}
