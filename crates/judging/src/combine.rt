// The connectives of rows, of properties and of tests.
ghost use Rattle.std.specs.Prelude.{◌≡◌};
ghost use Rattle.meaning.specs.Terms.{joined};
ghost use Rattle.meaning.specs.Verdicts.{connected};

use meaning::verdict::Verdict;
use rules::row::{Connective, Junction};

pub(crate) fn connect(connective: Connective, v: Verdict, w: Verdict) -> Verdict
    ensures { result ≡ connected connective v w }
{
    match connective {
        Connective::Or => v.or(w),
        Connective::And => v.and(w),
        Connective::Implies => v.negate().or(w),
    }
}

pub(crate) fn join(junction: Junction, v: Verdict, w: Verdict) -> Verdict
    ensures { result ≡ joined junction v w }
{
    match junction {
        Junction::And => v.and(w),
        Junction::Or => v.or(w),
    }
}
