// The answer of a comparison as a verdict.
ghost use Rattle.std.specs.Prelude.{◌≡◌};
ghost use Rattle.meaning.specs.Terms.{answer_of};

use crate::verdict::{Origin, Verdict};

impl From<Result<bool, Origin>> for Verdict {
    ghost from_gives = { λ answer verdict. verdict ≡ answer_of answer };

    fn from(answer: Result<bool, Origin>) -> Verdict {
        match answer {
            Ok(true) => Verdict::Holds,
            Ok(false) => Verdict::Fails,
            Err(origin) => Verdict::Open(origin),
        }
    }
}
