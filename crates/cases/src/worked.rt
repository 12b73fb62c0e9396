// Worked cases: rules over a small log, and what is said of them.
ghost use Rattle.std.specs.Prelude.{◌≡◌, length};
ghost use Rattle.cases.specs.Worked.{table, Stand};

// How many cases there are. Each rule has the verdict that is written for it.
pub fn worked_cases() -> u8
    ensures count { result ≡ length table }
    ensures stand { Stand }
{
    18
}
