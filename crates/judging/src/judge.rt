// A rule of a sheet judged over a log.
ghost use Rattle.std.specs.Prelude.{◌≡◌, ◌≤◌, [], length};
ghost use Rattle.rules.specs.Limits.{most_rows};
ghost use Rattle.rules.specs.Sheets.{held as sheet_held};
ghost use Rattle.meaning.specs.Wording.{Wording};
ghost use Rattle.meaning.specs.Durations.{Contiguous};
ghost use Rattle.judging.specs.Judging.{judge_answer, judge_refusal_number};
ghost use Rattle.judging.specs.Machine.{judged_at, Standing};

use crate::matter::Matter;
use crate::working::JudgingRow;
use logs::log::ReadingLog;
use meaning::verdict::Verdict;
use rules::row::Row;
use rules::sheet::{ReachRefusal, Sheet};

// Why a rule is not judged.
#[derive(Clone, Copy, PartialEq, Eq, Debug)]
pub enum JudgeRefusal {
    NoSuchRule = 7,
    TooFewRows = 11,
}

impl From<ReachRefusal> for JudgeRefusal {
    ghost use Rattle.std.specs.Prelude.{◌≡◌};
    ghost use Rattle.judging.specs.declared.judge.JudgeRefusal.TheVariants.{NoSuchRule};

    ghost from_gives = { λ _ refusal. refusal ≡ NoSuchRule };

    fn from(refusal: ReachRefusal) -> JudgeRefusal {
        match refusal {
            ReachRefusal::NoSuchRule => JudgeRefusal::NoSuchRule,
        }
    }
}

// The number of a refusal in a report.
impl From<JudgeRefusal> for u8 {
    ghost from_gives = { λ refusal number. number ≡ judge_refusal_number refusal };

    fn from(refusal: JudgeRefusal) -> u8 {
        refusal as u8
    }
}

impl JudgeRefusal {
    // The same number as a method: who calls it need not list this crate.
    pub fn number(self) -> u8
        ensures { result ≡ judge_refusal_number self }
    {
        self.into()
    }
}

// The verdict of a rule over the whole log. The working rows may hold anything afterwards.
#[tactic(auto, using(meaning::proofs::Wording::wording, meaning::proofs::Durations::contiguous))]
pub fn judge<L: ReadingLog>(
    log: &L,
    sheet: &Sheet,
    rule: usize,
    work: &mut [JudgingRow],
) -> Result<Verdict, JudgeRefusal>
    ensures answer { result ≡ judge_answer (L.events log.now) (sheet_held sheet.now) rule (length work.old) }
    ensures wording { Wording }
    ensures contiguous { Contiguous }
{
    let at = sheet.start(rule).ok_or(JudgeRefusal::NoSuchRule)?;
    let reach = sheet.reach(rule)?;
    if work.len() < reach {
        return Err(JudgeRefusal::TooFewRows);
    }
    Ok(verdict_at(log, sheet.rows(), at, work))
}

// The verdict of the property at a row, over the whole log. What a judging works with is laid out here, and not
// where it may be refused: a function lays out all its values when it is entered.
fn verdict_at<L: ReadingLog>(log: &L, rows: &[Row], at: usize, work: &mut [JudgingRow]) -> Verdict
    requires few { length rows.now ≤ most_rows }
    requires stands { Standing rows.now 0 at 0 (length work.old) }
    ensures { result ≡ judged_at (L.events log.now) rows.now [] (0, length (L.events log.now)) at }
{
    Matter::new(log, rows).run(at, work)
}
