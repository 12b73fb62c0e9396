// Every rule of a sheet judged over a log.
ghost use Rattle.std.specs.Prelude.{◌≡◌};
ghost use Rattle.lists.specs.ShortLists.{items};
ghost use Rattle.rules.specs.Sheets.{held as sheet_held};
ghost use Rattle.reports.specs.Judged.{verdicts_of};

use judging::judge::judge;
use judging::working::JudgingRow;
use lists::ShortList;
use logs::log::ReadingLog;
use meaning::verdict::Verdict;
use rules::limits::{MOST_ROWS, MOST_RULES};
use rules::sheet::Sheet;

// As many working rows, and as many verdicts, as any sheet can need.
pub type WorkingRows = [JudgingRow; MOST_ROWS];

pub type Verdicts = ShortList<Verdict, MOST_RULES>;

// The verdicts of all rules, in the order of the sheet.
pub fn judge_all<L: ReadingLog>(log: &L, sheet: &Sheet, work: &mut WorkingRows) -> Verdicts
    ensures { items result ≡ verdicts_of (L.events log.now) (sheet_held sheet.now) }
{
    let mut verdicts = ShortList::new(Verdict::Holds);
    for rule in 0..sheet.rules() {
        let verdict = judge(log, sheet, rule, work).unwrap();
        verdicts.push(verdict).unwrap();
    }
    verdicts
}
