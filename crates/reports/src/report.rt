// A sheet and the image of a log, read and judged.
ghost use Rattle.std.specs.Prelude.{◌≡◌};
ghost use Rattle.reports.specs.Reports.{report_answer, told};

use crate::input::{InputRefusal, check_input, split};
use crate::judged::{Verdicts, WorkingRows, judge_all};
use logs::image::ImageLog;
use logs::log::ReadingLog;
use rules::sheet::Sheet;

// The verdicts of all rules of an input, or why nothing is judged.
pub fn report(bytes: &[u8], work: &mut WorkingRows) -> Result<Verdicts, InputRefusal>
    ensures { told result ≡ report_answer bytes.now }
{
    let (sheet_bytes, image_bytes) = split(bytes);
    let mut sheet = Sheet::new();
    let inspected = sheet.inspect(sheet_bytes);
    let log = ImageLog::new(image_bytes);
    check_input(bytes.len(), inspected, log.check())?;
    Ok(judge_all(&log, &sheet, work))
}
