// The bytes that a program reads: a sheet, and the image of a log behind it.
ghost use Rattle.std.specs.Prelude.{◌≡◌, ◌≤◌, length, take, drop};
ghost use Rattle.reports.specs.declared.input.InputRefusal.TheVariants.{Sheet, Image};
ghost use Rattle.reports.specs.Input.{sheet_end, input_answer, input_refusal_number, input_carried};

use logs::image::ImageRefusal;
use rules::sheet::InspectRefusal;

// A sheet of 64 rows and an image of 2,000 events.
pub const MOST_BYTES: usize = 64_520;

// Why nothing is judged.
#[derive(Clone, Copy, PartialEq, Eq, Debug)]
pub enum InputRefusal {
    // There are more than MOST_BYTES bytes.
    TooLong,
    Sheet(InspectRefusal),
    Image(ImageRefusal),
}

impl From<InspectRefusal> for InputRefusal {
    ghost from_gives = { λ refusal input. input ≡ Sheet refusal };

    fn from(sheet: InspectRefusal) -> InputRefusal {
        InputRefusal::Sheet(sheet)
    }
}

impl From<ImageRefusal> for InputRefusal {
    ghost from_gives = { λ refusal input. input ≡ Image refusal };

    fn from(image: ImageRefusal) -> InputRefusal {
        InputRefusal::Image(image)
    }
}

impl From<InputRefusal> for u8 {
    ghost from_gives = { λ refusal number. number ≡ input_refusal_number refusal };

    fn from(refusal: InputRefusal) -> u8 {
        match refusal {
            InputRefusal::TooLong => 13,
            InputRefusal::Sheet(refusal) => refusal.into(),
            InputRefusal::Image(refusal) => refusal.into(),
        }
    }
}

impl InputRefusal {
    // The same number as a method: who calls it need not list this crate.
    pub fn number(self) -> u8
        ensures { result ≡ input_refusal_number self }
    {
        self.into()
    }

    // The row or the event that is refused.
    pub fn carried(self) -> Option<usize>
        ensures { result ≡ input_carried self }
    {
        match self {
            InputRefusal::TooLong => None,
            InputRefusal::Sheet(InspectRefusal::Layout { row }) => Some(row),
            InputRefusal::Image(ImageRefusal::Broken { event }) => Some(event as usize),
        }
    }
}

// How many bytes the sheet has: its own count of rows says so.
fn sheet_end(bytes: &[u8]) -> usize
    ensures same { result ≡ sheet_end bytes.now }
    ensures within { result ≤ length bytes.now }
{
    if bytes.len() < 4 {
        return bytes.len();
    }
    let rows = u16::from_le_bytes([bytes[2], bytes[3]]);
    (4 + 8 * rows as usize).min(bytes.len())
}

// The bytes of the sheet, and those of the image.
pub fn split(bytes: &[u8]) -> (&[u8], &[u8])
    ensures sheet { result.0.now ≡ take (sheet_end bytes.now) bytes.now }
    ensures image { result.1.now ≡ drop (sheet_end bytes.now) bytes.now }
{
    bytes.split_at(sheet_end(bytes))
}

// Refuses an input of so many bytes if it is too long, else if its sheet is refused, else if its image is.
pub fn check_input(
    length: usize,
    inspected: Result<(), InspectRefusal>,
    checked: Result<(), ImageRefusal>,
) -> Result<(), InputRefusal>
    ensures { result ≡ input_answer length inspected checked }
{
    if length > MOST_BYTES {
        return Err(InputRefusal::TooLong);
    }
    inspected?;
    checked?;
    Ok(())
}
