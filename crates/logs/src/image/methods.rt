// A log made over an image, and whether the image is taken.
ghost use Rattle.std.specs.Prelude.{◌≡◌};
ghost use Rattle.logs.specs.Checked.{image_bytes, image_answer, image_refusal_number};
ghost use Rattle.logs.specs.Exact.{Exact};
ghost use Rattle.logs.specs.Image.{image_events};

use crate::image::layout::taken;
use crate::image::{ImageLog, ImageRefusal};

// The number that a report gives.
impl From<ImageRefusal> for u8 {
    ghost from_gives = { λ refusal n. n ≡ image_refusal_number refusal };

    fn from(refusal: ImageRefusal) -> u8 {
        match refusal {
            ImageRefusal::Broken { .. } => 12,
        }
    }
}

impl ImageRefusal {
    // The same number as a method: who calls it need not list this crate.
    pub fn number(self) -> u8
        ensures { result ≡ image_refusal_number self }
    {
        self.into()
    }
}

impl<'a> ImageLog<'a> {
    // Checks the image, and keeps what was found.
    #[tactic(auto, using(crate::proofs::Holding::exact_stands))]
    pub fn new(bytes: &'a [u8]) -> ImageLog<'a>
        ensures image { image_bytes result ≡ bytes.now }
        ensures meaning { image_events (image_bytes result) ≡ image_events bytes.now }
        ensures exact { Exact }
    {
        ImageLog {
            bytes,
            taken: taken(bytes),
        }
    }

    // Whether the image is taken.
    pub fn check(&self) -> Result<(), ImageRefusal>
        ensures { result ≡ image_answer (image_bytes self.now) }
    {
        self.taken.map(|_| ())
    }
}
