// A log over the bytes of an image.
ghost use Rattle.std.specs.Prelude.{◌≡◌, ◌≤◌, length};
ghost use Rattle.std.specs.Coded.{Coded-set};
ghost use Rattle.logs.specs.Lawful.{most_events};
ghost use Rattle.logs.specs.Image.{image_events};
ghost use Rattle.logs.specs.Taken.{image_taken};

// An image that is checked. It reads as its events, or as none if it is refused.
#[derive(Clone, Copy)]
pub struct ImageLog<'a> {
    bytes: &'a [u8],
    // How many events it has, or why it is refused.
    taken: Result<u16, ImageRefusal>,
    ghost found: { taken ≡ image_taken bytes.now } by { Coded-set taken-code taken (image_taken bytes.now) },
    ghost few: { length (image_events bytes.now) ≤ most_events },
}

// Why an image is not taken.
#[derive(Clone, Copy, PartialEq, Eq, Debug)]
pub enum ImageRefusal {
    // The lowest bad event, or 65535 if the sizes are wrong.
    Broken { event: u16 },
}

mod layout;
mod methods;
pub mod reads;
