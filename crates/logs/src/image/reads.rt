// An image reads as its events.
ghost use Rattle.std.specs.Prelude.{length};
ghost use Rattle.logs.specs.Checked.{image_bytes};
ghost use Rattle.logs.specs.Image.{image_events};
ghost use Rattle.logs.specs.ImageLaws.{image_lawful};

use crate::event::Event;
use crate::image::ImageLog;
use crate::image::layout::Image;
use crate::log::ReadingLog;

impl<'a> ReadingLog for ImageLog<'a> {
    ghost events = { λ log. image_events (image_bytes log) };

    ghost bound = { λ log. length (image_events (image_bytes log)) };

    ghost laws = { λ log. image_lawful (image_bytes log) log.few };

    #[tactic(auto, using(crate::proofs::Taken::taken_length))]
    fn len(&self) -> u16 {
        self.taken.unwrap_or(0)
    }

    fn limit(&self) -> u16 {
        self.len()
    }

    fn get(&self, place: u16) -> Option<Event> {
        let count = self.len();
        if place < count {
            let image = Image {
                bytes: self.bytes,
                count,
            };
            return Some(image.at(place).event());
        }
        None
    }
}
