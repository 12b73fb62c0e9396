// The events in the bytes of an image.
ghost use Rattle.std.specs.Prelude.{◌≡◌, ◌+◌, ◌*◌, ◌<◌, ◌≤◌, length, take, drop};
ghost use Rattle.logs.specs.Events.{slot_count};
ghost use Rattle.logs.specs.Image.{slot_width, body_width, event_width, body_place, slot_place, slot_at, slots_at, slot_laid, body_laid, time_held, held_at, good_event, lowest_bad};
ghost use Rattle.logs.specs.Checked.{refused_by};
ghost use Rattle.logs.specs.Taken.{image_taken};

use crate::event::{Event, SLOTS, Value};
use crate::image::ImageRefusal;

// The bytes of a slot, of a body, and of a time and a body.
const SLOT_WIDTH: usize = 6;

const BODY_WIDTH: usize = 4 + SLOT_WIDTH * SLOTS;

const EVENT_WIDTH: usize = 4 + BODY_WIDTH;

// The N bytes from a place on.
fn bytes_at<const N: usize>(bytes: &[u8], place: usize) -> [u8; N]
    requires { place + N ≤ length bytes.now }
    ensures { result ≡ take N (drop place bytes.now) }
{
    *bytes[place..place + N].as_array().unwrap()
}

// The bytes of a value, from a place on.
#[derive(Clone, Copy)]
struct Slot<'a> {
    bytes: &'a [u8],
    place: usize,
    ghost fits: { place + slot_width ≤ length bytes.now },
}

impl Slot<'_> {
    fn value(&self) -> Value
        ensures { result ≡ slot_at self.now.bytes.now self.now.place }
    {
        let code = self.bytes[self.place];
        if self.bytes[self.place + 1] == 1 {
            let number = i32::from_le_bytes(bytes_at(self.bytes, self.place + 2));
            Value::Read { code, number }
        } else {
            Value::Unread { code }
        }
    }

    fn is_laid(&self) -> bool
        ensures { result ≡ slot_laid self.now.bytes.now self.now.place }
    {
        let state = self.bytes[self.place + 1];
        state == 1 || (state == 0 && u32::from_le_bytes(bytes_at(self.bytes, self.place + 2)) == 0)
    }
}

// All of an event but its time, from a place on.
#[derive(Clone, Copy)]
struct Body<'a> {
    bytes: &'a [u8],
    place: usize,
    ghost fits: { place + body_width ≤ length bytes.now },
}

impl<'a> Body<'a> {
    fn slot(&self, k: usize) -> Slot<'a>
        requires { k < slot_count }
        ensures bytes { result.bytes.now ≡ self.now.bytes.now }
        ensures place { result.place ≡ slot_place self.now.place k }
    {
        Slot {
            bytes: self.bytes,
            place: self.place + 4 + SLOT_WIDTH * k,
        }
    }

    fn slots(&self) -> [Value; SLOTS]
        ensures { result ≡ slots_at self.now.bytes.now self.now.place }
    {
        std::array::from_fn(|k| self.slot(k).value())
    }

    fn is_laid(&self) -> bool
        ensures { result ≡ body_laid self.now.bytes.now self.now.place }
    {
        u16::from_le_bytes(bytes_at(self.bytes, self.place + 2)) == 0
            && (0..SLOTS).all(|k| self.slot(k).is_laid())
    }
}

// An image whose bytes are as many as its count says.
#[derive(Clone, Copy)]
pub(crate) struct Image<'a> {
    pub(crate) bytes: &'a [u8],
    pub(crate) count: u16,
    ghost whole: { length bytes.now ≡ 4 + event_width * count },
}

impl<'a> TryFrom<&'a [u8]> for Image<'a> {
    type Error = ImageRefusal;

    ghost use Rattle.logs.specs.ImageSizes.{SizesTell};

    ghost try_from_gives = { λ bytes image. SizesTell bytes.now image };

    fn try_from(bytes: &'a [u8]) -> Result<Image<'a>, ImageRefusal> {
        if bytes.len() >= 4 && u16::from_le_bytes(bytes_at(bytes, 2)) as usize == BODY_WIDTH {
            let count = u16::from_le_bytes(bytes_at(bytes, 0));
            if bytes.len() == 4 + EVENT_WIDTH * count as usize {
                return Ok(Image { bytes, count });
            }
        }
        Err(ImageRefusal::Broken { event: 65535 })
    }
}

impl<'a> Image<'a> {
    // The bytes of an event.
    pub(crate) fn at(&self, i: u16) -> EventBytes<'a>
        requires { i < self.now.count }
        ensures bytes { result.image.bytes.now ≡ self.now.bytes.now }
        ensures count { result.image.count ≡ self.now.count }
        ensures i { result.i ≡ i }
    {
        EventBytes { image: *self, i }
    }

    // Refuses the lowest event that is not good.
    fn check(&self) -> Result<(), ImageRefusal>
        ensures { result ≡ refused_by (lowest_bad self.now.bytes.now self.now.count 0 self.now.count) }
    {
        let mut former = 0;
        for i in 0..self.count {
            let bytes = self.at(i);
            let event = bytes.event();
            if !bytes.is_good(&event, former) {
                return Err(ImageRefusal::Broken { event: i });
            }
            former = event.time;
        }
        Ok(())
    }
}

// The bytes of one event of an image.
#[derive(Clone, Copy)]
pub(crate) struct EventBytes<'a> {
    image: Image<'a>,
    i: u16,
    ghost within: { i < image.count },
}

impl<'a> EventBytes<'a> {
    fn time(&self) -> u32
        ensures { result ≡ time_held self.now.image.bytes.now self.now.i }
    {
        u32::from_le_bytes(bytes_at(self.image.bytes, 4 + 4 * self.i as usize))
    }

    fn body(&self) -> Body<'a>
        ensures bytes { result.bytes.now ≡ self.now.image.bytes.now }
        ensures place { result.place ≡ body_place self.now.image.count self.now.i }
    {
        Body {
            bytes: self.image.bytes,
            place: 4 + 4 * self.image.count as usize + BODY_WIDTH * self.i as usize,
        }
    }

    pub(crate) fn event(&self) -> Event
        ensures { result ≡ held_at self.now.image.bytes.now self.now.image.count self.now.i }
    {
        let body = self.body();
        Event {
            time: self.time(),
            name: body.bytes[body.place],
            count: body.bytes[body.place + 1],
            slots: body.slots(),
        }
    }

    // Whether the event, as it is read here, is well laid, within its bounds, and not before the former time.
    fn is_good(&self, event: &Event, former: u32) -> bool
        ensures { result ≡ good_event self.now.image.bytes.now (body_place self.now.image.count self.now.i) former event.now }
    {
        self.body().is_laid() && event.in_bounds() && former <= event.time
    }
}

// How many events the bytes hold, or why they are not taken.
pub(crate) fn taken(bytes: &[u8]) -> Result<u16, ImageRefusal>
    ensures { result ≡ image_taken bytes.now }
{
    let image = Image::try_from(bytes)?;
    image.check()?;
    Ok(image.count)
}
