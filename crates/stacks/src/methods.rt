// What a stack holds, the newest item first, and for how many items it has room.
ghost use Rattle.std.specs.Prelude.{◌≡◌, [], length};
ghost use Rattle.lists.specs.Pushing.{pushed};
ghost use Rattle.stacks.specs.Stacks.{held, room, with_item, head_of, tail_of};

use crate::Stack;
use lists::Full;

impl<'a, T: Copy> Stack<'a, T> {
    // An empty stack. It may write to any of the slots.
    pub fn new(slots: &'a mut [T]) -> Stack<'a, T>
        ensures items { held result ≡ [] }
        ensures space { room result ≡ length slots.old }
    {
        Stack { slots, used: 0 }
    }

    // Puts an item on top, if there is room. A full stack stays as it was.
    pub fn push(&mut self, item: T) -> Result<(), Full>
        ensures answer { result ≡ pushed (room self.old) (held self.old) }
        ensures items { held self.new ≡ with_item (room self.old) item (held self.old) }
        ensures space { room self.new ≡ room self.old }
    {
        if self.used == self.slots.len() {
            return Err(Full);
        }
        self.slots[self.used] = item;
        self.used += 1;
        Ok(())
    }

    // Takes the newest item off, if there is one.
    pub fn pop(&mut self) -> Option<T>
        ensures answer { result ≡ head_of (held self.old) }
        ensures items { held self.new ≡ tail_of (held self.old) }
        ensures space { room self.new ≡ room self.old }
    {
        self.used = self.used.checked_sub(1)?;
        Some(self.slots[self.used])
    }
}
