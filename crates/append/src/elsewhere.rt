// The same appender, elsewhere: in another chunk, behind a record, or closed.
ghost use Rattle.std.specs.Prelude.{◌≡◌, ◌<◌};
ghost use Rattle.append.specs.Flush.{standing, moved_to, filed, closed_of};

use super::{Appender, Tail};

impl Appender {
    // In a chunk at a position, its next record by the tail, with so many bytes unwritten; the buffer's bytes stay.
    fn standing(self, chunk: u32, position: u32, tail: Tail, fill: usize) -> Appender
        ensures { result ≡ standing self chunk position tail fill self.buffer }
    {
        let buffer = self.buffer;
        let dir = self.dir;
        Appender {
            token: self.token,
            slot: self.slot,
            id: self.id,
            chunk,
            position,
            tail,
            fill,
            buffer,
            rolls: self.rolls,
            dir,
        }
    }

    // At the start of its next chunk.
    pub(crate) fn moved_to(self, chunk: u32) -> Appender
        requires { self.position < 32767 }
        ensures { result ≡ moved_to chunk self }
    {
        let start = Tail::At(0);
        self.standing(chunk, self.position + 1, start, self.fill)
    }

    // With record `index` of its chunk written.
    pub(crate) fn filed(self, index: u32) -> Appender
        requires { index < 512 }
        ensures { result ≡ filed index self }
    {
        let next = Tail::At(index + 1);
        self.standing(self.chunk, self.position, next, 0)
    }

    pub(crate) fn closed(self) -> Appender
        ensures { result ≡ closed_of self }
    {
        self.standing(self.chunk, self.position, Tail::Closed, self.fill)
    }
}
