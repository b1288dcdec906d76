// The tests of refusals 3 and 11.
ghost use Rattle.std.specs.Prelude.{◌≡◌, ◌&&◌, leb};
ghost use Rattle.names.specs.Names.{dir_ok};
ghost use Rattle.append.specs.Appender.{dir_bytes, tail_ok, is_closed, fill_ok, appender_ok, writes, live};
ghost use Rattle.append.specs.Calls.{may_write};

use super::{Appender, Dir, Tail};
use handles::{Store, Writer};
use medium::Error;

fn is_closed(tail: Tail) -> bool
    ensures { result ≡ is_closed tail }
{
    match tail {
        Tail::At(_) => false,
        Tail::Reopened(_) => false,
        Tail::Closed => true,
    }
}

fn tail_ok(tail: Tail, size: u32) -> bool
    ensures { result ≡ tail_ok tail size }
{
    match tail {
        Tail::At(n) => n <= size,
        Tail::Reopened(n) => (1 <= n) & (n < size),
        Tail::Closed => true,
    }
}

// A full buffer is written at once, unless an error closed the appender.
fn fill_ok(fill: usize, tail: Tail) -> bool
    ensures { result ≡ fill_ok fill tail }
{
    (fill < 486) | ((fill == 486) & is_closed(tail))
}

fn dir_ok(dir: Dir) -> bool
    ensures { result ≡ (leb dir.length 40 && dir_ok (dir_bytes dir)) }
{
    let n = dir.length;
    if n > 40 {
        return false;
    }
    let bytes = dir.bytes;
    names::dir_ok(&bytes[0..n])
}

#[tactic(auto, unfolding(crate::specs::Appender::writes))]
fn writes(writer: Option<Writer>, token: u32) -> bool
    ensures { result ≡ writes writer token }
{
    writer.is_some_and(|open| open.token == token)
}

impl Appender {
    // Refusal 3 on an appender, beside a store value.
    pub fn handle_ok(self, store: Store) -> bool
        ensures { result ≡ appender_ok self store }
    {
        let tail = self.tail;
        let dir = self.dir;
        let fine = dir_ok(dir);
        (self.slot < 64)
            & ((self.id != 0)
                & ((self.chunk < store.head.chunks)
                    & ((self.position <= 2047)
                        & (fill_ok(self.fill, tail)
                            & (tail_ok(tail, store.head.chunk) & (!self.rolls | fine))))))
    }

    // It is the appender that the store opened last, and no error closed it.
    pub fn is_live(self, store: Store) -> bool
        ensures { result ≡ live store self }
    {
        let tail = self.tail;
        let writer = store.writer;
        writes(writer, self.token) & !is_closed(tail)
    }

    // The refusals before the work.
    pub(crate) fn check(self, volume: &[u8], store: Store) -> Result<(), Error>
        ensures { result ≡ may_write volume.now store self }
    {
        let held = store.handle_ok(medium::sectors(volume));
        let fine = self.handle_ok(store);
        if !(held & fine) {
            return Err(Error::Handle);
        }
        if self.is_live(store) {
            return Ok(());
        }
        Err(Error::Stale)
    }
}
