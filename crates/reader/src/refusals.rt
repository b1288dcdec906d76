// The tests of refusals 3 and 11.
ghost use Rattle.std.specs.Prelude.{◌≡◌};
ghost use Rattle.reader.specs.Reader.{reader_ok};
ghost use Rattle.reader.specs.Calls.{usable_of};
ghost use Rattle.reader.specs.Upto.{readable_of};

use super::Reader;
use handles::Store;
use medium::Error;

impl Reader {
    // Refusal 3 on a reader, beside a store value.
    #[tactic(auto, unfolding(crate::specs::Reader::reader_ok))]
    pub fn handle_ok(self, store: Store) -> bool
        ensures { result ≡ reader_ok self store }
    {
        self.slot < 64
            && self.id != 0
            && (1..=2048).contains(&self.chunks)
            && self.chunk < store.head.chunks
            && self.position <= self.chunks
            && self.index <= store.head.chunk
            && self.end_ok(store)
    }

    // Refusals 3 and 11.
    #[tactic(auto, unfolding(crate::specs::Calls::usable_of, le::specs::Choice::pick))]
    pub(crate) fn check(self, volume: &[u8], store: Store) -> Result<(), Error>
        ensures { result ≡ usable_of volume.now store self }
    {
        if !(store.handle_ok(medium::sectors(volume)) && self.handle_ok(store)) {
            Err(Error::Handle)
        } else if self.store == store.head.id && self.generation == store.head.generation {
            Ok(())
        } else {
            Err(Error::Stale)
        }
    }

    // Refusals 2, 3 and 11 of a call that gives a payload, into an output of this length.
    #[tactic(auto, unfolding(crate::specs::Upto::readable_of, le::specs::Choice::pick))]
    pub(crate) fn may_read(self, volume: &[u8], store: Store, room: usize) -> Result<(), Error>
        ensures { result ≡ readable_of room volume.now store self }
    {
        if room < 486 {
            Err(Error::Range)
        } else {
            self.check(volume, store)
        }
    }
}
