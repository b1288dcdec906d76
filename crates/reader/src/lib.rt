// A reader of one file's records: what the Rust has as `Reader`. It goes in by value and comes back advanced.
#![tactic(auto)]

mod blank;
mod ends;
mod enter;
mod find;
mod limits;
mod refusals;

ghost use Rattle.std.specs.Prelude.{◌≡◌, Err, length};
ghost use Rattle.medium.specs.Refusal.{on_done};
ghost use Rattle.reader.specs.Reader.{no_reader, start_of, seek_of};
ghost use Rattle.reader.specs.Calls.{usable_of, read_answer, next_call, sought_answer, seek_call, numbered_answer, record_call};
ghost use Rattle.reader.specs.Upto.{read_call};

use ends::end_of;
use handles::Store;
use medium::{Error, Medium};
use table::ChainParts;

// A sequential reader of one file's records.
#[derive(Clone, Copy)]
pub struct Reader {
    pub store: u64,
    pub generation: u64,
    pub slot: usize,
    pub id: u32,
    pub chunks: u32,
    pub chunk: u32,
    // The records of the chunk where it is not the file's last.
    pub end: Option<u32>,
    pub position: u32,
    pub index: u32,
}

// What stands at a reader's place. A hole is counted once its end is known, which a limit may have cut, so only `Next` has its blank sectors.
#[derive(Clone, Copy)]
pub enum Found {
    // A record of this many payload bytes, copied to the output.
    Payload(usize),
    // Records `from..to` were written and no longer read back. The reader goes on at record `to`.
    Hole { from: u32, to: u32 },
    // No record follows yet.
    End,
}

// What `next` answers: what was found, and of a hole how many of its sectors are blank (S-4).
#[derive(Clone, Copy)]
pub enum Next {
    Payload(usize),
    Hole { from: u32, to: u32, blank: u32 },
    End,
}

#[derive(Clone, Copy)]
pub struct Read {
    pub next: Result<Next, Error>,
    pub reader: Reader,
    pub medium: Medium,
}

// S-1: a reader, and the record number at which it ends.
#[derive(Clone, Copy)]
pub struct Upto {
    pub reader: Reader,
    pub limit: u32,
}

#[derive(Clone, Copy)]
pub struct UptoRead {
    pub next: Result<Next, Error>,
    pub upto: Upto,
    pub medium: Medium,
}

#[derive(Clone, Copy)]
pub struct Sought {
    pub outcome: Result<(), Error>,
    pub reader: Reader,
    pub medium: Medium,
}

// What a reader found, and the reader behind it.
#[derive(Clone, Copy)]
pub struct Taken {
    pub next: Result<Found, Error>,
    pub reader: Reader,
}

// A reader that stands in a chunk it has not passed, or past its chunks. `more`: a record may stand at its index; or why the reader came no further.
#[derive(Clone, Copy)]
pub struct Arrived {
    pub reader: Reader,
    pub more: Result<bool, Error>,
}

// What a refused call holds in the place of a reader: a value that no call accepts.
#[tactic(auto, unfolding(crate::specs::Reader::no_reader))]
pub fn no_reader() -> Reader
    ensures { result ≡ no_reader }
{
    Reader {
        store: 0,
        generation: 0,
        slot: 0,
        id: 0,
        chunks: 0,
        chunk: 0,
        end: None,
        position: 0,
        index: 0,
    }
}

impl Reader {
    // A reader of the file `id` in `slot` from its first record.
    #[tactic(auto, unfolding(crate::specs::Reader::start_of))]
    pub fn start(store: Store, slot: usize, id: u32, chain: ChainParts) -> Reader
        ensures { result ≡ start_of store slot id chain }
    {
        let end = end_of(
            chain.count,
            0,
            store.head.chunk,
            chain.partial,
            chain.records,
        );
        Reader {
            store: store.head.id,
            generation: store.head.generation,
            slot,
            id,
            chunks: chain.count,
            chunk: chain.first,
            end,
            position: 0,
            index: 0,
        }
    }

    // The number of the record that `next` reads. Any reader may be asked, so the sum is made in 64 bits.
    #[tactic(auto, unfolding(crate::specs::Calls::record_call, record::specs::Record::number_at, le::specs::Choice::pick))]
    pub fn record(self, store: Store) -> Result<u32, Error>
        ensures { numbered_answer result ≡ record_call store self }
    {
        let number = (self.position as u64) * (store.head.chunk as u64) + (self.index as u64);
        u32::try_from(number).map_err(|_| Error::Handle)
    }

    // Continue at record `record`; past the end, `next` finds none.
    #[tactic(auto, using(crate::proofs::Offers::seek_refused, crate::proofs::Offers::seek_done))]
    pub fn seek(self, volume: &[u8], medium: Medium, store: Store, record: u32) -> Sought
        ensures { sought_answer result ≡ seek_call volume.now medium store self «record» }
    {
        match self.sought(volume, medium, store, record) {
            Ok(reader) => Sought {
                outcome: Ok(()),
                reader,
                medium,
            },
            Err(e) => Sought {
                outcome: Err(e),
                reader: self,
                medium,
            },
        }
    }

    // The reader at record `record`.
    #[tactic(auto, using(crate::proofs::Facts::usable_facts), unfolding(medium::specs::Refusal::on_done))]
    fn sought(
        self,
        volume: &[u8],
        medium: Medium,
        store: Store,
        record: u32,
    ) -> Result<Reader, Error>
        ensures { result ≡ on_done (usable_of volume.now store self) (seek_of volume.now medium store self «record») Err }
    {
        self.check(volume, store)?;
        self.go_to(volume, medium, store, record)
    }

    // Copy the next record's payload to `out`, or report the lost records before it or the end of the file.
    pub fn next(self, volume: &[u8], medium: Medium, store: Store, out: &mut [u8]) -> Read
        ensures { read_answer result out.new ≡ next_call volume.now medium store self out.old }
    {
        self.read(volume, medium, store, None, out)
    }

    // What `next` does, up to a limit where there is one.
    pub(crate) fn read(
        self,
        volume: &[u8],
        medium: Medium,
        store: Store,
        limit: Option<u32>,
        out: &mut [u8],
    ) -> Read
        ensures { read_answer result out.new ≡ read_call limit volume.now medium store self out.old }
    {
        if let Err(e) = self.may_read(volume, store, out.len()) {
            return Read {
                next: Err(e),
                reader: self,
                medium,
            };
        }
        let taken = self.advance(volume, medium, store, limit, out);
        let next = taken.reader.counted(volume, store, taken.next);
        Read {
            next,
            reader: taken.reader,
            medium,
        }
    }
}
