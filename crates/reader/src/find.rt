// What a reader finds next: a record, a hole, or the end.
ghost use Rattle.std.specs.Prelude.{◌≡◌, true, ◌≤◌, ◌<◌, length};
ghost use Rattle.medium.specs.Sector.{sectors_of};
ghost use Rattle.handles.specs.Handles.{store_ok};
ghost use Rattle.reader.specs.Reader.{reader_ok};
ghost use Rattle.reader.specs.Next.{limit_of, search_of, hole_of, take_of};

use super::{Found, Reader, Taken};
use handles::Store;
use medium::{Error, Medium};

impl Reader {
    // The first valid record of the chunk from `after` on, or `limit`.
    fn search(
        self,
        volume: &[u8],
        medium: Medium,
        store: Store,
        after: u32,
        limit: u32,
    ) -> Result<u32, Error>
        requires { (store_ok store (sectors_of volume.now) ≡ true) × (reader_ok self store ≡ true) × (after ≤ limit) × (limit ≤ store.head.chunk) }
        ensures { result ≡ search_of volume.now medium store self after limit }
    {
        for index in after..limit {
            let number = record::number_at(self.position, store.head.chunk, index);
            let read = record::record(volume, medium, store, self.id, self.chunk, index, number)?;
            if read.is_some() {
                return Ok(index);
            }
        }
        Ok(limit)
    }

    // Records are written once and in order: one that reads back after this one means this one was lost.
    #[tactic(auto, unfolding(crate::specs::Next::hole_of, crate::specs::Next::is_last, record::specs::Record::on_result, le::specs::Choice::pick))]
    fn hole(self, volume: &[u8], medium: Medium, store: Store) -> Taken
        requires { (store_ok store (sectors_of volume.now) ≡ true) × (reader_ok self store ≡ true)
            × (self.index < limit_of self.end store.head.chunk) }
        ensures { result ≡ hole_of volume.now medium store self }
    {
        let limit = self.limit(store);
        match self.search(volume, medium, store, self.index + 1, limit) {
            Err(e) => Taken {
                next: Err(e),
                reader: self,
            },
            Ok(to) if self.end.is_none() && to == limit => Taken {
                next: Ok(Found::End),
                reader: self,
            },
            Ok(to) => {
                let from = record::number_at(self.position, store.head.chunk, self.index);
                let past = record::number_at(self.position, store.head.chunk, to);
                Taken {
                    next: Ok(Found::Hole { from, to: past }),
                    reader: self.moved_to(self.position, to),
                }
            }
        }
    }

    // The record at the reader's index, or the hole or the end there.
    #[tactic(auto, using(crate::proofs::Finds::take_placed, crate::proofs::Finds::take_length, crate::proofs::Finds::take_refused, crate::proofs::Finds::take_hole))]
    pub(crate) fn take(self, volume: &[u8], medium: Medium, store: Store, out: &mut [u8]) -> Taken
        requires { (store_ok store (sectors_of volume.now) ≡ true) × (reader_ok self store ≡ true)
            × (self.index < limit_of self.end store.head.chunk) × (486 ≤ length out.old) }
        ensures { (out.new ≡ (take_of volume.now medium store self out.old).out)
            × (result ≡ (take_of volume.now medium store self out.old).ans) }
    {
        let number = record::number_at(self.position, store.head.chunk, self.index);
        match record::record(
            volume, medium, store, self.id, self.chunk, self.index, number,
        ) {
            Err(e) => Taken {
                next: Err(e),
                reader: self,
            },
            Ok(Some(length)) => {
                let start = 512 * (record::data(store, self.chunk, self.index) as usize) + 22;
                runs::put_bytes(out, 0, &volume[start..start + length]);
                Taken {
                    next: Ok(Found::Payload(length)),
                    reader: self.moved_to(self.position, self.index + 1),
                }
            }
            Ok(None) => self.hole(volume, medium, store),
        }
    }
}
