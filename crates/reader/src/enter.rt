// The same reader, elsewhere in its file.
ghost use Rattle.std.specs.Prelude.{◌≡◌, true, ◌≤◌};
ghost use Rattle.medium.specs.Sector.{sectors_of};
ghost use Rattle.handles.specs.Handles.{store_ok};
ghost use Rattle.reader.specs.Reader.{moved_to, inside_of, enter_of, seek_of};
ghost use Rattle.reader.specs.Next.{arrive_of};

use super::ends::end_of;
use super::{Arrived, Reader};
use handles::Store;
use medium::{Error, Medium};
use table::{Link, Place};

impl Reader {
    // The reader at another record of its chunk, or past its chunks.
    #[tactic(auto, unfolding(crate::specs::Reader::moved_to))]
    pub(crate) fn moved_to(self, position: u32, index: u32) -> Reader
        ensures { result ≡ moved_to self position index }
    {
        Reader {
            position,
            index,
            ..self
        }
    }

    // The reader in another chunk of its file.
    #[tactic(auto, unfolding(crate::specs::Reader::inside_of))]
    fn inside(self, store: Store, position: u32, index: u32, chunk: u32, link: Link) -> Reader
        ensures { result ≡ inside_of store self position index chunk link }
    {
        let end = end_of(
            self.chunks,
            position,
            store.head.chunk,
            link.partial,
            link.records,
        );
        Reader {
            chunk,
            end,
            position,
            index,
            ..self
        }
    }

    // Enters the chunk at `position`, at `index`.
    #[tactic(auto, unfolding(crate::specs::Reader::enter_of, table::specs::Table::on_place))]
    fn enter(
        self,
        volume: &[u8],
        medium: Medium,
        store: Store,
        position: u32,
        index: u32,
    ) -> Result<Reader, Error>
        requires { (64 ≤ sectors_of volume.now) × (store.head.chunks ≤ 2048) }
        ensures { result ≡ enter_of volume.now medium store self position index }
    {
        let Place { chunk, link } = table::locate(volume, medium, store, self.slot, position)?;
        Ok(self.inside(store, position, index, chunk, link))
    }

    // Moves to record `record`.
    #[tactic(auto, unfolding(crate::specs::Reader::seek_of, le::specs::Choice::pick))]
    pub(crate) fn go_to(
        self,
        volume: &[u8],
        medium: Medium,
        store: Store,
        record: u32,
    ) -> Result<Reader, Error>
        requires { store_ok store (sectors_of volume.now) ≡ true }
        ensures { result ≡ seek_of volume.now medium store self «record» }
    {
        let position = record / store.head.chunk;
        let index = record % store.head.chunk;
        if self.chunks <= position {
            Ok(self.moved_to(self.chunks, 0))
        } else if position == self.position {
            Ok(self.moved_to(position, index))
        } else {
            self.enter(volume, medium, store, position, index)
        }
    }

    // Passes chunks that are read to their end.
    #[tactic(auto, using(crate::proofs::Moves::arriving_start, crate::proofs::Moves::arriving_here, crate::proofs::Moves::arriving_refused, crate::proofs::Moves::arriving_next, crate::proofs::Moves::arriving_end))]
    pub(crate) fn arrive(self, volume: &[u8], medium: Medium, store: Store) -> Arrived
        requires { (64 ≤ sectors_of volume.now) × (store.head.chunks ≤ 2048) }
        ensures { result ≡ arrive_of volume.now medium store self }
    {
        let mut reader = self;
        for position in self.position..self.chunks {
            if !reader.has_passed() {
                let more = reader.index != store.head.chunk;
                return Arrived {
                    reader,
                    more: Ok(more),
                };
            }
            match reader.enter(volume, medium, store, position + 1, 0) {
                Ok(entered) => reader = entered,
                Err(e) => {
                    return Arrived {
                        reader,
                        more: Err(e),
                    };
                }
            }
        }
        Arrived {
            reader,
            more: Ok(false),
        }
    }
}
