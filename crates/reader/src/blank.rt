// S-4: how many sectors of a hole are blank.
ghost use Rattle.std.specs.Prelude.{◌≡◌, true};
ghost use Rattle.medium.specs.Sector.{sectors_of};
ghost use Rattle.handles.specs.Handles.{store_ok};
ghost use Rattle.reader.specs.Reader.{reader_ok};
ghost use Rattle.reader.specs.Blank.{blank_at, blanks_of, counted_of};

use super::{Found, Next, Reader};
use handles::Store;
use medium::Error;

impl Reader {
    // The sector of record `number` is blank. The record is one of the reader's chunk.
    #[tactic(auto, unfolding(crate::specs::Blank::blank_at))]
    fn blank_at(self, volume: &[u8], store: Store, number: u32) -> bool
        requires { (store_ok store (sectors_of volume.now) ≡ true) × (reader_ok self store ≡ true) }
        ensures { result ≡ blank_at volume.now store self number }
    {
        record::is_blank_at(volume, store, self.chunk, number % store.head.chunk)
    }

    // The blank sectors of records `from..to`.
    #[tactic(auto, using(crate::proofs::Blanks::count_start, crate::proofs::Blanks::count_next, crate::proofs::Blanks::count_end, crate::proofs::Blanks::count_small))]
    fn blanks(self, volume: &[u8], store: Store, from: u32, to: u32) -> u32
        requires { (store_ok store (sectors_of volume.now) ≡ true) × (reader_ok self store ≡ true) }
        ensures { result ≡ blanks_of volume.now store self from to }
    {
        let mut blank = 0;
        for number in from..to {
            blank += u32::from(self.blank_at(volume, store, number));
        }
        blank
    }

    // What was found, as it is answered; this is the reader behind it. The call has read every sector of a hole, so none can be refused here.
    #[tactic(auto, unfolding(crate::specs::Blank::counted_of))]
    pub(crate) fn counted(
        self,
        volume: &[u8],
        store: Store,
        found: Result<Found, Error>,
    ) -> Result<Next, Error>
        requires { (store_ok store (sectors_of volume.now) ≡ true) × (reader_ok self store ≡ true) }
        ensures { result ≡ counted_of volume.now store self found }
    {
        match found? {
            Found::Payload(length) => Ok(Next::Payload(length)),
            Found::Hole { from, to } => {
                let blank = self.blanks(volume, store, from, to);
                Ok(Next::Hole { from, to, blank })
            }
            Found::End => Ok(Next::End),
        }
    }
}
