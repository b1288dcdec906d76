// S-1: a reader up to a record number.
ghost use Rattle.std.specs.Prelude.{◌≡◌, true, false, ◌≤◌, ◌<◌, length};
ghost use Rattle.medium.specs.Sector.{sectors_of};
ghost use Rattle.handles.specs.Handles.{store_ok};
ghost use Rattle.reader.specs.Reader.{reader_ok};
ghost use Rattle.reader.specs.Upto.{stands_at, is_given, cut_upto, next_upto, upto_answer, below_call};

use super::{Arrived, Found, Reader, Taken, Upto, UptoRead};
use handles::Store;
use medium::Medium;

impl Reader {
    // The number of the record that comes next.
    #[tactic(auto, unfolding(crate::specs::Upto::stands_at))]
    fn stands_at(self, store: Store) -> u32
        requires { (store.head.chunk ≤ 512) × (reader_ok self store ≡ true) }
        ensures { result ≡ stands_at store self }
    {
        record::number_at(self.position, store.head.chunk, self.index)
    }

    // All below the limit was given, where there is a limit.
    #[tactic(auto, unfolding(crate::specs::Upto::is_given))]
    fn is_given(self, store: Store, limit: Option<u32>) -> bool
        requires { (store.head.chunk ≤ 512) × (reader_ok self store ≡ true) }
        ensures { result ≡ is_given limit (stands_at store self) }
    {
        let number = self.stands_at(store);
        limit.is_some_and(|limit| limit <= number)
    }

    // What this reader took, a hole ending at the limit.
    #[tactic(auto, unfolding(crate::specs::Upto::cut_upto, crate::specs::Upto::cut_at, le::specs::Choice::pick))]
    fn cut(self, store: Store, limit: Option<u32>, taken: Taken) -> Taken
        requires { (store.head.chunk ≤ 512) × (reader_ok self store ≡ true) × (is_given limit (stands_at store self) ≡ false) }
        ensures { result ≡ cut_upto limit store self taken }
    {
        match (limit, taken.next) {
            (Some(limit), Ok(Found::Hole { from, to })) if limit < to => {
                let base = record::number_at(self.position, store.head.chunk, 0);
                Taken {
                    next: Ok(Found::Hole { from, to: limit }),
                    reader: self.moved_to(self.position, limit - base),
                }
            }
            _ => taken,
        }
    }

    // What `read` does for a reader that passes.
    #[tactic(auto, using(crate::proofs::Cuts::upto_given, crate::proofs::Cuts::upto_refused, crate::proofs::Cuts::upto_end, crate::proofs::Cuts::upto_passed, crate::proofs::Cuts::upto_taken))]
    pub(crate) fn advance(
        self,
        volume: &[u8],
        medium: Medium,
        store: Store,
        limit: Option<u32>,
        out: &mut [u8],
    ) -> Taken
        requires { (store_ok store (sectors_of volume.now) ≡ true) × (reader_ok self store ≡ true) × (486 ≤ length out.old) }
        ensures { (out.new ≡ (next_upto limit volume.now medium store self out.old).out)
            × (result ≡ (next_upto limit volume.now medium store self out.old).ans) }
    {
        if self.is_given(store, limit) {
            return Taken {
                next: Ok(Found::End),
                reader: self,
            };
        }
        let Arrived { reader, more } = self.arrive(volume, medium, store);
        match more {
            Err(e) => Taken {
                next: Err(e),
                reader,
            },
            Ok(more) => {
                let given = reader.is_given(store, limit);
                if more && !given {
                    let taken = reader.take(volume, medium, store, out);
                    reader.cut(store, limit, taken)
                } else {
                    Taken {
                        next: Ok(Found::End),
                        reader,
                    }
                }
            }
        }
    }
}

impl Upto {
    // As a reader's `next`, up to the limit.
    pub fn next(self, volume: &[u8], medium: Medium, store: Store, out: &mut [u8]) -> UptoRead
        ensures { upto_answer result out.new ≡ below_call volume.now medium store self out.old }
    {
        let read = self
            .reader
            .read(volume, medium, store, Some(self.limit), out);
        UptoRead {
            next: read.next,
            upto: Upto {
                reader: read.reader,
                ..self
            },
            medium: read.medium,
        }
    }
}
