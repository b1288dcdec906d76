// Where a chunk of a file ends: at its records, or for the file's last chunk nowhere before the size.
ghost use Rattle.std.specs.Prelude.{◌≡◌};
ghost use Rattle.reader.specs.Reader.{end_ok, end_of};
ghost use Rattle.reader.specs.Next.{passed_end, limit_of};

use super::Reader;
use handles::Store;

// The end of the chunk at `position` of a file of so many chunks.
#[tactic(auto, unfolding(crate::specs::Reader::end_of, le::specs::Choice::pick))]
pub(crate) fn end_of(
    chunks: u32,
    position: u32,
    size: u32,
    partial: bool,
    records: u32,
) -> Option<u32>
    ensures { result ≡ end_of chunks position size partial records }
{
    if (chunks as u64) <= (position as u64) + 1 {
        None
    } else if partial {
        Some(records)
    } else {
        Some(size)
    }
}

impl Reader {
    // A chunk that is not the last ends within a chunk.
    pub(crate) fn end_ok(self, store: Store) -> bool
        ensures { result ≡ end_ok self.end store.head.chunk }
    {
        self.end.is_none_or(|records| records <= store.head.chunk)
    }

    // A chunk other than the last ends at or before the reader's index.
    #[tactic(auto, unfolding(crate::specs::Next::passed_end))]
    pub(crate) fn has_passed(self) -> bool
        ensures { result ≡ passed_end self.end self.index }
    {
        self.end.is_some_and(|records| records <= self.index)
    }

    // The index at which the reader's chunk ends.
    #[tactic(auto, unfolding(crate::specs::Next::limit_of))]
    pub(crate) fn limit(self, store: Store) -> u32
        ensures { result ≡ limit_of self.end store.head.chunk }
    {
        self.end.unwrap_or(store.head.chunk)
    }
}
