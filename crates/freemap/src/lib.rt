// The map of free chunks (S-3): the search of its words by trailing zeros, the sum of their ones, and a bit put.
#![tactic(auto)]

ghost use Rattle.std.specs.Prelude.{◌≡◌, ◌*◌, ◌<◌, ◌≤◌, eqb, length};
ghost use Rattle.freemap.specs.Map.{unfit_of, full_of, put_of, first_from, chosen_of, ones_of, map_ok};

// A set bit for each free chunk. Where it is unfit no bit is set, and the table is walked instead.
// A flag and not an `Option`: an unfit map with a set bit can be handed in, and must be refused.
#[derive(Clone, Copy)]
pub struct FreeMap {
    pub fit: bool,
    pub words: [u64; 32],
}

// The unfit map, with no bit set.
pub fn unfit() -> FreeMap
    ensures { result ≡ unfit_of }
{
    FreeMap {
        fit: false,
        words: [0u64; 32],
    }
}

// The first set bit of the words from `from` on; 2,048 where there is none. By index: the place of the word is the answer.
fn first_word(words: [u64; 32], from: usize) -> u32
    ensures { result ≡ first_from words (64 * from) }
{
    for j in from..32 {
        let w = words[j];
        if w != 0 {
            return 64 * (j as u32) + w.trailing_zeros();
        }
    }
    2048
}

// The first set bit at or after `from`; 2,048 where there is none.
pub fn first_from(words: [u64; 32], from: u32) -> u32
    ensures { result ≡ first_from words from }
{
    if 2048 <= from {
        return 2048;
    }
    let j = (from / 64) as usize;
    let w = words[j] >> (from % 64);
    if w != 0 {
        return from + w.trailing_zeros();
    }
    first_word(words, j + 1)
}

// The first set bit at or after the cursor, going round; 2,048 where there is none.
pub fn choose(words: [u64; 32], cursor: u32) -> u32
    ensures { result ≡ chosen_of words cursor }
{
    let c = first_from(words, cursor);
    if c < 2048 { c } else { first_from(words, 0) }
}

// The number of set bits.
pub fn count(words: [u64; 32]) -> u32
    ensures { result ≡ ones_of words }
{
    let mut n: u32 = 0;
    for w in &words {
        n += w.count_ones();
    }
    n
}

// Bit `c` set where `free`, else cleared.
pub fn put(words: &mut [u64; 32], c: u32, free: bool)
    requires { c < 2048 }
    ensures { words.new ≡ put_of words.old c free }
{
    // as a slice: of its elements, unlike those behind a reference to an array, a proof is told that they are of 64 bits
    let all = &mut words[..];
    let j = (c / 64) as usize;
    let w = all[j];
    if ((w >> (c % 64)) % 2 == 1) == free {
        return;
    }
    all[j] = w ^ (1u64 << (c % 64));
}

// The map of a store all of whose chunks are free.
pub fn full(chunks: u32) -> FreeMap
    requires { chunks < 2049 }
    ensures { result ≡ full_of chunks }
{
    let mut words = [0u64; 32];
    for c in 0..chunks {
        put(&mut words, c, true);
    }
    FreeMap { fit: true, words }
}

// Whether no bit of the words from `from` on is set. Each is looked at, so that the compiler tests several at once.
fn none_after(words: &[u64], from: usize) -> bool
    requires { (length words.now ≡ 32) × (from ≤ 32) }
    ensures { result ≡ eqb (first_from words.now (64 * from)) 2048 }
{
    let mut none = true;
    for j in from..32 {
        none = none & (words[j] == 0);
    }
    none
}

// Whether no bit at or after `from` is set. The words are lent: every call tests its map, and a copy would cost it more than the test.
// Apart from `first_from`, which stops at the first word with a set bit: as one search, of words by value, it was slower.
fn none_from(words: &[u64], from: u32) -> bool
    requires { length words.now ≡ 32 }
    ensures { result ≡ eqb (first_from words.now from) 2048 }
{
    if 2048 <= from {
        return true;
    }
    let j = (from / 64) as usize;
    let w = words[j] >> (from % 64);
    if w != 0 {
        return false;
    }
    none_after(words, j + 1)
}

// Whether no bit is set at or past the chunks, and none in an unfit map.
pub fn map_ok(map: FreeMap, chunks: u32) -> bool
    ensures { result ≡ map_ok map chunks }
{
    if map.fit {
        none_from(&map.words[..], chunks)
    } else {
        none_from(&map.words[..], 0)
    }
}
