// One line of the line program, read: its word, its numbers, and its other parts, lent from the line.
#![tactic(auto)]

ghost use Rattle.std.specs.Prelude.{◌≡◌};
ghost use Rattle.words.specs.Words.{alone_of, with_one_of, format_of, with_two_of, line_of, meaning};

// The most bytes of a line, without its line feed.
pub const LINE: usize = 600;

// What a line says. A create's `rollover` is the directory of its rollover; there is none for `-`.
#[derive(Clone, Copy)]
pub enum Parsed<'a> {
    Other,
    Format {
        size: u32,
        seed: u64,
    },
    Create {
        name: &'a [u8],
        rollover: Option<&'a [u8]>,
    },
    Append {
        text: &'a [u8],
    },
    Sync,
    Delete {
        name: &'a [u8],
    },
    List,
}

// A line with no tab.
#[tactic(auto, unfolding(crate::specs::Words::alone_of, crate::specs::Words::meaning, le::specs::Choice::pick))]
fn alone(word: &[u8]) -> Parsed<'static>
    ensures { meaning result ≡ alone_of word.now }
{
    if runs::same(word, b"sync") {
        return Parsed::Sync;
    }
    if runs::same(word, b"list") {
        return Parsed::List;
    }
    Parsed::Other
}

// A line with one tab.
#[tactic(auto, unfolding(crate::specs::Words::with_one_of, crate::specs::Words::meaning, le::specs::Choice::pick))]
fn with_one<'a>(word: &[u8], part: &'a [u8]) -> Parsed<'a>
    ensures { meaning result ≡ with_one_of word.now part.now }
{
    if runs::same(word, b"append") {
        return Parsed::Append { text: part };
    }
    if runs::same(word, b"delete") {
        return Parsed::Delete { name: part };
    }
    Parsed::Other
}

// The two numbers of a format, each within its width.
#[tactic(auto, unfolding(crate::specs::Words::both_of, crate::specs::Words::format_of, crate::specs::Words::meaning), using(decimal::proofs::Digits::decimal_most))]
fn format_line(size: &[u8], seed: &[u8]) -> Parsed<'static>
    ensures { meaning result ≡ format_of size.now seed.now }
{
    let Some(bytes) = decimal::read(size, 0xffff_ffff) else {
        return Parsed::Other;
    };
    let Some(seed) = decimal::read(seed, 0xffff_ffff_ffff_ffff) else {
        return Parsed::Other;
    };
    Parsed::Format {
        size: bytes as u32,
        seed,
    }
}

// A line with two tabs.
#[tactic(auto, unfolding(crate::specs::Words::with_two_of, crate::specs::Words::meaning, crate::specs::Words::rollover_in, crate::specs::Words::rollover_of, le::specs::Choice::pick))]
fn with_two<'a>(word: &[u8], first: &'a [u8], second: &'a [u8]) -> Parsed<'a>
    ensures { meaning result ≡ with_two_of word.now first.now second.now }
{
    if runs::same(word, b"format") {
        return format_line(first, second);
    }
    if !runs::same(word, b"create") {
        return Parsed::Other;
    }
    let none = runs::same(second, b"-");
    Parsed::Create {
        name: first,
        rollover: (!none).then_some(second),
    }
}

// A line of any bytes and any length.
#[tactic(auto, unfolding(crate::specs::Words::meaning), using(crate::proofs::Split::by_ends))]
pub fn parse(line: &[u8]) -> Parsed<'_>
    ensures { meaning result ≡ line_of line.now }
{
    if line.len() > LINE {
        return Parsed::Other;
    }
    let first = decimal::field_end(line, 0);
    if first == line.len() {
        return alone(line);
    }
    let word = &line[..first];
    let second = decimal::field_end(line, first + 1);
    if second == line.len() {
        return with_one(word, &line[first + 1..]);
    }
    let third = decimal::field_end(line, second + 1);
    if third < line.len() {
        return Parsed::Other;
    }
    with_two(word, &line[first + 1..second], &line[second + 1..])
}
