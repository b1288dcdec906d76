// Names of files and of directories: what the Rust has as `Name`, `Dir`, `path` and `is_in`.
#![tactic(auto)]

ghost use Rattle.std.specs.Prelude.{◌≡◌, ◌≤◌, ◌&&◌, leb, length};
ghost use Rattle.names.specs.Names.{plain_byte, every_plain, name_ok, dir_ok, in_dir, text_len, point_ok, begins_dot, dotted};

// The most bytes of a name, and of a directory with its `/`.
pub const NAME: usize = 40;

// By `|`: as one `matches!` over ranges, with jumps, a name of 40 bytes took twice the time.
#[tactic(auto, unfolding(crate::specs::Names::plain_byte), using(crate::proofs::Segments::in_turn))]
fn plain_byte(b: u8) -> bool
    ensures { result ≡ plain_byte b }
{
    b.is_ascii_alphanumeric() | (b == b'.') | (b == b'_') | (b == b'-')
}

// A byte at least, and none but those of a name's alphabet without `/`.
fn segment_ok(segment: &[u8]) -> bool
    ensures { result ≡ (leb 1 (length segment.now) && every_plain segment.now) }
{
    !segment.is_empty() && segment.iter().all(|b| plain_byte(*b))
}

#[tactic(auto, using(crate::proofs::Segments::too_long))]
pub fn name_ok(bytes: &[u8]) -> bool
    ensures { result ≡ name_ok bytes.now }
{
    if bytes.len() > NAME {
        return false;
    }
    bytes
        .split(|b| *b == b'/')
        .all(|segment| segment_ok(segment))
}

#[tactic(auto, using(crate::proofs::Segments::dir_forms))]
pub fn dir_ok(bytes: &[u8]) -> bool
    ensures { result ≡ dir_ok bytes.now }
{
    let Some((last, name)) = bytes.split_last() else {
        return true;
    };
    if bytes.len() > NAME {
        return false;
    }
    if *last != b'/' {
        return false;
    }
    name_ok(name)
}

// A directory longer than the name is not before it.
pub fn in_dir(dir: &[u8], name: &[u8]) -> bool
    ensures { result ≡ in_dir dir.now name.now }
{
    if dir.len() > name.len() {
        return false;
    }
    runs::starts_with(name, 0, dir)
}

// The length of the name in a directory entry: zeros follow it.
pub fn text_len(bytes: &[u8]) -> usize
    ensures { (result ≡ text_len bytes.now) × (result ≤ length bytes.now) }
{
    bytes.iter().position(|b| *b == 0).unwrap_or(bytes.len())
}

// S-1: the most bytes of a point's name.
pub const POINT: usize = 16;

// S-1: the name of a point.
#[tactic(auto, unfolding(crate::specs::Names::point_ok))]
pub fn point_ok(bytes: &[u8]) -> bool
    ensures { result ≡ point_ok bytes.now }
{
    bytes.len() <= POINT && segment_ok(bytes)
}

#[tactic(auto, using(crate::proofs::Dots::first_dot))]
fn begins_dot(segment: &[u8]) -> bool
    ensures { result ≡ begins_dot segment.now }
{
    !segment.is_empty() && segment[0] == b'.'
}

// S-5: a dot name: one of its segments begins with a dot.
pub fn dotted(bytes: &[u8]) -> bool
    ensures { result ≡ dotted bytes.now }
{
    bytes
        .split(|b| *b == b'/')
        .any(|segment| begins_dot(segment))
}
