// The input in lines. It comes in parts, so that a line may come in several; of a long one no more is kept than tells that it is too long.
ghost use Rattle.std.specs.Prelude.{◌≡◌, ◌≤◌, ◌<◌, length, take, drop, unwrap_or};
ghost use Rattle.lines.specs.Input.{kept_of, gather_of, GatheredAt};

// The most bytes kept of a line, one more than a line may have.
pub const KEPT: usize = 601;

// A byte more of the line, whose first `fill` bytes are kept; answers how many then are.
fn keep(line: &mut [u8], fill: usize, b: u8) -> usize
    requires { (fill ≤ 601) × (601 ≤ length line.old) }
    ensures { (take result line.new ≡ kept_of (take fill line.old) b) × (result ≤ 601) }
{
    if fill < KEPT {
        line[fill] = b;
        fill + 1
    } else {
        fill
    }
}

// How many bytes are kept of a line and, where its line feed came, where the next one starts.
#[derive(Clone, Copy)]
pub struct Gathered {
    pub fill: usize,
    pub next: Option<usize>,
}

// The bytes of a line from here up to its line feed, or to the end of what is there.
pub fn gather(bytes: &[u8], from: usize, line: &mut [u8], fill: usize) -> Gathered
    requires { (from ≤ length bytes.now) × (fill ≤ 601) × (601 ≤ length line.old) }
    ensures { GatheredAt result bytes.now line.new (gather_of (take fill line.old) (drop from bytes.now))
        × (from < length bytes.now → from < unwrap_or result.next (length bytes.now)) }
{
    let mut fill = fill;
    for i in from..bytes.len() {
        let b = bytes[i];
        if b == b'\n' {
            let next = Some(i + 1);
            return Gathered { fill, next };
        }
        fill = keep(&mut *line, fill, b);
    }
    Gathered { fill, next: None }
}
