// Runs of bytes: copied, set to zero and compared, at any place of a slice.
#![tactic(auto)]

ghost use Rattle.std.specs.Prelude.{◌≡◌, ◌+◌, ◌≤◌, length, drop};
ghost use Rattle.le.specs.Part.{over, zeros};
ghost use Rattle.runs.specs.Run.{starts_with, same_bytes, all_same, all_zero};

// By index, since `copy_from_slice` links memmove, which C firmware need not have.
pub fn put_bytes(dst: &mut [u8], at: usize, src: &[u8])
    requires { at + length src.now ≤ length dst.old }
    ensures { dst.new ≡ over at src.now dst.old }
{
    for i in 0..src.len() {
        dst[at + i] = src[i];
    }
}

#[tactic(auto, unfolding(le::specs::Part::over, le::specs::Part::zeros))]
pub fn put_zeros(dst: &mut [u8], at: usize, n: usize)
    requires { at + n ≤ length dst.old }
    ensures { dst.new ≡ over at (zeros n) dst.old }
{
    for b in &mut dst[at..at + n] {
        *b = 0;
    }
}

pub fn starts_with(bytes: &[u8], at: usize, what: &[u8]) -> bool
    requires { at + length what.now ≤ length bytes.now }
    ensures { result ≡ starts_with what.now (drop at bytes.now) }
{
    same(&bytes[at..at + what.len()], what)
}

// The two slices hold the same bytes. Not by `==`, which takes 500 bytes of code more than C firmware is promised (include/store.h).
pub fn same(a: &[u8], b: &[u8]) -> bool
    ensures { result ≡ same_bytes a.now b.now }
{
    a.len() == b.len() && a.iter().zip(b).all(|(x, y)| x == y)
}

// Every byte is looked at: with no way out of the loop the compiler tests many at once.
pub fn all_same(bytes: &[u8], byte: u8) -> bool
    ensures { result ≡ all_same byte bytes.now }
{
    let mut same = true;
    for b in bytes {
        same = same & (*b == byte);
    }
    same
}

pub fn all_zero(bytes: &[u8]) -> bool
    ensures { result ≡ all_zero bytes.now }
{
    all_same(bytes, 0)
}
