// Decimal numbers as bytes, read and written, and where a field that is parted by tabs ends.
#![tactic(auto)]

ghost use Rattle.std.specs.Prelude.{◌≡◌, ◌∷◌, ◌+◌, ◌≤◌, ◌<◌, length, drop};
ghost use Rattle.decimal.specs.Fields.{field_len};
ghost use Rattle.decimal.specs.Decimal.{decimal_of, leading_zero, plain_of, decimal_text, Put};

// The place of the first tab from here on, or the end of the line.
pub fn field_end(line: &[u8], from: usize) -> usize
    requires { from ≤ length line.now }
    ensures { (result ≡ from + field_len (drop from line.now)) × (from ≤ result) × (result ≤ length line.now) }
{
    match line[from..].iter().position(|b| *b == b'\t') {
        Some(length) => from + length,
        None => line.len(),
    }
}

// Each step is tested before it is taken, so that no sum goes past the largest number.
#[tactic(auto, unfolding(crate::specs::Decimal::is_digit), using(crate::proofs::Digits::digit_turns))]
pub fn read(text: &[u8], max: u64) -> Option<u64>
    requires { 9 ≤ max }
    ensures { result ≡ decimal_of max text.now }
{
    if text.is_empty() {
        return None;
    }
    let mut value: u64 = 0;
    for b in text {
        if !b.is_ascii_digit() {
            return None;
        }
        let digit = u64::from(*b - b'0');
        if value > (max - digit) / 10 {
            return None;
        }
        value = value * 10 + digit;
    }
    Some(value)
}

#[tactic(auto, using(crate::proofs::Digits::zero_forms))]
fn leading_zero(text: &[u8]) -> bool
    ensures { result ≡ leading_zero text.now }
{
    text.len() >= 2 && text[0] == b'0'
}

// The same with no leading zero.
#[tactic(auto, unfolding(crate::specs::Decimal::plain_of), using(crate::proofs::Digits::plain_forms))]
pub fn plain(text: &[u8], max: u64) -> Option<u64>
    requires { 9 ≤ max }
    ensures { result ≡ plain_of max text.now }
{
    if leading_zero(text) {
        None
    } else {
        read(text, max)
    }
}

// The digits at the end of the buffer, the lowest first; answers where they start.
// Down by hand: how many there are is known only when the number is used up.
#[tactic(auto, using(crate::proofs::Texts::digit_puts))]
fn put_digits(digits: &mut [u8; 20], n: u64) -> usize
    ensures { (drop result digits.new ≡ decimal_text n) × (result < 20) }
{
    let mut left = n;
    let mut i = 20;
    while left >= 10 {
        i -= 1;
        digits[i] = b'0' + (left % 10) as u8;
        left /= 10;
    }
    i -= 1;
    digits[i] = b'0' + left as u8;
    i
}

// Answers where the digits end.
#[tactic(auto, using(crate::proofs::Puts::digits_lent, crate::proofs::Puts::digits_long))]
pub fn put(out: &mut [u8], at: usize, n: u64) -> usize
    requires { at + length (decimal_text n) ≤ length out.old }
    ensures { Put at (decimal_text n) out.old out.new result }
{
    let mut digits = [0u8; 20];
    let from = put_digits(&mut digits, n);
    runs::put_bytes(out, at, &digits[from..]);
    at + (20 - from)
}

// A tab and the digits.
pub fn put_field(out: &mut [u8], at: usize, n: u64) -> usize
    requires { at + length (9 ∷ decimal_text n) ≤ length out.old }
    ensures { Put at (9 ∷ decimal_text n) out.old out.new result }
{
    runs::put_bytes(&mut *out, at, b"\t");
    put(out, at + 1, n)
}
