// S-1: the line of a point in the file `MARKS`, written and read.
#![tactic(auto)]

ghost use Rattle.std.specs.Prelude.{◌≡◌, ◌≤◌, length};
ghost use Rattle.decimal.specs.Fields.{fields};
ghost use Rattle.decimal.specs.Decimal.{Put};
ghost use Rattle.marks.specs.Line.{line_of, numbers_of, three_of, says_of};

// The most bytes of a line: a name of 16, two numbers of 10, two tabs and a line feed.
pub const LINE: usize = 39;

// What a record of `MARKS` says of a point's name: the file's id and the record number.
#[derive(Clone, Copy)]
pub struct Mark {
    pub id: u32,
    pub number: u32,
}

// The line at the start of the buffer; answers how many bytes it has.
#[tactic(auto, using(decimal::proofs::Round::text_short))]
pub fn line(out: &mut [u8; LINE], point: &[u8], id: u32, number: u32) -> usize
    requires { length point.now ≤ 16 }
    ensures { Put 0 (line_of point.now id number) out.old out.new result × (result ≤ 39) }
{
    runs::put_bytes(&mut *out, 0, point);
    let a = decimal::put_field(&mut *out, point.len(), id as u64);
    let b = decimal::put_field(&mut *out, a, number as u64);
    runs::put_bytes(out, b, b"\n");
    b + 1
}

// Both in decimal, 32 bits, no leading zero.
#[tactic(auto, using(crate::proofs::Parted::two_numbers))]
fn numbers(id: &[u8], number: &[u8]) -> Option<Mark>
    ensures { result ≡ numbers_of id.now number.now }
{
    let i = decimal::plain(id, 0xffff_ffff)?;
    let n = decimal::plain(number, 0xffff_ffff)?;
    Some(Mark {
        id: i as u32,
        number: n as u32,
    })
}

// The fields of a line without its line feed: the name is compared before the others are looked for.
#[tactic(auto, using(crate::proofs::Parted::three_fields))]
fn three(point: &[u8], text: &[u8]) -> Option<Mark>
    ensures { result ≡ three_of point.now (fields text.now) }
{
    let first = decimal::field_end(text, 0);
    if first == text.len() {
        return None;
    }
    if !runs::same(&text[0..first], point) {
        return None;
    }
    let from = first + 1;
    let second = decimal::field_end(text, from);
    if second == text.len() {
        return None;
    }
    let last = second + 1;
    if decimal::field_end(text, last) < text.len() {
        return None;
    }
    numbers(&text[from..second], &text[last..])
}

// What a record says of a point: any bytes.
#[tactic(auto, using(crate::proofs::Parted::line_feed))]
pub fn says(point: &[u8], payload: &[u8]) -> Option<Mark>
    ensures { result ≡ says_of point.now payload.now }
{
    let (last, text) = payload.split_last()?;
    if *last != b'\n' {
        return None;
    }
    three(point, text)
}
