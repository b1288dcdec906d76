// An answer as bytes: fields parted by tabs, numbers decimal, a line feed at the end of each line.
ghost use Rattle.std.specs.Prelude.{◌≡◌, ◌+◌, ◌*◌, ◌≤◌, length};
ghost use Rattle.decimal.specs.Decimal.{Put};
ghost use Rattle.session.specs.Session.{said_of};
ghost use Rattle.lines.specs.Text.{field_text, word_text, row_text, rows_text, said_text, Few};

use medium::Error;
use session::Reply;

// Answers where the bytes end.
fn put(out: &mut [u8], at: usize, bytes: &[u8]) -> usize
    requires { at + length bytes.now ≤ length out.old }
    ensures { Put at bytes.now out.old out.new result }
{
    runs::put_bytes(out, at, bytes);
    at + bytes.len()
}

// A tab and a number.
fn put_field(out: &mut [u8], at: usize, n: u64) -> usize
    requires { at + 21 ≤ length out.old }
    ensures { Put at (field_text n) out.old out.new result × (result ≤ at + 21) }
{
    decimal::put_field(out, at, n)
}

// `ok` or `no` and a number, at the start.
fn put_word(out: &mut [u8], word: &[u8], n: u64) -> usize
    requires { (32 ≤ length out.old) × (length word.now ≡ 2) }
    ensures { Put 0 (word_text word.now n) out.old out.new result × (result ≤ 32) }
{
    let a = put(&mut *out, 0, word);
    let b = put_field(&mut *out, a, n);
    put(out, b, b"\n")
}

// One row of 48 bytes.
fn put_row(out: &mut [u8], at: usize, row: &[u8]) -> usize
    requires { (at + 96 ≤ length out.old) × (length row.now ≡ 48) }
    ensures { Put at (row_text row.now) out.old out.new result × (result ≤ at + 96) }
{
    let n = names::text_len(&row[..40]);
    let id = le::get_u32(row, 40);
    let chunks = le::get_u32(row, 44);
    let a = put(&mut *out, at, &row[..n]);
    let b = put_field(&mut *out, a, id as u64);
    let c = put_field(&mut *out, b, chunks as u64);
    put(out, c, b"\n")
}

fn put_rows(out: &mut [u8], at: usize, rows: &[u8], count: usize) -> usize
    requires { (at + 96 * count ≤ length out.old) × (48 * count ≤ length rows.now) }
    ensures { Put at (rows_text count rows.now) out.old out.new result × (result ≤ at + 96 * count) }
{
    let mut end = at;
    for i in 0..count {
        let from = 48 * i;
        end = put_row(&mut *out, end, &rows[from..from + 48]);
    }
    end
}

// An answer at the start, and how many bytes it has; a list's rows follow.
pub fn put_reply(out: &mut [u8], reply: Result<Reply, Error>, rows: &[u8]) -> usize
    requires { (8192 ≤ length out.old) × (3072 ≤ length rows.now) × Few (said_of reply) }
    ensures { Put 0 (said_text (said_of reply) rows.now) out.old out.new result × (result ≤ 8192) }
{
    match reply {
        Ok(Reply::Number(n)) => put_word(out, b"ok", n),
        Ok(Reply::Rows(n)) => {
            let at = put_word(&mut *out, b"ok", n as u64);
            put_rows(out, at, rows, n)
        }
        Err(e) => put_word(out, b"no", medium::number(e) as u64),
    }
}
