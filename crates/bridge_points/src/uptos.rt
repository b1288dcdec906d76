// A reader up to a record number as rows of numbers: a reader's row, and the number in a row of its own.
ghost use Rattle.std.specs.Prelude.{◌≡◌};
ghost use Rattle.bridge.specs.Numbers.{reader_words};
ghost use Rattle.points.specs.Reading.{upto_answer};
ghost use Rattle.bridge_points.specs.Points.{upto_of, upto_limit};

use bridge::numbers;
use medium::Error;
use reader::Upto;

pub fn upto_in(reader: [u64; 10], limit: [u64; 1]) -> Upto
    ensures { result ≡ upto_of reader limit }
{
    Upto {
        reader: numbers::reader_in(reader),
        limit: numbers::narrow(limit[0]),
    }
}

// Refused, the reader is one that no call accepts, and the number is 0.
pub fn or_none(u: Result<Upto, Error>) -> Upto
    ensures { (m : _) → result ≡ (upto_answer u m).upto }
{
    u.unwrap_or(Upto {
        reader: reader::no_reader(),
        limit: 0,
    })
}

// A reader up to a number over the rows that were lent for it.
pub fn put_upto(u: Upto, reader: &mut [u64; 10], limit: &mut [u64; 1])
    ensures { (reader.new ≡ reader_words u.reader) × (limit.new ≡ upto_limit u) }
{
    *reader = numbers::reader_words(u.reader);
    *limit = [u.limit as u64];
}
