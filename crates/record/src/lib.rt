// Data sectors: a record made in its sector and written there, and a sector judged.
#![tactic(auto)]

ghost use Rattle.std.specs.Prelude.{◌≡◌, ◌≤◌, ◌<◌, length};
ghost use Rattle.medium.specs.Sector.{sectors_of, sector_at};
ghost use Rattle.record.specs.Record.{record_of, matches_of, is_blank, verdict_of, heard_of, data_at, number_at, read_record_of, write_record_of};

use handles::Store;
use medium::{Error, Medium, Written};

// S-4: what the bytes of a data sector are: a record with so many bytes of payload, blank, or anything else.
#[derive(Clone, Copy, PartialEq, Eq)]
pub enum Verdict {
    Valid(usize),
    Blank,
    Other,
}

impl Verdict {
    // Reading and reopening ask only for a valid record.
    #[tactic(auto, unfolding(crate::specs::Record::heard_of))]
    fn heard(self) -> Option<usize>
        ensures { result ≡ heard_of self }
    {
        match self {
            Verdict::Valid(length) => Some(length),
            _ => None,
        }
    }
}

// The sector of a record.
pub fn data(store: Store, chunk: u32, index: u32) -> u64
    ensures { result ≡ data_at store chunk index }
{
    64 + (chunk as u64) * (store.head.chunk as u64) + (index as u64)
}

// The number of a record, by its chunk's position in the file, the chunk size and its index there.
pub fn number_at(position: u32, size: u32, index: u32) -> u32
    requires { (position ≤ 32767) × (size ≤ 512) × (index ≤ 512) }
    ensures { result ≡ number_at position size index }
{
    position * size + index
}

// Every test of a record but its checksum, so that a sector that holds another costs no checksum.
#[tactic(auto, unfolding(crate::specs::Record::matches_of))]
fn matches(sector: &[u8], id: u64, file: u32, number: u32) -> bool
    requires { length sector.now ≡ 512 }
    ensures { result ≡ matches_of id file number sector.now }
{
    let length = le::get_u16(sector, 20);
    runs::starts_with(sector, 0, b"CSRD")
        && le::get_u64(sector, 4) == id
        && le::get_u32(sector, 12) == file
        && le::get_u32(sector, 16) == number
        && (1..=486).contains(&length)
}

// The first byte says which of the two a blank sector is, so one look at the others is enough.
#[tactic(auto, using(crate::proofs::Verdicts::blank_first, crate::proofs::Verdicts::blank_neither))]
fn is_blank(sector: &[u8]) -> bool
    requires { length sector.now ≡ 512 }
    ensures { result ≡ is_blank sector.now }
{
    let first = sector[0];
    (first == 0 || first == 255) && runs::all_same(sector, first)
}

// Judges a data sector, its checksum last. One with the mark of a record is not blank.
#[tactic(auto, using(crate::proofs::Verdicts::matched_apart), unfolding(crate::specs::Record::verdict_of, le::specs::Choice::pick))]
pub fn judge(sector: &[u8], id: u64, file: u32, number: u32) -> Verdict
    requires { length sector.now ≡ 512 }
    ensures { result ≡ verdict_of id file number sector.now }
{
    if matches(sector, id, file, number) {
        if seal::is_sealed(sector) {
            Verdict::Valid(le::get_u16(sector, 20) as usize)
        } else {
            Verdict::Other
        }
    } else if is_blank(sector) {
        Verdict::Blank
    } else {
        Verdict::Other
    }
}

// The sector of record `index` of a chunk is blank. It is not judged: whether its checksum is right does not matter here.
pub fn is_blank_at(volume: &[u8], store: Store, chunk: u32, index: u32) -> bool
    requires { data_at store chunk index < sectors_of volume.now }
    ensures { result ≡ is_blank (sector_at volume.now (data_at store chunk index)) }
{
    let start = 512 * (data(store, chunk, index) as usize);
    is_blank(&volume[start..start + 512])
}

// Reads and judges record `index` of a chunk, in the volume itself.
#[tactic(auto, using(crate::proofs::Verdicts::heard_judged), unfolding(crate::specs::Record::read_record_of, medium::specs::Refusal::on_done))]
pub fn record(
    volume: &[u8],
    medium: Medium,
    store: Store,
    id: u32,
    chunk: u32,
    index: u32,
    number: u32,
) -> Result<Option<usize>, Error>
    requires { data_at store chunk index < sectors_of volume.now }
    ensures { result ≡ read_record_of volume.now medium store id chunk index number }
{
    let at = data(store, chunk, index);
    medium::readable(medium, at)?;
    let start = 512 * (at as usize);
    let verdict = judge(&volume[start..start + 512], store.head.id, id, number);
    Ok(verdict.heard())
}

// Makes a record in its sector. The fields are put from the last to the first.
pub fn put_record(sector: &mut [u8], id: u64, file: u32, number: u32, payload: &[u8])
    requires { (length sector.old ≡ 512) × (length payload.now ≤ 486) }
    ensures { sector.new ≡ record_of id file number payload.now }
{
    runs::put_bytes(sector, 0, b"CSRD");
    runs::put_zeros(sector, 4, 508);
    le::put_u16(sector, 20, payload.len() as u16);
    le::put_u32(sector, 16, number);
    le::put_u32(sector, 12, file);
    le::put_u64(sector, 4, id);
    runs::put_bytes(sector, 22, payload);
    seal::seal(sector);
}

// Writes record `index` of a chunk in place, where a write is left.
pub fn write_record(
    volume: &mut [u8],
    medium: Medium,
    store: Store,
    id: u32,
    chunk: u32,
    index: u32,
    number: u32,
    payload: &[u8],
) -> Written
    requires { (data_at store chunk index < sectors_of volume.old) × (length payload.now ≤ 486) }
    ensures { (volume.new ≡ (write_record_of volume.old medium store id chunk index number payload.now).vol)
        × (result ≡ (write_record_of volume.old medium store id chunk index number payload.now).ans) }
{
    let written = medium::spend(medium);
    if let Err(_) = written.outcome {
        return written;
    }
    let start = 512 * (data(store, chunk, index) as usize);
    put_record(
        &mut volume[start..start + 512],
        store.head.id,
        id,
        number,
        payload,
    );
    written
}
