// A store made anew: 01's `format`, which is the Rust's `format_chunks`.
#![tactic(auto)]

ghost use Rattle.std.specs.Prelude.{◌≡◌, [], ◌+◌, ◌^◌, ◌<◌, ◌≤◌};
ghost use Rattle.medium.specs.Sector.{sectors_of};
ghost use Rattle.handles.specs.Handles.{body_of, no_store};
ghost use Rattle.plan.specs.Copy.{refused_out, body_from};
ghost use Rattle.format.specs.Format.{chunks_of, copy_for, newest_of, has_id, spare_of, id_from, zero_crcs, format_head, Zeroed};
ghost use Rattle.format.specs.Format.{format_plan, made_of, format_over, format_of};

use handles::{Header, Store};
use header::Copies;
use medium::{Error, Medium};
use plan::{BodyWritten, Committed};

// The checksum of a sector of zeros: checksum Vector `zeros_value`.
const ZERO_SUM: u32 = 0xb2aa_7578;

// Chunks on a volume of so many sectors.
fn chunks_for(sectors: u64, size: u32) -> u32
    requires { (64 ≤ sectors) × (1 ≤ size) }
    ensures { (result ≡ chunks_of sectors size) × (result ≤ 2048) }
{
    let fit = (sectors - 64) / (size as u64);
    if fit < 2048 {
        return fit as u32;
    }
    2048
}

// The copy to write: opposite the newest. Newest is the copy that mount takes, so mount takes it until the last write.
fn copy_for(c: Copies) -> u64
    ensures { result ≡ copy_for c }
{
    let ka = c.a;
    if header::takes_b(c) {
        return 0;
    }
    if header::is_ours(ka) {
        return 1;
    }
    0
}

// The newest's generation, 0 where no copy is valid.
fn newest(c: Copies) -> u64
    ensures { result ≡ newest_of c }
{
    let ka = c.a;
    let x = c.heads[0];
    let y = c.heads[1];
    if header::takes_b(c) {
        return y.generation;
    }
    if header::is_ours(ka) {
        return x.generation;
    }
    0
}

// Whether a valid copy has this id.
fn has_id(c: Copies, id: u64) -> bool
    ensures { result ≡ has_id c id }
{
    let ka = c.a;
    let kb = c.b;
    let x = c.heads[0];
    let y = c.heads[1];
    (header::is_ours(ka) & (x.id == id)) | (header::is_ours(kb) & (y.id == id))
}

// Two copies have at most two of the ids 1, 2 and 3.
fn spare(c: Copies) -> u64
    ensures { result ≡ spare_of c }
{
    if !has_id(c, 1) {
        return 1;
    }
    if !has_id(c, 2) {
        return 2;
    }
    3
}

// The Rust mixes until an id is free. Four bad values would come round for ever, so here the fourth is the last.
fn id_from(c: Copies, start: u64) -> u64
    ensures { result ≡ id_from c 4 start }
{
    let mut id = start;
    for tried in 0u32..4 {
        let bad = (id == 0) | has_id(c, id);
        if !bad {
            return id;
        }
        id = mix::mix(id);
    }
    spare(c)
}

// The checksums of `n` zero sectors.
fn zero_crcs(n: usize) -> [u32; 24]
    requires { n ≤ 24 }
    ensures { result ≡ zero_crcs n }
{
    let mut crcs = [0u32; 24];
    for k in 0..n {
        crcs[k] = ZERO_SUM;
    }
    crcs
}

// The header of the new store.
fn format_head(c: Copies, medium: Medium, chunks: u32, size: u32, seed: u64) -> Header
    requires { (chunks ≤ 2048) × (newest_of c + 1 < 2 ^ 64) }
    ensures { result ≡ format_head c medium chunks size seed }
{
    let id = id_from(c, mix::mix(seed ^ medium.entropy));
    let generation = newest(c) + 1;
    let crcs = zero_crcs(handles::body(chunks));
    Header {
        id,
        generation,
        next_id: 1,
        cursor: 0,
        chunks,
        chunk: size,
        crcs,
    }
}

// Zeros in every body sector. The header lists their checksums already, so it stays as it is.
fn zero_body(volume: &mut [u8], medium: Medium, copy: u64, head: Header) -> BodyWritten
    requires { (64 ≤ sectors_of volume.old) × (head.chunks ≤ 2048) × (Zeroed head) }
    ensures { (volume.new ≡ (body_from (format_plan copy head) (body_of head.chunks) 0 volume.old medium head).vol)
        × (result ≡ (body_from (format_plan copy head) (body_of head.chunks) 0 volume.old medium head).ans) }
{
    let first = handles::base(copy) + 1;
    let body = handles::body(head.chunks);
    let mut m = medium;
    for k in 0..body {
        let w = medium::zero_sector(volume, m, first + (k as u64));
        m = w.medium;
        let o = w.outcome;
        if let Err(e) = o {
            return BodyWritten {
                outcome: Err(e),
                medium: m,
                head,
            };
        }
    }
    BodyWritten {
        outcome: Ok(()),
        medium: m,
        head,
    }
}

fn refused(medium: Medium, e: Error) -> Committed
    ensures { result ≡ (refused_out no_store [] medium e).ans }
{
    let store = handles::no_store();
    Committed {
        outcome: Err(e),
        medium,
        store,
    }
}

// Writes the copy. A cut tears a sector into new and old bytes: a header that goes out without its magic first is later the whole one or has no
// magic, so a volume that never had a store reads as Uninitialized and not as Corrupt.
fn make(volume: &mut [u8], medium: Medium, copy: u64, head: Header) -> Committed
    requires { (64 ≤ sectors_of volume.old) × (head.chunks ≤ 2048) × (Zeroed head) }
    ensures { (volume.new ≡ (made_of copy head volume.old medium).vol) × (result ≡ (made_of copy head volume.old medium).ans) }
{
    let z = header::write_unmarked(volume, medium, copy, head);
    let first = z.outcome;
    if let Err(e) = first {
        return refused(z.medium, e);
    }
    let b = zero_body(volume, z.medium, copy, head);
    let zeroed = b.outcome;
    if let Err(e) = zeroed {
        return refused(b.medium, e);
    }
    let w = header::write_head(volume, b.medium, copy, head);
    let last = w.outcome;
    if let Err(e) = last {
        return refused(w.medium, e);
    }
    let free = freemap::full(head.chunks);
    let store = Store {
        copy,
        head,
        writer: None,
        free,
    };
    let after = w.medium;
    Committed {
        outcome: Ok(()),
        medium: after,
        store,
    }
}

// With both headers read: the tests that come after them, and the writes.
fn format_over(volume: &mut [u8], medium: Medium, c: Copies, size: u32, seed: u64) -> Committed
    requires { (64 ≤ sectors_of volume.old) × (1 ≤ size) }
    ensures { (volume.new ≡ (format_over c size seed volume.old medium).vol)
        × (result ≡ (format_over c size seed volume.old medium).ans) }
{
    let chunks = chunks_for(medium::sectors(volume), size);
    if chunks == 0 {
        return refused(medium, Error::Range);
    }
    if newest(c) == 0xffff_ffff_ffff_ffff {
        return refused(medium, Error::Spent);
    }
    let head = format_head(c, medium, chunks, size, seed);
    make(volume, medium, copy_for(c), head)
}

// Makes a new store on the volume, beside the newest copy of the one that it has. `size` is in sectors per chunk.
pub fn format(volume: &mut [u8], medium: Medium, size: u32, seed: u64) -> Committed
    ensures { (volume.new ≡ (format_of size seed volume.old medium).vol)
        × (result ≡ (format_of size seed volume.old medium).ans) }
{
    let sized = (1 <= size) & (size <= 512);
    if !sized {
        return refused(medium, Error::Range);
    }
    let c = header::headers(volume, medium);
    let o = c.outcome;
    if let Err(e) = o {
        return refused(medium, e);
    }
    format_over(volume, medium, c, size, seed)
}
