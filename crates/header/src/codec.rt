// One header sector: filled from a header, and judged.
ghost use Rattle.std.specs.Prelude.{◌≡◌, ◌++◌, ◌≤◌, length, take};
ghost use Rattle.le.specs.Part.{over, zeros};
ghost use Rattle.le.specs.Field.{put_le};
ghost use Rattle.le.specs.Layout.{put_all};
ghost use Rattle.header.specs.Header.{magic, fields_of, words, encode_of, unmarked_of, fixed_ok, crcs_of, bare, decode_of};

use handles::Header;

// What a header sector holds: a valid copy, one of another version or geometry, one whose CRC fails, none.
#[derive(Clone, Copy)]
pub enum Replica {
    Ours,
    Foreign,
    Damaged,
    Absent,
}

// The kind, and beside it the header: blank unless the copy is valid.
#[derive(Clone, Copy)]
pub struct Decoded {
    pub kind: Replica,
    pub head: Header,
}

// What all headers with so many table sectors share: the magic, the version, the 8 and the count; the rest is 0.
fn start(tables: u16, sector: &mut [u8])
    requires { length sector.old ≡ 512 }
    ensures { sector.new ≡ put_le 2 20 tables (put_le 2 18 8 (put_le 2 16 1 (magic ++ zeros 496))) }
{
    runs::put_zeros(sector, 0, 512);
    runs::put_bytes(sector, 0, b"CYCLING-STORE\0\0\0");
    le::put_u16(sector, 16, 1);
    le::put_u16(sector, 18, 8);
    le::put_u16(sector, 20, tables);
}

// Bytes 0 to 63; the rest is 0.
fn fields(head: Header, sector: &mut [u8])
    requires { (length sector.old ≡ 512) × (head.chunks ≤ 2048) }
    ensures { sector.new ≡ put_all (fields_of head) (magic ++ zeros 496) }
{
    start(handles::table(head.chunks) as u16, sector);
    le::put_u64(sector, 24, head.id);
    le::put_u64(sector, 32, head.generation);
    le::put_u32(sector, 40, head.next_id);
    le::put_u32(sector, 44, head.cursor);
    le::put_u32(sector, 48, head.chunks);
    le::put_u32(sector, 52, head.chunk);
}

// The first `n` checksums, from byte 64 on.
fn put_crcs(head: Header, n: usize, sector: &mut [u8])
    requires { (length sector.old ≡ 512) × (n ≤ 24) }
    ensures { sector.new ≡ over 64 (words (take n head.crcs)) sector.old }
{
    for k in 0..n {
        le::put_u32(sector, 64 + 4 * k, head.crcs[k]);
    }
}

// Fills a sector with a header, in place.
pub fn encode(head: Header, sector: &mut [u8])
    requires { (length sector.old ≡ 512) × (head.chunks ≤ 2048) }
    ensures { sector.new ≡ encode_of head }
{
    fields(head, sector);
    put_crcs(head, handles::body(head.chunks), sector);
    seal::seal(sector);
}

// The same fill with the magic blanked: no mount takes such a sector for a copy.
pub fn encode_unmarked(head: Header, sector: &mut [u8])
    requires { (length sector.old ≡ 512) × (head.chunks ≤ 2048) }
    ensures { sector.new ≡ unmarked_of head }
{
    encode(head, sector);
    runs::put_zeros(sector, 0, 16);
}

// The version, the 8, the table count, and the bytes that must be 0.
fn fixed_ok(sector: &[u8], chunks: u32) -> bool
    requires { (length sector.now ≡ 512) × (chunks ≤ 2048) }
    ensures { result ≡ fixed_ok sector.now chunks }
{
    let version = le::get_u16(sector, 16);
    let eight = le::get_u16(sector, 18);
    let tables = le::get_u16(sector, 20);
    let a = runs::all_zero(&sector[22..24]);
    let b = runs::all_zero(&sector[56..64]);
    let past = 64 + 4 * handles::body(chunks);
    let c = runs::all_zero(&sector[past..508]);
    (version == 1)
        & ((eight == 8) & (((tables as usize) == handles::table(chunks)) & (a & (b & c))))
}

// The checksums of `n` body sectors, and zeros after them.
fn crcs_at(sector: &[u8], n: usize) -> [u32; 24]
    requires { (length sector.now ≡ 512) × (n ≤ 24) }
    ensures { result ≡ crcs_of n sector.now }
{
    let mut crcs = [0u32; 24];
    for k in 0..n {
        crcs[k] = le::get_u32(sector, 64 + 4 * k);
    }
    crcs
}

// A kind with no header.
fn bare(kind: Replica) -> Decoded
    ensures { result ≡ bare kind }
{
    let head = handles::blank();
    Decoded { kind, head }
}

// The copy in a sector, on a volume of so many sectors.
pub fn decode(sector: &[u8], sectors: u64) -> Decoded
    requires { length sector.now ≡ 512 }
    ensures { result ≡ decode_of sector.now sectors }
{
    if !runs::starts_with(sector, 0, b"CYCLING-STORE\0\0\0") {
        return bare(Replica::Absent);
    }
    if !seal::is_sealed(sector) {
        return bare(Replica::Damaged);
    }
    let mut head = Header {
        id: le::get_u64(sector, 24),
        generation: le::get_u64(sector, 32),
        next_id: le::get_u32(sector, 40),
        cursor: le::get_u32(sector, 44),
        chunks: le::get_u32(sector, 48),
        chunk: le::get_u32(sector, 52),
        crcs: [0u32; 24],
    };
    if !handles::sane(head, sectors) {
        return bare(Replica::Foreign);
    }
    if !fixed_ok(sector, head.chunks) {
        return bare(Replica::Foreign);
    }
    let crcs = crcs_at(sector, handles::body(head.chunks));
    head.crcs = crcs;
    Decoded {
        kind: Replica::Ours,
        head,
    }
}
