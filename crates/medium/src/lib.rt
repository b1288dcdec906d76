// The lent volume and the medium record beside it: what stands here for the Rust's `device_api::bulk`.
#![tactic(auto)]

ghost use Rattle.std.specs.Prelude.{◌≡◌, ◌+◌, ◌*◌, ◌<◌, ◌≤◌, length};
ghost use Rattle.le.specs.Choice.{pick};
ghost use Rattle.le.specs.Part.{zeros};
ghost use Rattle.medium.specs.Refusal.{number_of, on_done};
ghost use Rattle.medium.specs.Sector.{sectors_of, sector_at, read_of, spend_of, write_of};

// Kept by the caller and handed back in every answer. Only `left` and `token` ever change.
#[derive(Clone, Copy, Debug, PartialEq, Eq)]
pub struct Medium {
    pub left: u32,
    pub unreadable: u64,
    pub entropy: u64,
    pub token: u32,
}

// The Rust's refusals, the port's own Handle and Spent, and those of document 02, each with its number in 01 and 02.
#[derive(Clone, Copy, Debug, PartialEq, Eq)]
pub enum Error {
    Media = 4,
    Uninitialized = 5,
    Foreign = 6,
    Corrupt = 7,
    Name = 1,
    Exists = 8,
    NotFound = 9,
    Full = 10,
    Stale = 11,
    Range = 2,
    Handle = 3,
    Spent = 12,
    Point = 13,
    Known = 14,
    Lost = 15,
    Dotted = 16,
}

#[derive(Clone, Copy, Debug, PartialEq, Eq)]
pub struct Written {
    pub outcome: Result<(), Error>,
    pub medium: Medium,
}

// A refusal's number in 01 and 02.
pub fn number(e: Error) -> u32
    ensures { result ≡ number_of e }
{
    e as u32
}

// Whole sectors of the volume; the bytes past them are never touched.
pub fn sectors(volume: &[u8]) -> u64
    ensures { result ≡ sectors_of volume.now }
{
    (volume.len() / 512) as u64
}

// Whether sector `at` can be read. Its bytes are then the volume's own.
pub fn readable(medium: Medium, at: u64) -> Result<(), Error>
    ensures { result ≡ read_of medium at }
{
    if at == medium.unreadable {
        Err(Error::Media)
    } else {
        Ok(())
    }
}

// Takes one from writes left. A caller that writes a sector in place asks this first.
#[tactic(auto, unfolding(crate::specs::Sector::spend_of, le::specs::Choice::pick))]
pub fn spend(medium: Medium) -> Written
    ensures { result ≡ spend_of medium }
{
    if medium.left == 0 {
        Written {
            outcome: Err(Error::Media),
            medium,
        }
    } else {
        // In a copy, and `mix` as a call: by a struct update `format` takes 16 bytes of stack more than C firmware is promised (include/store.h).
        let mut after = medium;
        after.left -= 1;
        Written {
            outcome: Ok(()),
            medium: after,
        }
    }
}

// Reads a sector into a buffer; refused, the buffer stays as it was.
pub fn read_sector(
    volume: &[u8],
    medium: Medium,
    at: u64,
    sector: &mut [u8; 512],
) -> Result<(), Error>
    requires { at < sectors_of volume.now }
    ensures { (result ≡ read_of medium at)
        × (sector.new ≡ on_done (read_of medium at) (sector_at volume.now at) (λ _. sector.old)) }
{
    readable(medium, at)?;
    let start = 512 * (at as usize);
    runs::put_bytes(sector, 0, &volume[start..start + 512]);
    Ok(())
}

// Writes a sector, where a write is left.
pub fn write_sector(volume: &mut [u8], medium: Medium, at: u64, sector: &[u8; 512]) -> Written
    requires { at < sectors_of volume.old }
    ensures { (volume.new ≡ (write_of volume.old medium at sector.now).vol)
        × (result ≡ (write_of volume.old medium at sector.now).ans) }
{
    let w = spend(medium);
    if let Err(_) = w.outcome {
        return w;
    }
    runs::put_bytes(volume, 512 * (at as usize), sector);
    w
}

// Writes a sector of zeros, where a write is left. It does not stand on `write_sector`: the zeros are put into the sector itself, and a buffer of them
// would be filled and copied first.
pub fn zero_sector(volume: &mut [u8], medium: Medium, at: u64) -> Written
    requires { at < sectors_of volume.old }
    ensures { (volume.new ≡ (write_of volume.old medium at (zeros 512)).vol)
        × (result ≡ (write_of volume.old medium at (zeros 512)).ans) }
{
    let w = spend(medium);
    if let Err(_) = w.outcome {
        return w;
    }
    runs::put_zeros(volume, 512 * (at as usize), 512);
    w
}
