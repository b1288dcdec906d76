// A sector of 512 bytes whose last four are the checksum of those before them, as the header and the records have it.
#![tactic(auto)]

ghost use Rattle.std.specs.Prelude.{◌≡◌, length};
ghost use Rattle.seal.specs.Seal.{sealed, is_sealed};

pub fn seal(sector: &mut [u8])
    requires { length sector.old ≡ 512 }
    ensures { sector.new ≡ sealed sector.old }
{
    let c = checksum::crc32(&sector[..508]);
    le::put_u32(sector, 508, c);
}

pub fn is_sealed(sector: &[u8]) -> bool
    requires { length sector.now ≡ 512 }
    ensures { result ≡ is_sealed sector.now }
{
    le::get_u32(sector, 508) == checksum::crc32(&sector[..508])
}
