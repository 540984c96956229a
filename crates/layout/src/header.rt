// The first sector of the COW device.
ghost use Rattle.std.specs.Prelude.{◌≡◌, ◌+◌, ◌≤◌};
ghost use Rattle.std.specs.List.{between};
ghost use Rattle.layout.specs.Chunks.{sectors};
ghost use Rattle.layout.specs.Numbers.{value};
ghost use Rattle.layout.specs.Headers.{header as header_bytes, header_read, told, HeaderBack};

use crate::chunk::ChunkSize;
use crate::number::field;
use device::SECTOR;

const MAGIC: &[u8; 4] = b"SnAp";

const VERSION: u32 = 1;

// What a header says after its magic and its version.
#[derive(Clone, Copy, Debug, PartialEq, Eq)]
pub struct Header {
    pub valid: bool,
    pub size: ChunkSize,
}

// Why bytes are no header.
#[derive(Clone, Copy, Debug, PartialEq, Eq)]
pub enum HeaderFault {
    // they do not begin with the magic
    Magic,
    // the version is not 1
    Version,
    // the sectors of a chunk are not one of five numbers, or valid is above 1
    Field,
}

pub fn encode_header(header: Header) -> [u8; SECTOR]
    ensures { result ≡ header_bytes header.valid (sectors header.size) }
{
    let mut out = [0u8; SECTOR];
    out[..4].copy_from_slice(MAGIC);
    out[4..8].copy_from_slice(&u32::from(header.valid).to_le_bytes());
    out[8..12].copy_from_slice(&VERSION.to_le_bytes());
    out[12..16].copy_from_slice(&header.size.sectors().to_le_bytes());
    out
}

// The 32-bit number in four bytes from `at` on.
fn word(sector: &[u8; SECTOR], at: usize) -> u32
    requires { at + 4 ≤ SECTOR }
    ensures { result ≡ value (between at (at + 4) sector.now) }
{
    u32::from_le_bytes(field(sector, at))
}

// The tests in their order: magic, version, the sectors of a chunk and valid.
pub fn decode_header(sector: &[u8; SECTOR]) -> Result<Header, HeaderFault>
    ensures { told result ≡ header_read sector.now }
{
    if !sector.starts_with(MAGIC) {
        return Err(HeaderFault::Magic);
    }
    if word(sector, 8) != VERSION {
        return Err(HeaderFault::Version);
    }
    let size = ChunkSize::try_from(word(sector, 12)).map_err(|_| HeaderFault::Field)?;
    let valid = match word(sector, 4) {
        0 => false,
        1 => true,
        _ => return Err(HeaderFault::Field),
    };
    Ok(Header { valid, size })
}

// A header that was encoded is decoded to what it was made of.
pub fn headers_are_read_back()
    ensures { HeaderBack }
{}
