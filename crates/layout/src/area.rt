// The entries of an area.
ghost use Rattle.std.specs.Prelude.{◌≡◌};
ghost use Rattle.layout.specs.Entries.{nth_entry, pic, ReadBack};

use crate::exception::{ENTRIES, ENTRY, Exception};
use device::SECTOR;

// Entry number `place` of some bytes; past their end there is nothing but zeros.
pub fn entry_at(bytes: &[u8], place: u32) -> Exception
    ensures { result ≡ nth_entry bytes.now place }
{
    let (entries, _) = bytes.as_chunks::<ENTRY>();
    match entries.get(place as usize) {
        Some(entry) => Exception::from_bytes(entry),
        None => Exception { old: 0, new: 0 },
    }
}

// Sector number `j` of all areas' sectors: the exceptions that it has, and zeros after them.
pub fn picture(es: &[Exception], j: u32) -> [u8; SECTOR]
    ensures { result ≡ pic es.now j }
{
    let rest = es.get(ENTRIES * j as usize..).unwrap_or_default();
    let mut out = [0u8; SECTOR];
    // by place: what a slice holds after writes through `chunks_exact_mut` is not known
    for (k, e) in rest.iter().take(ENTRIES).enumerate() {
        let at = ENTRY * k;
        out[at..at + ENTRY].copy_from_slice(&e.to_bytes());
    }
    out
}

// Encoding and decoding are inverse to one another.
pub fn entries_are_read_back()
    ensures { ReadBack }
{}
