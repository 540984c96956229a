// What the layout's functions answer, on examples.
use crate::{
    ChunkSize, Exception, Header, HeaderFault, NoChunkSize, decode_header, encode_header, entry_at,
    picture,
};

#[test]
fn sizes_of_chunks(rt: HostRuntime) {
    assert_eq!(rt; ChunkSize::try_from(16), Ok(ChunkSize::Sixteen));
    assert_eq!(rt; ChunkSize::try_from(3), Err(NoChunkSize(3)));
}

#[test]
fn headers_go_round(rt: HostRuntime) {
    let header = Header {
        valid: true,
        size: ChunkSize::Eight,
    };
    let sector = encode_header(header);
    assert_eq!(rt; sector[0], 0x53);
    assert_eq!(rt; sector[12], 8);
    assert_eq!(rt; sector[511], 0);
    assert_eq!(rt; decode_header(&sector), Ok(header));
    assert_eq!(rt; header.size.sectors(), 8);
}

// Magic is tested before version, and version before the other fields.
#[test]
fn header_faults(rt: HostRuntime) {
    let mut sector = encode_header(Header {
        valid: false,
        size: ChunkSize::One,
    });
    sector[4] = 2;
    assert_eq!(rt; decode_header(&sector), Err(HeaderFault::Field));
    sector[4] = 0;
    sector[12] = 3;
    assert_eq!(rt; decode_header(&sector), Err(HeaderFault::Field));
    sector[8] = 2;
    assert_eq!(rt; decode_header(&sector), Err(HeaderFault::Version));
    sector[3] = 0;
    assert_eq!(rt; decode_header(&sector), Err(HeaderFault::Magic));
}

// Entries of a sector, the zeros after them, and past its end.
#[test]
fn entries_of_a_picture(rt: HostRuntime) {
    let es = [Exception { old: 5, new: 2 }, Exception { old: 258, new: 3 }];
    let nothing = Exception { old: 0, new: 0 };
    let sector = picture(&es, 0);
    assert_eq!(rt; entry_at(&sector, 0), es[0]);
    assert_eq!(rt; entry_at(&sector, 1), es[1]);
    assert_eq!(rt; entry_at(&sector, 2), nothing);
    assert_eq!(rt; entry_at(&sector, 32), nothing);
    assert_eq!(rt; entry_at(&picture(&es, 1), 0), nothing);
}
