use crate::{Label, Super, SuperError};
use std::process::Abort;
use std::test::Fail;

/// The identifier 6ba7b810-9dad-11d1-80b4-00c04fd430c8.
const UUID: [u8; 16] = [
    0x6b, 0xa7, 0xb8, 0x10, 0x9d, 0xad, 0x11, 0xd1, 0x80, 0xb4, 0x00, 0xc0, 0x4f, 0xd4, 0x30, 0xc8,
];

/// The first bytes of the example's block but for the label's zeros, as its layout has them.
const FRONT: [u8; 12] = [
    0x53, 0x46, 0x4f, 0x5a, 0x01, 0x00, 0x00, 0x00, 0x64, 0x61, 0x74, 0x61,
];

const BACK: [u8; 36] = [
    0x6b, 0xa7, 0xb8, 0x10, 0x9d, 0xad, 0x11, 0xd1, 0x80, 0xb4, 0x00, 0xc0, 0x4f, 0xd4, 0x30, 0xc8,
    0x01, 0x00, 0x00, 0x00, 0x00, 0x00, 0x00, 0x00, 0xe8, 0x03, 0x00, 0x00, 0x64, 0x00, 0x00, 0x00,
    0xb0, 0x01, 0x00, 0x00,
];

fn example() -> Result<Super, Fail> {
    Ok(Super {
        label: Label::new(b"data").ok_or("no label")?,
        uuid: UUID,
        aggr_cnv: true,
        uid: 1000,
        gid: 100,
        perm: 0o660,
    })
}

/// The block of the example.
fn vector() -> [u8; 4096] {
    let mut block = [0; 4096];
    block[..12].copy_from_slice(&FRONT);
    block[72..108].copy_from_slice(&BACK);
    block
}

/// The block of the example with some other bytes.
fn vector_with(rt: &impl Abort, changes: &[(usize, u8)]) -> [u8; 4096] {
    let mut block = vector();
    for (place, byte) in changes {
        assert!(rt; *place < 4096);
        block[*place] = *byte;
    }
    block
}

#[test]
fn vector_is_written_and_read(rt: HostRuntime) -> Result<(), Fail> {
    let example = example()?;
    let mut block = [0xff; 4096];
    assert!(rt; example.perm <= 0o777);
    example.encode(&mut block);
    assert!(rt; block == vector());
    assert_eq!(rt; Super::decode(&block, &block), Ok(example));
    Ok(())
}

#[test]
fn each_refusal(rt: HostRuntime) {
    let cases: [(&[(usize, u8)], SuperError); 10] = [
        (&[(0, 0x52)], SuperError::BadMagic),
        (&[(3, 0), (4, 7)], SuperError::BadMagic),
        (&[(4, 7)], SuperError::BadVersion(7)),
        (&[(4, 0), (200, 1)], SuperError::BadVersion(0)),
        (&[(9, 0x20)], SuperError::BadField(9)),
        (&[(11, 0x7f), (88, 3)], SuperError::BadField(11)),
        (&[(13, 0x61)], SuperError::BadField(13)),
        (&[(95, 1)], SuperError::BadField(88)),
        (&[(105, 2), (4095, 1)], SuperError::BadField(104)),
        (&[(200, 1), (4095, 1)], SuperError::BadField(200)),
    ];
    for (changes, error) in &cases {
        let block = vector_with(&rt, changes);
        assert_eq!(rt; Super::decode(&block, &block), Err(*error));
    }
}

#[test]
fn copies_are_compared(rt: HostRuntime) {
    let zeros = [0; 4096];
    assert_eq!(rt; Super::decode(&zeros, &zeros), Err(SuperError::BadMagic));
    for place in [0, 4, 200, 4095] {
        let other = vector_with(&rt, &[(place, 9)]);
        assert_eq!(rt;
            Super::decode(&vector(), &other),
            Err(SuperError::CopiesDiffer(place as u32))
        );
    }
}

#[test]
fn labels(rt: HostRuntime) -> Result<(), Fail> {
    let longest = Label::new(&[b'x'; 64]).ok_or("refused")?;
    assert!(rt; longest.as_bytes() == [b'x'; 64].as_slice());
    assert_eq!(rt; Label::new(b""), Some(Label::empty()));
    assert_eq!(rt; Label::new(&[b'x'; 65]), None);
    assert_eq!(rt; Label::new(b"a b"), None);
    assert_eq!(rt; Label::new(b"a\x7f"), None);
    assert_eq!(rt; Label::new("ä".as_bytes()), None);
    assert!(rt; longest != Label::empty());
    Ok(())
}
