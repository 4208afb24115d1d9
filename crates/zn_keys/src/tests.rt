use crate::geometry_of;
use std::test::Fail;
use zn_stand::Geometry;
use zn_truth::Shape;

/// Words, and the device that they ask for: its zones, how many of them are conventional, the blocks of a zone, and
/// those that a sequential one has room for, and the limits of open and of active zones.
const ASKED: [(&str, [u32; 6]); 21] = [
    ("capacity_mb=64 zone_size_mb=1", [64, 0, 256, 256, 0, 0]),
    (
        "conv_zones=8 zone_size_mb=1 capacity_mb=64",
        [64, 8, 256, 256, 0, 0],
    ),
    (
        "capacity_blocks=24 zone_blocks=4 conv_zones=1 max_open=2",
        [6, 1, 4, 4, 2, 0],
    ),
    ("capacity_mb=1 zone_blocks=100", [3, 0, 100, 100, 0, 0]),
    ("capacity_blocks=257 zone_size_mb=1", [2, 0, 256, 256, 0, 0]),
    ("capacity_blocks=12 zone_blocks=4", [3, 0, 4, 4, 0, 0]),
    ("capacity_blocks=13 zone_blocks=4", [4, 0, 4, 4, 0, 0]),
    ("capacity_blocks=1 zone_blocks=2", [1, 0, 2, 2, 0, 0]),
    ("capacity_blocks=8191 zone_blocks=2", [4096, 0, 2, 2, 0, 0]),
    ("capacity_blocks=8192 zone_blocks=2", [4096, 0, 2, 2, 0, 0]),
    (
        "capacity_mb=1048576 zone_size_mb=256",
        [4096, 0, 65536, 65536, 0, 0],
    ),
    (
        "capacity_mb=8 zone_size_mb=2 zone_capacity_mb=1",
        [4, 0, 512, 256, 0, 0],
    ),
    (
        "capacity_mb=8 zone_size_mb=2 zone_capacity_mb=2",
        [4, 0, 512, 512, 0, 0],
    ),
    (
        "capacity_mb=8 zone_size_mb=2 zone_capacity_blocks=2",
        [4, 0, 512, 2, 0, 0],
    ),
    (
        "capacity_mb=8 zone_size_mb=2 conv_zones=0",
        [4, 0, 512, 512, 0, 0],
    ),
    (
        "capacity_mb=8 zone_size_mb=2 conv_zones=4",
        [4, 4, 512, 512, 0, 0],
    ),
    (
        "capacity_mb=8 zone_size_mb=2 max_open=4096",
        [4, 0, 512, 512, 4096, 0],
    ),
    (
        "capacity_mb=8 zone_size_mb=2 max_active=4096",
        [4, 0, 512, 512, 0, 4096],
    ),
    (
        "capacity_mb=8 zone_size_mb=2 max_open=3 max_active=3",
        [4, 0, 512, 512, 3, 3],
    ),
    (
        "capacity_mb=8 zone_size_mb=2 max_open=0 max_active=3",
        [4, 0, 512, 512, 0, 3],
    ),
    (
        "max_active=0 capacity_mb=8 max_open=3 zone_size_mb=2",
        [4, 0, 512, 512, 3, 0],
    ),
];

/// Words that ask for no device.
const REFUSED: [&str; 54] = [
    // a size is missing
    "",
    "capacity_mb=8",
    "zone_size_mb=2",
    "conv_zones=1 max_open=1 max_active=1 zone_capacity_mb=1",
    // a key stands twice, or a size in both units
    "capacity_mb=8 zone_size_mb=2 capacity_mb=8",
    "capacity_blocks=8 zone_blocks=2 capacity_blocks=8",
    "capacity_mb=8 zone_size_mb=2 capacity_blocks=2048",
    "zone_size_mb=2 zone_size_mb=2 capacity_mb=8",
    "capacity_blocks=8 zone_blocks=2 zone_blocks=2",
    "zone_blocks=512 zone_size_mb=2 capacity_mb=8",
    "capacity_mb=8 zone_size_mb=2 zone_capacity_mb=1 zone_capacity_mb=1",
    "capacity_mb=8 zone_size_mb=2 zone_capacity_blocks=4 zone_capacity_blocks=4",
    "capacity_mb=8 zone_size_mb=2 zone_capacity_blocks=256 zone_capacity_mb=1",
    "capacity_mb=8 zone_size_mb=2 conv_zones=0 conv_zones=0",
    "capacity_mb=8 zone_size_mb=2 max_open=0 max_open=0",
    "capacity_mb=8 zone_size_mb=2 max_active=1 max_active=1",
    // no key
    "capacity_mb=8 zone_size_mb=2 zones=4",
    "capacity_mb=8 zone_size_mb=2 Max_open=1",
    "capacity_mb=8 zone_size_mb=2 max_open1=1",
    "capacity_mb=8 zone_size_mb=2 =1",
    "capacity_mb=8 zone_size_mb=2 max_open",
    "capacity_mb=8 zone_size_mb=2 ",
    // no number
    "capacity_mb= zone_size_mb=2",
    "capacity_mb=8 zone_size_mb=02",
    "capacity_mb=8 zone_size_mb=+2",
    "capacity_mb=8 zone_size_mb=2 max_open=-1",
    "capacity_mb=8 zone_size_mb=2 max_open=1k",
    "capacity_mb=8 zone_size_mb=2 max_open==1",
    "capacity_mb=8 zone_size_mb=2 max_open=1=",
    "capacity_mb=8 zone_size_mb=2 conv_zones=00",
    // more than 32 bits hold
    "capacity_mb=4294967296 zone_size_mb=2",
    "capacity_mb=18446744073709551624 zone_size_mb=2",
    "capacity_mb=8 zone_size_mb=2 zone_capacity_mb=4294967297",
    "capacity_mb=8 zone_size_mb=2 conv_zones=4294967296",
    "capacity_mb=8 zone_size_mb=2 max_open=4294967297",
    // more in blocks than 32 bits hold
    "capacity_mb=4294967295 zone_size_mb=256",
    "capacity_mb=16777217 zone_size_mb=1",
    "capacity_mb=8 zone_size_mb=16777218",
    "capacity_mb=8 zone_size_mb=2 zone_capacity_mb=16777217",
    "capacity_mb=4294967295 zone_size_mb=4294967295",
    // a limit is broken
    "capacity_blocks=0 zone_blocks=2",
    "capacity_blocks=8193 zone_blocks=2",
    "capacity_mb=1048577 zone_size_mb=256",
    "capacity_blocks=4 zone_blocks=0",
    "capacity_blocks=4 zone_blocks=1",
    "capacity_blocks=65537 zone_blocks=65537",
    "capacity_mb=257 zone_size_mb=257",
    "capacity_mb=8 zone_size_mb=2 zone_capacity_blocks=1",
    "capacity_mb=8 zone_size_mb=2 zone_capacity_blocks=513",
    "capacity_mb=8 zone_size_mb=2 zone_capacity_mb=3",
    "capacity_mb=8 zone_size_mb=2 conv_zones=5",
    "capacity_mb=8 zone_size_mb=2 max_open=4097",
    "capacity_mb=8 zone_size_mb=2 max_active=4097",
    "capacity_mb=8 zone_size_mb=2 max_open=4 max_active=3",
];

#[test]
fn devices_are_asked_for(rt: HostRuntime) -> Result<(), Fail> {
    for (text, numbers) in ASKED {
        let words: Vec<&str> = text.split(' ').collect(rt.alloc())?;
        let [
            zones,
            conv,
            zone_blocks,
            zone_capacity,
            max_open,
            max_active,
        ] = numbers;
        let shape = Shape {
            zone_blocks,
            zone_capacity,
            max_open,
            max_active,
        };
        assert_eq!(rt;
            geometry_of(&words),
            Some(Geometry { zones, conv, shape }),
            "{text}"
        );
    }
    Ok(())
}

#[test]
fn other_words_are_refused(rt: HostRuntime) -> Result<(), Fail> {
    for text in REFUSED {
        let words: Vec<&str> = text.split(' ').collect(rt.alloc())?;
        assert_eq!(rt; geometry_of(&words), None, "{text}");
    }
    assert_eq!(rt; geometry_of::<&str>(&[]), None);
    Ok(())
}
