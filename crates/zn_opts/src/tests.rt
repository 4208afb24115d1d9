use crate::{format_opts, mount_opts};
use zn_model::OptError::{BadValue, Repeated, UnknownOption};
use zn_model::{FormatOpts, MountOpts, OptError, Policy};

/// Texts of a mount, and the fault that each has first.
const MOUNT_FAULTS: [(&str, OptError); 24] = [
    ("foo", UnknownOption(0)),
    ("foo,explicit-open", UnknownOption(0)),
    ("explicit-open,foo,errors=repair", UnknownOption(14)),
    ("explicit-open,errors=repair,foo", UnknownOption(28)),
    ("explicit-open,explicit-open,errors=repair", Repeated(14)),
    ("explicit-open,errors=repair,explicit-open", Repeated(28)),
    ("errors=repair,errors=repair", Repeated(14)),
    ("errors=repair,explicit-open,errors=panic", Repeated(28)),
    ("errors=panic", BadValue(7)),
    ("explicit-open,errors=panic,foo", BadValue(21)),
    ("explicit-open,errors=Repair", BadValue(21)),
    ("errors=repairs", BadValue(7)),
    ("foo,errors=panic", UnknownOption(0)),
    ("errors=panic,foo", BadValue(7)),
    ("errors=repair,errors=repair,foo", Repeated(14)),
    (",", UnknownOption(0)),
    (",explicit-open", UnknownOption(0)),
    ("explicit-open,,errors=repair", UnknownOption(14)),
    ("explicit-open,", UnknownOption(14)),
    ("errors=", BadValue(7)),
    ("errors", UnknownOption(0)),
    ("explicit-open=1", UnknownOption(0)),
    ("explicit-open ", UnknownOption(0)),
    ("uid=1", UnknownOption(0)),
];

/// Texts of a format, and the fault that each has first.
const FORMAT_FAULTS: [(&str, OptError); 32] = [
    ("foo,uid=1", UnknownOption(0)),
    ("uid=1,foo,gid=2", UnknownOption(6)),
    ("uid=1,gid=2,foo", UnknownOption(12)),
    ("aggr_cnv,aggr_cnv,uid=1", Repeated(9)),
    ("aggr_cnv,uid=1,aggr_cnv", Repeated(15)),
    ("uid=1,uid=1", Repeated(6)),
    ("gid=1,uid=1,gid=x", Repeated(12)),
    ("perm=640,perm=640", Repeated(9)),
    ("uid=x,gid=1", BadValue(4)),
    ("uid=1,gid=x,perm=1", BadValue(10)),
    ("uid=1,gid=2,perm=8", BadValue(17)),
    ("uid=x,uid=1,foo", BadValue(4)),
    (",", UnknownOption(0)),
    (",uid=1", UnknownOption(0)),
    ("uid=1,,gid=2", UnknownOption(6)),
    ("uid=1,", UnknownOption(6)),
    ("uid=", BadValue(4)),
    ("gid=", BadValue(4)),
    ("perm=", BadValue(5)),
    ("uid", UnknownOption(0)),
    ("perm", UnknownOption(0)),
    ("aggr_cnv=1", UnknownOption(0)),
    ("explicit-open", UnknownOption(0)),
    ("uid=01", BadValue(4)),
    ("gid=00", BadValue(4)),
    ("uid=4294967296", BadValue(4)),
    ("gid=99999999999999999999", BadValue(4)),
    ("uid=+1", BadValue(4)),
    ("perm=1777", BadValue(5)),
    ("perm=1000", BadValue(5)),
    ("perm=00777", BadValue(5)),
    ("perm=6 0", BadValue(5)),
];

#[test]
fn the_first_fault_of_a_mount_is_told(rt: HostRuntime) {
    for (text, fault) in MOUNT_FAULTS {
        assert!(rt; text.len() < 100);
        assert_eq!(rt; mount_opts(text.as_bytes()), Err(fault), "{text}");
    }
}

#[test]
fn the_first_fault_of_a_format_is_told(rt: HostRuntime) {
    for (text, fault) in FORMAT_FAULTS {
        assert!(rt; text.len() < 100);
        assert_eq!(rt; format_opts(text.as_bytes()), Err(fault), "{text}");
    }
}

#[test]
fn options_of_a_mount_are_read(rt: HostRuntime) {
    for (text, policy, explicit_open) in [
        ("", Policy::RemountRo, false),
        ("explicit-open", Policy::RemountRo, true),
        ("errors=remount-ro", Policy::RemountRo, false),
        ("errors=zone-ro", Policy::ZoneRo, false),
        (
            "errors=zone-offline,explicit-open",
            Policy::ZoneOffline,
            true,
        ),
        ("explicit-open,errors=repair", Policy::Repair, true),
    ] {
        assert_eq!(rt;
            mount_opts(text.as_bytes()),
            Ok(MountOpts {
                policy,
                explicit_open
            }),
            "{text}"
        );
    }
}

#[test]
fn options_of_a_format_are_read(rt: HostRuntime) {
    for (text, aggr_cnv, uid, gid, perm) in [
        ("", false, 0, 0, 0o640),
        ("aggr_cnv,uid=7,gid=8,perm=660", true, 7, 8, 0o660),
        (
            "perm=0777,gid=0,uid=4294967295",
            false,
            4294967295,
            0,
            0o777,
        ),
        ("perm=0", false, 0, 0, 0),
        ("perm=07,aggr_cnv", true, 0, 0, 0o7),
    ] {
        let opts = FormatOpts {
            aggr_cnv,
            uid,
            gid,
            perm,
        };
        assert_eq!(rt; format_opts(text.as_bytes()), Ok(opts), "{text}");
    }
}
