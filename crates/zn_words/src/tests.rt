use crate::{Churn, Command, Format, dir_of, parse};
use std::alloc::Global;
use std::process::Abort;
use std::test::Fail;
use zn_lines::Scratch;
use zn_model::FormatOpts;
use zn_stand::Geometry;
use zn_super::Label;
use zn_truth::Shape;

/// Words that are no command line, with a blank between two of them: two blanks together have an empty word between
/// them.
const REFUSED: [&str; 149] = [
    "scratch",
    "scratch 4",
    "scratch 4 1",
    "scratch 4 1 2 3",
    "scratch 4 1 2 ",
    "scratch 4 1 2 --",
    "4 1 2",
    "",
    " 4 1 2",
    "scratch  1 2",
    "scratch 4  2",
    "scratch 4 1 ",
    "scratch   ",
    "-",
    "--",
    "-f",
    "scratch - 1 2",
    "scratch -4 1 2",
    "scratch 4 -1 2",
    "scratch 4 1 -2",
    "scratch -- 1 2",
    "scratch 4 1 --",
    "scratch -- 4 1 2",
    "-- scratch 4 1 2",
    "scratch --ZONES=4 1 2",
    "scratch --ZONES 4 1 2",
    "-h",
    "--help",
    "-V",
    "--version",
    "help",
    "help scratch",
    "--help 4 1 2",
    "scratch -h",
    "scratch --help",
    "scratch -V",
    "scratch --version",
    "scratch help",
    "scratch --help 1 2",
    "scratch 4 1 -h",
    "scratch 4 1 2 --help",
    "scratch 4 1 2 --version",
    "scratch help 1 2",
    "scratch 04 1 2",
    "scratch 4 01 2",
    "scratch 4 1 02",
    "scratch 4 00 2",
    "scratch +4 1 2",
    "scratch 4 +1 2",
    "scratch 4 1 +2",
    "scratch 0x4 1 2",
    "scratch 4.0 1 2",
    "scratch 4 1 \u{662}",
    "scratch 0 0 2",
    "scratch 4097 0 2",
    "scratch 4 5 2",
    "scratch 4 1 0",
    "scratch 4 1 1",
    "scratch 1 0 65537",
    "scratch 32 1 2049",
    "scratch 4294967300 1 2",
    "scratch 4 1 18446744073709551618",
    "scratsch 4 1 2",
    "Scratch 4 1 2",
    "zonefs scratch 4 1 2",
    // Seeds and steps.
    "churn",
    "churn 1",
    "churn 1 2 3",
    "churn 18446744073709551616 1",
    "churn 1 1000001",
    "churn 1 18446744073709551616",
    "churn 01 1",
    "churn 1 00",
    "churn 1 -1",
    "churn -1 1",
    "churn +1 1",
    "churn 1 0x1",
    "churn  1",
    "churn 1 ",
    "churn -- 1",
    "churn 1 --help",
    "churn -h",
    // Other first words.
    "churns 1 2",
    "Churn 1 2",
    "Run D",
    "run-D",
    "runs D",
    // Directories and options of `run`.
    "run",
    "run ",
    "run -",
    "run --",
    "run -x",
    "run D E",
    "run D ",
    "run -o",
    "run D -o",
    "run -o D",
    "run D -o ",
    "run D -o -x",
    "run D -o a -o b",
    "run D -o -o",
    "run D --o a",
    "run D -oa",
    "run D -O a",
    "run D -f",
    "run D -L a",
    "run D --",
    "run D -o=a",
    "run D -o é",
    "run D -o a\u{7f}",
    "run --help",
    "run D -h",
    // Directories and options of `mkfs`.
    "mkfs",
    "mkfs ",
    "mkfs -f",
    "mkfs D E",
    "mkfs D -f -f",
    "mkfs -f D -f",
    "mkfs D -ff",
    "mkfs D -fL a",
    "mkfs D -L",
    "mkfs D -L ",
    "mkfs D -L -f",
    "mkfs D -L a -L a",
    "mkfs D -U",
    "mkfs D -U 1",
    "mkfs D -U a -U a",
    "mkfs D -U 00000000-0000-0000-0000-00000000000g",
    "mkfs D -o",
    "mkfs D -o uid",
    "mkfs D -o uid=1,uid=1",
    "mkfs D -o perm=1000",
    "mkfs D -o aggr_cnv -o uid=1",
    "mkfs D -l a",
    "mkfs D --force",
    "mkfs D -x",
    "mkfs D -L é",
    // Directories and keys of `add`.
    "add",
    "add ",
    "add D",
    "add D ",
    "add -D capacity_blocks=4 zone_blocks=2",
    "add D -f capacity_blocks=4 zone_blocks=2",
    "add D capacity_blocks=4",
    "add D capacity_blocks=4 zone_blocks=2 ",
    "add D capacity_blocks=4 zone_blocks=2 zone_blocks=2",
    "add D capacity_blocks=4 zone_blocks=2 x=1",
    "add capacity_blocks=4 zone_blocks=2",
    "add D capacity_blocks=4 zone_blocks=2 -",
];

const OPTS: FormatOpts = FormatOpts {
    aggr_cnv: false,
    uid: 0,
    gid: 0,
    perm: 0o640,
};

/// The words of a text, which blanks part.
fn words_of(alloc: Global, text: &str) -> Result<Vec<String>, Fail> {
    let mut words = Vec::new(alloc);
    for word in text.split(' ') {
        words.push(String::from_str(alloc, word)?)?;
    }
    Ok(words)
}

/// Words name this directory, or none.
fn names_dir(
    rt: &impl Abort,
    alloc: Global,
    words: &[String],
    dir: Option<&str>,
) -> Result<(), Fail> {
    let named = dir_of(alloc, words)?;
    assert_eq!(rt;
        named.as_ref().map(|dir| dir.as_bytes()),
        dir.map(|dir| dir.as_bytes()),
        "{words:?}"
    );
    Ok(())
}

/// Words are no command line, and name no directory.
fn is_refused(rt: &impl Abort, alloc: Global, words: &[String]) -> Result<(), Fail> {
    match parse(alloc, words) {
        Ok(None) => names_dir(rt, alloc, words, None),
        _ => panic!(rt; "{words:?}"),
    }
}

/// Words ask for this device in memory.
fn is_scratch(rt: &impl Abort, alloc: Global, text: &str, asked: Scratch) -> Result<(), Fail> {
    let words = words_of(alloc, text)?;
    match parse(alloc, &words) {
        Ok(Some(Command::Scratch(scratch))) => assert_eq!(rt; scratch, asked, "{text}"),
        _ => panic!(rt; "{text}"),
    }
    names_dir(rt, alloc, &words, None)
}

/// Words ask for the lines of this script.
fn is_churn(rt: &impl Abort, alloc: Global, text: &str, asked: Churn) -> Result<(), Fail> {
    let words = words_of(alloc, text)?;
    match parse(alloc, &words) {
        Ok(Some(Command::Churn(churn))) => assert_eq!(rt; churn, asked, "{text}"),
        _ => panic!(rt; "{text}"),
    }
    names_dir(rt, alloc, &words, None)
}

/// Words add this device in the directory `D`.
fn is_add(rt: &impl Abort, alloc: Global, text: &str, asked: Geometry) -> Result<(), Fail> {
    let words = words_of(alloc, text)?;
    match parse(alloc, &words) {
        Ok(Some(Command::Add(dir, geo))) => assert_eq!(rt; (dir, geo), ("D", asked), "{text}"),
        _ => panic!(rt; "{text}"),
    }
    names_dir(rt, alloc, &words, Some("D"))
}

/// Words format the device in the directory `D` so.
fn is_mkfs(rt: &impl Abort, alloc: Global, text: &str, asked: Format) -> Result<(), Fail> {
    let words = words_of(alloc, text)?;
    match parse(alloc, &words) {
        Ok(Some(Command::Mkfs(dir, format))) => {
            assert_eq!(rt; dir, "D", "{text}");
            assert!(rt; format == asked, "{text}");
        }
        _ => panic!(rt; "{text}"),
    }
    names_dir(rt, alloc, &words, Some("D"))
}

/// Words run a script on the device in the directory `D`, with these options.
fn is_run(rt: &impl Abort, alloc: Global, text: &str, asked: Option<&str>) -> Result<(), Fail> {
    let words = words_of(alloc, text)?;
    match parse(alloc, &words) {
        Ok(Some(Command::Run(dir, options))) => {
            assert_eq!(rt; dir, "D", "{text}");
            assert_eq!(rt; options, asked, "{text}");
        }
        _ => panic!(rt; "{text}"),
    }
    names_dir(rt, alloc, &words, Some("D"))
}

#[test]
fn other_words_are_no_command(rt: HostRuntime) -> Result<(), Fail> {
    let alloc = rt.alloc();
    is_refused(&rt, alloc, &[])?;
    for text in REFUSED {
        let words = words_of(alloc, text)?;
        is_refused(&rt, alloc, &words)?;
    }
    Ok(())
}

#[test]
fn devices_in_memory_are_asked_for(rt: HostRuntime) -> Result<(), Fail> {
    for (text, zones, conv, blocks) in [
        ("scratch 1 0 2", 1, 0, 2),
        ("scratch 4 1 2", 4, 1, 2),
        ("scratch 4 4 2", 4, 4, 2),
        ("scratch 9 0 10", 9, 0, 10),
        ("scratch 4096 4096 16", 4096, 4096, 16),
        ("scratch 1 1 65536", 1, 1, 65536),
        ("scratch 32 31 2048", 32, 31, 2048),
    ] {
        let scratch = Scratch {
            zones,
            conv,
            blocks,
        };
        is_scratch(&rt, rt.alloc(), text, scratch)?;
    }
    Ok(())
}

#[test]
fn lines_are_made_from_seeds(rt: HostRuntime) -> Result<(), Fail> {
    for (text, seed, steps) in [
        ("churn 1 0", 1, 0),
        ("churn 0 7", 0, 7),
        ("churn 18446744073709551615 1000000", u64::MAX, 1_000_000),
    ] {
        is_churn(&rt, rt.alloc(), text, Churn { seed, steps })?;
    }
    Ok(())
}

#[test]
fn devices_are_added(rt: HostRuntime) -> Result<(), Fail> {
    let shape = Shape {
        zone_blocks: 2,
        zone_capacity: 2,
        max_open: 0,
        max_active: 0,
    };
    let geo = Geometry {
        zones: 2,
        conv: 0,
        shape,
    };
    for text in [
        "add D capacity_blocks=4 zone_blocks=2",
        "add D zone_blocks=2 capacity_blocks=3 conv_zones=0",
    ] {
        is_add(&rt, rt.alloc(), text, geo)?;
    }
    Ok(())
}

#[test]
fn scripts_are_run(rt: HostRuntime) -> Result<(), Fail> {
    for (text, options) in [
        ("run D", None),
        ("run D -o errors=repair", Some("errors=repair")),
        ("run -o errors=repair D", Some("errors=repair")),
        ("run D -o ~!", Some("~!")),
    ] {
        is_run(&rt, rt.alloc(), text, options)?;
    }
    Ok(())
}

#[test]
fn devices_are_formatted(rt: HostRuntime) -> Result<(), Fail> {
    let label = Label::new(b"a").unwrap_or(Label::empty());
    let uuid = Some([0x11; 16]);
    let opts = FormatOpts {
        aggr_cnv: true,
        uid: 7,
        gid: 8,
        perm: 0o600,
    };
    let plain = Label::empty();
    let urn = "mkfs D -U urn:uuid:11111111-1111-1111-1111-111111111111";
    let whole =
        "mkfs -o aggr_cnv,uid=7,gid=8,perm=600 -U 11111111111111111111111111111111 D -L a -f";
    for (text, force, label, uuid, opts) in [
        ("mkfs D", false, plain, None, OPTS),
        ("mkfs -f D", true, plain, None, OPTS),
        ("mkfs D -f", true, plain, None, OPTS),
        ("mkfs -L a D", false, label, None, OPTS),
        ("mkfs D -L a", false, label, None, OPTS),
        (
            "mkfs D -U 11111111-1111-1111-1111-111111111111",
            false,
            plain,
            uuid,
            OPTS,
        ),
        (urn, false, plain, uuid, OPTS),
        (
            "mkfs -U 11111111111111111111111111111111 D",
            false,
            plain,
            uuid,
            OPTS,
        ),
        (whole, true, label, uuid, opts),
    ] {
        let format = Format {
            force,
            label,
            uuid,
            opts,
        };
        is_mkfs(&rt, rt.alloc(), text, format)?;
    }
    Ok(())
}
