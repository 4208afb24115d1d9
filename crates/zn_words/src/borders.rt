// Where each option may stand, and how long its value may be.
use crate::{MOST_OPTIONS, parse};
use std::alloc::Global;
use std::test::Fail;

/// The options of `mkfs` that take a value, each with one that it may have.
const WITH_VALUE: [(&str, &str); 3] = [
    ("-L", "a"),
    ("-U", "01234567-89ab-cdef-0123-456789ABCDEF"),
    ("-o", "uid=1"),
];

/// The longest features that are some: each of them once, with the most digits that it may have.
const LONGEST_FEATURES: &str = "perm=0777,uid=4294967295,aggr_cnv,gid=4294967295";

/// Whether words are a command line.
fn asks(alloc: Global, words: &[&str]) -> Result<bool, Fail> {
    let mut list = Vec::new(alloc);
    for word in words {
        list.push(String::from_str(alloc, word)?)?;
    }
    match parse(alloc, &list) {
        Ok(asked) => Ok(asked.is_some()),
        Err(error) => Err(error.into()),
    }
}

/// A word of so many letters.
fn letters(alloc: Global, count: usize) -> Result<String, Fail> {
    let mut word = String::new(alloc);
    for _ in 0..count {
        word.push('a')?;
    }
    Ok(word)
}

/// Whether words are a command line that give an option a value of so many letters.
fn takes_letters(alloc: Global, command: &str, option: &str, count: usize) -> Result<bool, Fail> {
    let value = letters(alloc, count)?;
    asks(alloc, &[command, "D", option, value.as_str()])
}

#[test]
fn options_stand_anywhere(rt: HostRuntime) -> Result<(), Fail> {
    let alloc = rt.alloc();
    for (option, value) in WITH_VALUE {
        assert!(rt; asks(alloc, &["mkfs", option, value, "D"])?, "{option}");
        assert!(rt; asks(alloc, &["mkfs", "D", option, value])?, "{option}");
        // `run` has the last of them alone
        let is_asked = asks(alloc, &["run", "D", option, value])?;
        assert_eq!(rt; is_asked, option == "-o", "{option}");
    }
    Ok(())
}

/// Without a value, with an option in its place, or with nothing but it.
#[test]
fn options_have_values(rt: HostRuntime) -> Result<(), Fail> {
    let alloc = rt.alloc();
    for (option, value) in WITH_VALUE {
        assert!(rt; !asks(alloc, &["mkfs", "D", option])?, "{option}");
        assert!(rt; !asks(alloc, &["mkfs", "D", option, ""])?, "{option}");
        assert!(rt; !asks(alloc, &["mkfs", "D", option, "-f"])?, "{option}");
        assert!(rt; !asks(alloc, &["mkfs", option, "D", "-f"])?, "{option}");
        assert!(rt; !asks(alloc, &["mkfs", option, value])?, "{option}");
    }
    Ok(())
}

#[test]
fn options_stand_once(rt: HostRuntime) -> Result<(), Fail> {
    let alloc = rt.alloc();
    for (option, value) in WITH_VALUE {
        assert!(rt;
            !asks(alloc, &["mkfs", option, value, option, value, "D"])?,
            "{option}"
        );
        assert!(rt;
            !asks(alloc, &["mkfs", option, value, "D", option, value])?,
            "{option}"
        );
        assert!(rt;
            !asks(alloc, &["mkfs", "D", option, value, option, value])?,
            "{option}"
        );
    }
    Ok(())
}

#[test]
fn options_stand_in_any_order(rt: HostRuntime) -> Result<(), Fail> {
    let alloc = rt.alloc();
    let [(label, name), (uuid, identifier), (opts, features)] = WITH_VALUE;
    for words in [
        [
            "mkfs", "-f", label, name, uuid, identifier, opts, features, "D",
        ],
        [
            "mkfs", "D", opts, features, uuid, identifier, label, name, "-f",
        ],
        [
            "mkfs", uuid, identifier, "D", "-f", opts, features, label, name,
        ],
        [
            "mkfs", label, name, opts, features, "-f", "D", uuid, identifier,
        ],
    ] {
        assert!(rt; asks(alloc, &words)?);
    }
    Ok(())
}

#[test]
fn a_value_may_be_the_word_of_a_command(rt: HostRuntime) -> Result<(), Fail> {
    let alloc = rt.alloc();
    assert!(rt; asks(alloc, &["run", "run"])?);
    assert!(rt; asks(alloc, &["run", "scratch", "-o", "mkfs"])?);
    assert!(rt; asks(alloc, &["mkfs", "-L", "mkfs", "add"])?);
    assert!(rt; asks(alloc, &["mkfs", "-L", "D", "D"])?);
    Ok(())
}

#[test]
fn values_have_their_lengths(rt: HostRuntime) -> Result<(), Fail> {
    let alloc = rt.alloc();
    for (command, option, most) in [("mkfs", "-L", 64), ("run", "-o", MOST_OPTIONS)] {
        assert!(rt; takes_letters(alloc, command, option, most)?, "{option}");
        assert!(rt;
            !takes_letters(alloc, command, option, most + 1)?,
            "{option}"
        );
    }
    assert!(rt; asks(alloc, &["mkfs", "D", "-o", LONGEST_FEATURES])?);
    for features in [
        "perm=00777",
        "uid=04294967295",
        "uid=4294967296",
        "perm=0777,uid=4294967295,aggr_cnv,gid=4294967295,",
        "perm=0777,uid=4294967295,aggr_cnv,gid=4294967295,perm=0777",
    ] {
        assert!(rt; !asks(alloc, &["mkfs", "D", "-o", features])?, "{features}");
    }
    assert!(rt; !takes_letters(alloc, "mkfs", "-o", 70_000)?);
    Ok(())
}

#[test]
fn a_device_may_have_many_keys(rt: HostRuntime) -> Result<(), Fail> {
    let alloc = rt.alloc();
    let mut words = [
        "add",
        "D",
        "max_active=3",
        "capacity_mb=8",
        "zone_capacity_mb=1",
        "conv_zones=1",
        "zone_size_mb=2",
        "max_open=2",
    ];
    assert!(rt; asks(alloc, &words)?);
    for i in 2..8 {
        let key = words[i];
        for word in ["", "-f", "-o", "--", "D", "max_open=2,", "max_open"] {
            words[i] = word;
            assert!(rt; !asks(alloc, &words)?, "{word}");
        }
        words[i] = key;
    }
    Ok(())
}
