ghost use Rattle.std.specs.Prelude.{◌≡◌, ◌≤◌, IfOk};

use crate::{Handles, Open, TooManyHandles, access};
use bitflags::Flags;
use std::alloc::Global;
use std::process::Abort;
use std::test::Fail;
use zn_model::{Handle, Mode, Who};

// Handles on file 1 of three, of which the first is conventional.
fn open_many(rt: &impl Abort, alloc: Global, n: u64) -> Result<(Handles, Vec<Handle>), Fail>
    requires { n ≤ 1024 }
    ensures files { IfOk result (λ p. p.0.files ≡ 3) }
    ensures opened { IfOk result (λ p. p.0.handles.opened ≡ n) }
{
    let mut handles = Handles::new(alloc, 1, 3)?;
    let mut all = Vec::new(alloc);
    for i in 0..n {
        let h = handles.insert(1, Mode::READ)?;
        assert_eq!(rt; h.generation, i);
        all.push(h)?;
    }
    Ok((handles, all))
}

#[test]
fn a_key_is_used_again_and_a_handle_is_not(rt: HostRuntime) -> Result<(), Fail> {
    let (mut handles, all) = open_many(&rt, rt.alloc(), 1024)?;
    assert_eq!(rt; handles.live(), 1024);
    assert_eq!(rt; handles.insert(2, Mode::READ), Err(TooManyHandles));
    assert_eq!(rt; all.len(), 1024);
    let old = all[500];
    let read = Open {
        file: 1,
        mode: Mode::READ,
    };
    assert_eq!(rt; handles.remove(old), Some(read));
    assert_eq!(rt; handles.remove(old), None);
    assert_eq!(rt; handles.live(), 1023);
    let new = handles.insert(2, Mode::WRITE)?;
    assert_eq!(rt; (new.key, new.generation), (old.key, 1024));
    assert_eq!(rt; handles.get(old), None);
    assert_eq!(rt;
        handles.get(new),
        Some(Open {
            file: 2,
            mode: Mode::WRITE
        })
    );
    assert_eq!(rt; handles.get(all[501]), Some(read));
    Ok(())
}

// The writers of each file, and the sequential files that have one, as handles open and close.
#[test]
fn writers_are_counted(rt: HostRuntime) -> Result<(), Fail> {
    let mut handles = Handles::new(rt.alloc(), 1, 3)?;
    let both = Mode::READ.union(Mode::WRITE);
    let a = handles.insert(0, Mode::WRITE)?;
    let b = handles.insert(1, both)?;
    let c = handles.insert(1, Mode::WRITE)?;
    let d = handles.insert(2, Mode::READ)?;
    let e = handles.insert(2, both)?;
    assert_eq!(rt;
        (handles.writers(0), handles.writers(1), handles.writers(2)),
        (1, 2, 1)
    );
    assert_eq!(rt; (handles.live(), handles.wro()), (5, 2));
    for (h, writers, wro) in [
        (c, (1, 1, 1), 2),
        (a, (0, 1, 1), 2),
        (d, (0, 1, 1), 2),
        (b, (0, 0, 1), 1),
        (e, (0, 0, 0), 0),
    ] {
        assert!(rt; handles.remove(h).is_some());
        assert_eq!(rt;
            (handles.writers(0), handles.writers(1), handles.writers(2)),
            writers
        );
        assert_eq!(rt; handles.wro(), wro);
    }
    assert_eq!(rt; handles.live(), 0);
    Ok(())
}

#[test]
fn rights(rt: HostRuntime) {
    let owner = Who { uid: 7, gid: 8 };
    let mate = Who { uid: 9, gid: 8 };
    let other = Who { uid: 9, gid: 9 };
    let root = Who { uid: 0, gid: 0 };
    let both = Mode::READ.union(Mode::WRITE);
    for (perm, who, mode, want) in [
        (0o640, owner, both, true),
        (0o640, mate, Mode::READ, true),
        (0o640, mate, Mode::WRITE, false),
        (0o640, other, Mode::READ, false),
        (0o046, owner, Mode::READ, false),
        (0o046, mate, both, false),
        (0o046, other, both, true),
        (0, root, both, true),
    ] {
        assert_eq!(rt;
            access(perm, owner, who, mode),
            want,
            "at {perm} {who:?} {mode:?}"
        );
    }
}
