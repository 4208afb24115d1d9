// The bytes of a file in memory.
ghost use Rattle.std.specs.Prelude.{◌≡◌, ◌+◌, ◌≤◌, length, take, drop, vec_len, OnOk, OnErr};
ghost use Rattle.zn_truth.specs.Orders.{replaced};

use std::alloc::AllocError;

/// Puts bytes in place from `at` on. The file grows where it ends before.
pub fn put_bytes(file: &mut Vec<u8>, at: usize, bytes: &[u8]) -> Result<(), AllocError>
    requires { at ≤ vec_len file.old }
    ensures ok { OnOk result (file.new.items ≡ replaced file.old.items at bytes.now) }
    ensures err { OnErr result (file.new.items ≡ file.old.items) }
{
    let over = bytes.len().min(file.len() - at);
    file.extend_from_slice(&bytes[over..])?;
    file[at..at + over].copy_from_slice(&bytes[..over]);
    Ok(())
}

/// Reads bytes from `at` on, as many as fill `out`.
pub fn read_bytes(file: &[u8], at: usize, out: &mut [u8])
    requires { at + length out.old ≤ length file.now }
    ensures { out.new ≡ take (length out.old) (drop at file.now) }
{
    out.copy_from_slice(&file[at..at + out.len()]);
}
