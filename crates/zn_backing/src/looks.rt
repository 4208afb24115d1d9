// The geometry of a directory, and the names that don't belong to it.
ghost use Rattle.std.specs.Prelude.{◌≡◌, None, Some, length, IfOk, IfErr, IsTrue};
ghost use Rattle.zn_stand.specs.Directory.{Directory, contents, bytes_at};
ghost use Rattle.zn_stand.specs.DeviceText.{is_within};
ghost use Rattle.zn_stand.specs.AtRest.{is_extra};
ghost use Rattle.zn_files.specs.States.{directory, WhereTold};
ghost use Rattle.zn_backing.specs.Failures.{cause_of};
ghost use Rattle.zn_backing.specs.Steps.{Steps, Sought, IsFileIn};
ghost use Rattle.zn_backing.specs.Looks.{Lists, HasGeometry, HasFiles, HasNames};

use crate::OpenError;
use crate::calls::{len_of, read_all};
use crate::listed::contains;
use crate::owned::{DEVICE, is_marker_of, is_name_of};
use crate::text::read_text;
use std::alloc::Global;
use zn_files::{Files, Names, Text};
use zn_stand::{Geometry, LONGEST_TEXT};

/// The bytes of the file `device`, which is so long.
fn text_of<F: Files>(alloc: Global, files: &mut F, len: usize) -> Result<Vec<u8>, OpenError>
    requires there { IsFileIn (F.state files.old) DEVICE.now }
    requires whole { WhereTold (F.state files.old) DEVICE.now (λ bytes. len ≡ length bytes) }
    ensures steps { Steps result (F.state files.old) (F.state files.new) }
    ensures bytes { WhereTold (F.state files.old) DEVICE.now (λ bytes. IfOk result (λ text. text.items ≡ bytes)) }
    ensures plain { IfErr result (λ e. cause_of e ≡ None) }
{
    let mut text = vec![in alloc; 0; len]?;
    read_all(files, DEVICE, &mut text)?;
    Ok(text)
}

/// Whether a file isn't the device's, or is a marker that isn't empty.
fn is_extra<F: Files>(files: &mut F, geo: &Geometry, name: &str) -> Result<bool, OpenError>
    requires { IsFileIn (F.state files.old) name.now }
    ensures steps { Steps result (F.state files.old) (F.state files.new) }
    ensures extra { (d : Directory) → directory (F.state files.old) ≡ Some d
        → IfOk result (λ extra. extra ≡ is_extra (bytes_at (contents d)) geo.now name.now) }
    ensures plain { IfErr result (λ e. cause_of e ≡ None) }
{
    if !is_name_of(geo, name) {
        return Ok(true);
    }
    if !is_marker_of(geo, name) {
        return Ok(false);
    }
    let len = len_of(files, name)?;
    Ok(0 < len)
}

/// The geometry that the file `device` tells.
pub fn geometry_in<F: Files>(
    alloc: Global,
    files: &mut F,
    names: &Names,
) -> Result<Geometry, OpenError>
    requires { Lists names.now (F.state files.old) }
    ensures sought { Sought result (F.state files.old) (F.state files.new)
        (λ d geo. HasGeometry (contents d) geo) }
    ensures within { IfOk result (λ geo. IsTrue (is_within geo)) }
{
    if !contains(names, DEVICE) {
        return Err(OpenError::NotADevice);
    }
    let len = match len_of(files, DEVICE) {
        Ok(len) => len,
        Err(e) => return Err(e),
    };
    if len > LONGEST_TEXT as u64 {
        return Err(OpenError::BadGeometry(8));
    }
    let text = match text_of(alloc, files, len as usize) {
        Ok(text) => text,
        Err(e) => return Err(e),
    };
    match read_text(&text) {
        Ok(geo) => Ok(geo),
        Err(line) => Err(OpenError::BadGeometry(line)),
    }
}

/// Refuses names that aren't the device's.
pub fn no_extra<F: Files>(
    alloc: Global,
    files: &mut F,
    names: &Names,
    geo: &Geometry,
) -> Result<(), OpenError>
    requires listed { Lists names.now (F.state files.old) }
    requires held { (d : Directory) → directory (F.state files.old) ≡ Some d → HasFiles (contents d) geo.now }
    ensures { Sought result (F.state files.old) (F.state files.new) (λ d all. HasNames (contents d) geo.now) }
{
    for i in 0..names.count() {
        let name = names.at(i);
        let extra = match is_extra(files, geo, name) {
            Ok(extra) => extra,
            Err(e) => return Err(e),
        };
        if extra {
            return Err(OpenError::ExtraName(Text::new(alloc, name.as_bytes())?));
        }
    }
    Ok(())
}
