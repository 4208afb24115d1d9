// Small directories of devices, worked through.
ghost use Rattle.zn_stand.specs.DeviceCases.{TextWritten, TextsRefused, NoDevice, BadText, FileMissing, FileShort};
ghost use Rattle.zn_stand.specs.DeviceCases.{FileUneven, FileLong, OtherFile, MarkerFull, MarkerAlone, ManyActive, Held};

/// The text of a geometry.
pub fn text_written()
    ensures { TextWritten }
{}

/// Texts that are refused, each by a line.
pub fn texts_refused()
    ensures { TextsRefused }
{}

/// A directory without a file `device`.
pub fn no_device()
    ensures { NoDevice }
{}

/// A text that isn't of its form.
pub fn bad_text()
    ensures { BadText }
{}

/// A zone without a file.
pub fn file_missing()
    ensures { FileMissing }
{}

/// A conventional zone whose file is too short.
pub fn file_short()
    ensures { FileShort }
{}

/// A sequential zone whose file isn't whole blocks.
pub fn file_uneven()
    ensures { FileUneven }
{}

/// An offline zone whose file is too long.
pub fn file_long()
    ensures { FileLong }
{}

/// A file that no device has.
pub fn other_file()
    ensures { OtherFile }
{}

/// A marker that isn't empty.
pub fn marker_full()
    ensures { MarkerFull }
{}

/// A marker of a zone that isn't there.
pub fn marker_alone()
    ensures { MarkerAlone }
{}

/// More active zones than may be.
pub fn many_active()
    ensures { ManyActive }
{}

/// A device with zones that aren't good.
pub fn held()
    ensures { Held }
{}
