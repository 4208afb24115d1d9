// Last lines and small devices, worked through.
ghost use Rattle.zn_commands.specs.Cases.{OpenLines, OpenStatuses, AddLine, FormatLines, FormatStatuses};
ghost use Rattle.zn_commands.specs.Cases.{NothingHeld, ReadOnlyRefused};

/// Why a directory isn't opened.
pub fn open_lines()
    ensures { OpenLines }
{}

/// With which status.
pub fn open_statuses()
    ensures { OpenStatuses }
{}

/// A directory that isn't empty.
pub fn add_line()
    ensures { AddLine }
{}

/// How a format ends.
pub fn format_lines()
    ensures { FormatLines }
{}

/// With which status.
pub fn format_statuses()
    ensures { FormatStatuses }
{}

/// A device without a super block.
pub fn nothing_held()
    ensures { NothingHeld }
{}

/// A device that no format takes.
pub fn read_only_refused()
    ensures { ReadOnlyRefused }
{}
