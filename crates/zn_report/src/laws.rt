// A law over the definitions, the contract of a function that does nothing.
ghost use Rattle.zn_report.specs.Layouts.{LayoutsAreOfZones};

/// The files that zones make are of these zones: each lies behind zone 0, has zones of its kind alone, and a
/// sequential one has a single zone.
pub fn layouts_are_of_zones()
    ensures { LayoutsAreOfZones }
{}
