// Laws of the texts and names of a device, and of what directories stand for.
ghost use Rattle.zn_stand.specs.DeviceLaws.{LimitsAreTested, TextsAreRead, NamesAreTested, RestIsStanding};

/// The test of the limits is the limits.
pub fn limits_are_tested()
    ensures { LimitsAreTested }
{}

/// A text is read as the one geometry whose text it is.
pub fn texts_are_read()
    ensures { TextsAreRead }
{}

/// The test of a name tells the names of a device.
pub fn names_are_tested()
    ensures { NamesAreTested }
{}

/// A directory stands for the device at rest, and for no other at rest.
pub fn rest_is_standing()
    ensures { RestIsStanding }
{}
