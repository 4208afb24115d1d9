// The numbers of a zoned device that a directory keeps.
use zn_truth::Shape;

/// The longest text of a geometry, in bytes.
pub const LONGEST_TEXT: usize = 4096;

/// The greatest number that a field of a geometry holds.
pub const GREATEST_NUMBER: u32 = u32::MAX;

/// The zones of a device: how many there are, and how many of them, from the first one on, are conventional.
#[derive(Clone, Copy, Debug, PartialEq, Eq)]
pub struct Geometry {
    pub zones: u32,
    pub conv: u32,
    pub shape: Shape,
}
