//! Where what stands in front of a slot's batches lies, counted from the slot's gate.

/// The generation, of eight bytes.
pub const GENERATION_PLACE: usize = 1;

/// The version, of one byte.
pub const VERSION_PLACE: usize = 9;

/// The revision of the image, of eight bytes.
pub const BASE_PLACE: usize = 10;

/// How many bytes the image has, of four bytes.
pub const LENGTH_PLACE: usize = 18;

/// The image. Behind it stands the first batch's gate.
pub const IMAGE_PLACE: usize = 22;

/// The version of all that is written.
pub const VERSION: u8 = 2;

/// The oldest version that is read: in such a slot no batch has a change set.
pub const FIRST_VERSION: u8 = 1;

/// How many bytes of the other slot one call writes at most, while the image is copied.
pub const PART: usize = 65_536;
