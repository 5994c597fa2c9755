// Bit patterns of f32 that the routines name.

// What the pattern of a float with a set sign bit is not below.
pub const SIGN_BIT: u32 = 0x8000_0000;

// The infinity's: of the patterns with a clear sign bit, those above it are the NaNs'.
pub const INFINITY_BITS: u32 = 0x7f80_0000;
