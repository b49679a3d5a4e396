// A vocabulary: the limits of the scope document here, replies on paper in specs/, the laws of tests in proofs/. No crate stands on it; it has no function.
#![tactic(auto)]

// The most values of a list, and the places of a row of a store: 0 to 256 subcarriers.
pub const MOST_VALUES: usize = 256;

// The most frames of a window, and the rows of a store.
pub const MOST_FRAMES: usize = 16;

// The places of an amplitude or phase store: 16 rows of 256.
pub const STORE_PLACES: usize = 4096;

// 2^64 - 1: a number that is never given, and a time at which no window begins.
pub const LARGEST: u64 = 0xffff_ffff_ffff_ffff;

// 1e-3: a scale or a baseline's RMS below it is taken for none.
pub const THOUSANDTH: f32 = 0.001;
