/// The most bytes of a file that is listed: 64 MiB.
pub const MOST_BYTES: u64 = 67_108_864;
