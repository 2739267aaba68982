//! Lines that the command `files` prints: each is about one file, and has the file's date, time,
//! reference, update indicator and last reference.

/// The line of the update of 9 June 2024, 21:00.
pub const UPDATE_9A: &[u8] = b"2024-06-09 2100 DFROC1A U DFROC1Z";

/// The line of the full extract of 9 June 2024, 21:00.
pub const EXTRACT_9A: &[u8] = b"2024-06-09 2100 DFROC1A F DFROC1Z";

/// The line of the full extract of 7 June.
pub const EXTRACT_7B: &[u8] = b"2024-06-07 2100 DFROC1B F DFROC1A";

/// The line of the update of 9 June that follows the full extract of 7 June.
pub const UPDATE_9C: &[u8] = b"2024-06-09 2100 DFROC1C U DFROC1B";

/// The line of the update of 10 June.
pub const UPDATE_10B: &[u8] = b"2024-06-10 2100 DFROC1B U DFROC1A";

/// The line of the update of 1 January 2000, 03:07.
pub const UPDATE_EARLY: &[u8] = b"2000-01-01 0307 DFROC1A U DFROC1Z";
