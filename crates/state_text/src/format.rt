//! The formats of a state's text: the width of each part, and the offset of each field in its part.
//! Widths and offsets are in bytes.

/// The formats, each named by its mark. In `DKS1` there is no horizon, and no op says that an entry
/// has lapsed.
#[derive(Clone, Copy, Debug)]
pub enum Format {
    /// The older of the two formats.
    Dks1,
    /// The newer format, in which states are written.
    Dks2,
}

/// The width of a mark.
pub const MARK: usize = 4;

/// The width of a horizon.
pub const HORIZON: usize = 2;

/// The width of a count of ledger items or entries.
pub const COUNT: usize = 8;

/// The width of a file stamp.
pub const FILE_STAMP: usize = 11;

/// The width of a ledger item: a file stamp, a letter and a reference.
pub const ITEM: usize = 19;

/// The width of the tag of an entry.
pub const TAG: usize = 1;

/// The width of the key of a TIPLOC.
pub const TIPLOC_KEY: usize = 7;

/// The width of the key of an association.
pub const ASSOC_KEY: usize = 23;

/// The width of the key of a schedule.
pub const SCHEDULE_KEY: usize = 9;

/// The width of a stamp: a file stamp and a record number.
pub const STAMP: usize = 15;

/// The width of an op without its body.
pub const OP: usize = 1;

/// The width of the body of a TIPLOC.
pub const TIPLOC_BODY: usize = 63;

/// The width of the count of a schedule's lines.
pub const LINE_COUNT: usize = 4;

/// The width of a line. An association's body is a line. No part of the text is wider.
pub const LINE: usize = 80;

/// The greatest width of an entry without a schedule's lines. An association's put has this width:
/// a key with its tag, a stamp, an op and a line.
pub const ENTRY_HEAD: usize = 120;

/// The offset of the minute in a file stamp.
pub const MINUTE_AT: usize = 2;

/// The offset of the reference in a file stamp.
pub const REFERENCE_AT: usize = 4;

/// The offset of the update indicator in a ledger item.
pub const INDICATOR_AT: usize = 11;

/// The offset of the last file reference in a ledger item.
pub const LAST_REFERENCE_AT: usize = 12;

/// The offset of the record number in a stamp.
pub const NUMBER_AT: usize = 11;

/// The offset of the associated UID in an association's key.
pub const ASSOCIATED_AT: usize = 6;

/// The offset of the first day in an association's key.
pub const START_AT: usize = 12;

/// The offset of the location in an association's key.
pub const LOCATION_AT: usize = 14;

/// The offset of the suffix in an association's key.
pub const SUFFIX_AT: usize = 21;

/// The offset of the STP indicator in an association's key.
pub const ASSOC_STP_AT: usize = 22;

/// The offset of the first day in a schedule's key.
pub const RUNS_FROM_AT: usize = 6;

/// The offset of the STP indicator in a schedule's key.
pub const SCHEDULE_STP_AT: usize = 8;

/// The tag of a TIPLOC.
pub const TIPLOC_TAG: u8 = 1;

/// The tag of an association.
pub const ASSOC_TAG: u8 = 2;

/// The tag of a schedule.
pub const SCHEDULE_TAG: u8 = 3;

/// The byte of a deletion's op.
pub const DELETED: u8 = 0;

/// The byte of a put's op. A body follows it.
pub const PUT: u8 = 1;

/// The byte of a lapsed entry's op.
pub const LAPSED: u8 = 2;
