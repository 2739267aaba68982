//! Parts of texts, besides those in `test_records`. The texts of the examples are concatenations of
//! these parts.

/// The greatest number in eight bytes.
pub(super) const MOST: &[u8] = b"\xff\xff\xff\xff\xff\xff\xff\xff";

/// A ledger item with a day number above the greatest day number.
pub(super) const ITEM_LATE: &[u8] = b"\x8e\xad\x04\xecDFROC1AUDFROC1Z";

/// The tag and the key of the TIPLOC ASHFELD.
pub(super) const ASHFELD: &[u8] = b"\x01ASHFELD";

/// The tag and the key of the association between C10001 and C10002.
pub(super) const JOINS: &[u8] = b"\x02C10001C10002\x5b\xf1ASHFELD P";

/// The tag and the key of the schedule of C10001.
pub(super) const C10001: &[u8] = b"\x03C10001\x5b\xf1P";

/// The file stamp of the file of 9 June.
pub(super) const FILE: &[u8] = b"\x5b\xf0\x04\xecDFROC1A";

/// The number of the first record after a header.
pub(super) const SECOND: &[u8] = b"\x00\x00\x00\x02";

/// The body of a TIPLOC: 63 printable bytes, including the least and the greatest printable byte.
pub(super) const CENTRAL: &[u8] =
    b"         ASHFIELD CENTRAL                                     ~";

/// The last day of C10001's schedule, 2024-06-14.
pub(super) const LAST: &[u8] = b"\x5b\xf5";

/// The day after the last day of C10001's schedule.
pub(super) const AFTER: &[u8] = b"\x5b\xf6";

/// The last day of the calendar, 2059-12-31.
pub(super) const GREATEST: &[u8] = b"\x8e\xac";

/// The number after the greatest day number.
pub(super) const TOO_LATE: &[u8] = b"\x8e\xad";

/// The count of ledger items and the count of entries, both 0.
pub(super) const NOTHING: &[u8] = b"\0\0\0\0\0\0\0\0\0\0\0\0\0\0\0\0";

/// The tag, the key and the stamp of the entry for the association between C10001 and C10002.
pub(super) const JOINS_HEAD: &[u8] =
    b"\x02C10001C10002\x5b\xf1ASHFELD P\x5b\xf0\x04\xecDFROC1A\x00\x00\x00\x02";

/// The tag, the key and the stamp of the entry for the TIPLOC ASHFELD.
pub(super) const ASHFELD_HEAD: &[u8] = b"\x01ASHFELD\x5b\xf0\x04\xecDFROC1A\x00\x00\x00\x02";

/// The head of a schedule's entry, with a tag that isn't valid.
pub(super) const HEAD_OF_NO_TAG: &[u8] =
    b"\x04C10001\x5b\xf1P\x5b\xf0\x04\xecDFROC1A\x00\x00\x00\x02\x01\x00\x00\x00\x03";

/// The head of a schedule's entry, with the stamp of a file that isn't in the ledger.
pub(super) const HEAD_OF_NO_FILE: &[u8] =
    b"\x03C10001\x5b\xf1P\x5b\xf0\x04\xecDFROC1B\x00\x00\x00\x02\x01\x00\x00\x00\x03";

/// The head of a schedule's entry, with an op that isn't valid.
pub(super) const HEAD_OF_NO_OP: &[u8] =
    b"\x03C10001\x5b\xf1P\x5b\xf0\x04\xecDFROC1A\x00\x00\x00\x02\x03\x00\x00\x00\x03";

/// The head of a schedule's entry, with the op of a lapsed entry.
pub(super) const HEAD_LAPSED: &[u8] =
    b"\x03C10001\x5b\xf1P\x5b\xf0\x04\xecDFROC1A\x00\x00\x00\x02\x02\x00\x00\x00\x03";
