//! The parts of which the texts of states consist, and the texts of some states. Each text is given
//! as the list of its parts, and was worked out by hand.

use crate::locations::{LO, LO_0850, LO_0905, LO_1000, LO_1100, LT, LT_0935, LT_1030, LT_1130};
use crate::schedules::{BS, BS_C10002, BS_LONGER};
use crate::tiplocs::BODY_OF_TA;

/// The parts of a text, in order.
pub type Parts = &'static [&'static [u8]];

/// The beginning of a text: the mark, and the bytes for no horizon.
pub const MARK: &[u8] = b"DKS2\0\0";

/// The mark, followed by the horizon 15 June 2024.
pub const MARK_15: &[u8] = b"DKS2\x5b\xf6";

/// The mark of the older format, which has no horizon.
pub const OLD_MARK: &[u8] = b"DKS1";

/// The number zero in eight bytes.
pub const NONE: &[u8] = b"\0\0\0\0\0\0\0\0";

/// The number one in eight bytes.
pub const ONE: &[u8] = b"\0\0\0\0\0\0\0\x01";

/// The number two in eight bytes.
pub const TWO: &[u8] = b"\0\0\0\0\0\0\0\x02";

/// The ledger item of the update of 9 June 2024, 21:00.
pub const ITEM: &[u8] = b"\x5b\xf0\x04\xecDFROC1AUDFROC1Z";

/// The ledger item of the full extract of 9 June 2024, 21:00.
pub const ITEM_FULL: &[u8] = b"\x5b\xf0\x04\xecDFROC1AFDFROC1Z";

/// The ledger item of the update of 5 June.
pub const ITEM_5A: &[u8] = b"\x5b\xec\x04\xecDFROC1AUDFROC1Z";

/// The ledger item of the full extract of 7 June.
pub const ITEM_7B: &[u8] = b"\x5b\xee\x04\xecDFROC1BFDFROC1A";

/// The ledger item of the update of 8 June.
pub const ITEM_8A: &[u8] = b"\x5b\xef\x04\xecDFROC1AUDFROC1Z";

/// The ledger item of the second update of 9 June.
pub const ITEM_9B: &[u8] = b"\x5b\xf0\x04\xecDFROC1BUDFROC1A";

/// The ledger item of the third update of 9 June.
pub const ITEM_9C: &[u8] = b"\x5b\xf0\x04\xecDFROC1CUDFROC1B";

/// The ledger item of the update of 10 June.
pub const ITEM_10B: &[u8] = b"\x5b\xf1\x04\xecDFROC1BUDFROC1A";

/// The tag, the key and the stamp of the entry for C10001's schedule, which is record 2 of the
/// update of 9 June.
pub const SCHEDULE_HEAD: &[u8] = b"\x03C10001\x5b\xf1P\x5b\xf0\x04\xecDFROC1A\0\0\0\x02";

/// Like `SCHEDULE_HEAD`, for record 5 of the update.
pub const SCHEDULE_HEAD_5: &[u8] = b"\x03C10001\x5b\xf1P\x5b\xf0\x04\xecDFROC1A\0\0\0\x05";

/// Like `SCHEDULE_HEAD`, for record 2 of the second update of 9 June.
pub const SCHEDULE_HEAD_9B: &[u8] = b"\x03C10001\x5b\xf1P\x5b\xf0\x04\xecDFROC1B\0\0\0\x02";

/// The tag, the key and the stamp of the entry for C10003's schedule, which is record 2 of the
/// update of 5 June.
pub const C10003_HEAD_5A: &[u8] = b"\x03C10003\x5b\xf1P\x5b\xec\x04\xecDFROC1A\0\0\0\x02";

/// The tag, the key and the stamp of the entry for the TIPLOC ASHFELD in the update of 10 June.
pub const ASHFELD_HEAD_10B: &[u8] = b"\x01ASHFELD\x5b\xf1\x04\xecDFROC1B\0\0\0\x02";

/// The tag, the key and the stamp of the entry for the TIPLOC ASHFLDN in the update of 10 June.
pub const ASHFLDN_HEAD_10B: &[u8] = b"\x01ASHFLDN\x5b\xf1\x04\xecDFROC1B\0\0\0\x02";

/// The head of the entry for C10001's schedule, which is record 2 of the update of 9 June: all
/// bytes before the three lines.
pub const HEAD: &[u8] = b"\x03C10001\x5b\xf1P\x5b\xf0\x04\xecDFROC1A\0\0\0\x02\x01\0\0\0\x03";

/// Like `HEAD`, for record 3 of the update of 5 June.
pub const HEAD_5A: &[u8] = b"\x03C10001\x5b\xf1P\x5b\xec\x04\xecDFROC1A\0\0\0\x03\x01\0\0\0\x03";

/// Like `HEAD`, for record 2 of the third update of 9 June.
pub const HEAD_9C: &[u8] = b"\x03C10001\x5b\xf1P\x5b\xf0\x04\xecDFROC1C\0\0\0\x02\x01\0\0\0\x03";

/// Like `HEAD`, for record 2 of the update of 10 June.
pub const HEAD_10B: &[u8] = b"\x03C10001\x5b\xf1P\x5b\xf1\x04\xecDFROC1B\0\0\0\x02\x01\0\0\0\x03";

/// The head of the entry for C10002's schedule, which is record 2 of the full extract of 7 June.
pub const HEAD_C10002: &[u8] =
    b"\x03C10002\x5b\xf1P\x5b\xee\x04\xecDFROC1B\0\0\0\x02\x01\0\0\0\x03";

/// The op of a deletion.
pub const DELETED: &[u8] = b"\0";

/// The op of a live entry.
pub const PUT: &[u8] = b"\x01";

/// The op of a lapsed entry.
pub const LAPSED: &[u8] = b"\x02";

/// The state of an office that knows no files: 22 bytes.
pub const EMPTY_STATE: Parts = &[MARK, NONE, NONE];

/// The state of an office that knows the file `MORNING`: 311 bytes.
pub const MORNING_STATE: Parts = &[MARK, ONE, ITEM, ONE, HEAD, BS, LO, LT];

/// The state of an office that knows the file `MORNING`, as a text in the older format: 309 bytes.
pub const OLD_STATE: Parts = &[OLD_MARK, ONE, ITEM, ONE, HEAD, BS, LO, LT];

/// The state of an office that knows the file `MORNING` and a horizon: 67 bytes. The horizon is
/// after the last day of this file's train.
pub const LAPSED_STATE: Parts = &[MARK_15, ONE, ITEM, ONE, SCHEDULE_HEAD, LAPSED];

/// The state of an office that knows only the file `REVISION`: 311 bytes.
pub const REVISION_STATE: Parts = &[MARK, ONE, ITEM_10B, ONE, HEAD_10B, BS, LO_0905, LT_0935];

/// The state of an office that knows the files `MORNING` and `REVISION`: 330 bytes.
pub const REVISED_STATE: Parts = &[
    MARK, TWO, ITEM, ITEM_10B, ONE, HEAD_10B, BS, LO_0905, LT_0935,
];

/// The state of an office that knows the update of 5 June: 337 bytes.
pub const FIFTH_STATE: Parts = &[
    MARK,
    ONE,
    ITEM_5A,
    TWO,
    HEAD_5A,
    BS,
    LO,
    LT,
    C10003_HEAD_5A,
    DELETED,
];

/// The state of an office that knows three files: the update of 5 June, the full extract of 7 June
/// and the update of 9 June. It has 600 bytes.
pub const LATE_STATE: Parts = &[
    MARK,
    TWO,
    ITEM_7B,
    ITEM_9C,
    TWO,
    HEAD_9C,
    BS,
    LO_1100,
    LT_1130,
    HEAD_C10002,
    BS_C10002,
    LO_1000,
    LT_1030,
];

/// The state of an office that knows a file with a train, and a later file that deletes this train:
/// 86 bytes.
pub const DELETED_STATE: Parts = &[MARK, TWO, ITEM_8A, ITEM_9B, ONE, SCHEDULE_HEAD_9B, DELETED];

/// The state of an office that knows a file that adds a train and then deletes it: 67 bytes.
pub const WITHDRAWN_STATE: Parts = &[MARK, ONE, ITEM, ONE, SCHEDULE_HEAD_5, DELETED];

/// The state of an office that knows a file with a timing point, and a later file that gives this
/// timing point a new code: 171 bytes.
pub const RENAMED_STATE: Parts = &[
    MARK,
    TWO,
    ITEM,
    ITEM_10B,
    TWO,
    ASHFELD_HEAD_10B,
    DELETED,
    ASHFLDN_HEAD_10B,
    PUT,
    &BODY_OF_TA,
];

/// The state of an office that knows two files with equal stamps. The state has the greater of the
/// two entries: the entry of the train that runs until a later day. It has 311 bytes.
pub const LONGER_STATE: Parts = &[MARK, ONE, ITEM, ONE, HEAD, BS_LONGER, LO_0850, LT];

/// The state of an office that knows two files with equal stamps. The state has the greater of the
/// two entries: the entry whose body is greater, compared byte by byte. It has 311 bytes.
pub const LATER_STATE: Parts = &[MARK, ONE, ITEM, ONE, HEAD, BS, LO_0905, LT];

/// The state of an office that knows an update and a full extract with equal file stamps: 330
/// bytes.
pub const BOTH_STATE: Parts = &[MARK, TWO, ITEM_FULL, ITEM, ONE, HEAD, BS, LO, LT];
