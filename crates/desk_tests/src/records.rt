//! The files and the texts of states that only these tests use, worked out by hand.

use std::alloc::Global;
use std::process::Abort;
use test_records::files::File;
use test_records::states::{
    DELETED, HEAD, HEAD_10B, ITEM, ITEM_10B, ITEM_FULL, MARK, ONE, Parts, TWO,
};
use test_records::{BS, BS_OVERLAY_WEEKDAYS, BS_REVISED, HD_10B, LO, LO_0905, LT, ZZ, text};

/// A file of 10 June that revises the morning train, so that it leaves five minutes later. The
/// train still arrives at 09:30.
pub(crate) const REVISION: File = &[HD_10B, BS_REVISED, LO_0905, LT, ZZ];

/// The file `REVISION`, without its trailer.
pub(crate) const OPEN: File = &[HD_10B, BS_REVISED, LO_0905, LT];

/// The number four in eight bytes.
const FOUR: &[u8] = b"\0\0\0\0\0\0\0\x04";

/// Like `HEAD`, for the overlay of C10001, which is record 5 of the update of 9 June.
const HEAD_OVERLAY: &[u8] = b"\x03C10001\x5b\xf1O\x5b\xf0\x04\xecDFROC1A\0\0\0\x05\x01\0\0\0\x03";

/// A state with entries for the schedule of the morning train and for its overlay.
pub(crate) const OVERLAID_STATE: Parts = &[
    MARK,
    ONE,
    ITEM,
    TWO,
    HEAD_OVERLAY,
    BS_OVERLAY_WEEKDAYS,
    LO_0905,
    LT,
    HEAD,
    BS,
    LO,
    LT,
];

/// The state of an office that knows only the file `REVISION`: 311 bytes. In a state, each basic
/// schedule has the transaction `N`.
pub(crate) const REVISION_STATE: Parts = &[MARK, ONE, ITEM_10B, ONE, HEAD_10B, BS, LO_0905, LT];

/// The state of an office that knows the file of the morning train and the file `REVISION`: 330
/// bytes.
pub(crate) const BOTH_STATE: Parts = &[MARK, TWO, ITEM, ITEM_10B, ONE, HEAD_10B, BS, LO_0905, LT];

/// The entries for three timing points from the full extract of 9 June, without their ops.
const ASHFELD: &[u8] = b"\x01ASHFELD\x5b\xf0\x04\xecDFROC1A\0\0\0\x02";

const BRAYTON: &[u8] = b"\x01BRAYTON\x5b\xf0\x04\xecDFROC1A\0\0\0\x03";

const CORHAM: &[u8] = b"\x01CORHAM \x5b\xf0\x04\xecDFROC1A\0\0\0\x04";

/// The op and the body of a timing point's put: first with a CRS code and a STANOX, then without.
/// The body is columns 10 to 72 of the timing point's record.
const WITH_CODES: &[u8] = b"\x0100123400AASHFELD JUNCTION          877010000ASFASHFELD         ";

const WITHOUT_CODES: &[u8] = b"\x01         CORHAM EXCHANGE                                       ";

/// A state with entries for the timing points Ashfeld, Brayton and Corham, and for the morning
/// train. The entry for Brayton is a deletion.
pub(crate) const PLACES_STATE: Parts = &[
    MARK,
    ONE,
    ITEM_FULL,
    FOUR,
    ASHFELD,
    WITH_CODES,
    BRAYTON,
    DELETED,
    CORHAM,
    WITHOUT_CODES,
    HEAD,
    BS,
    LO,
    LT,
];

/// Returns these lines as one text, each with a line feed.
pub(crate) fn lines_text(rt: &impl Abort, alloc: Global, lines: &[&[u8]]) -> Vec<u8> {
    text(alloc, lines, b"\n").expect(rt, "room")
}

/// Returns the concatenation of these parts of a state's text.
pub(crate) fn state_text(rt: &impl Abort, alloc: Global, parts: Parts) -> Vec<u8> {
    text(alloc, parts, b"").expect(rt, "room")
}
