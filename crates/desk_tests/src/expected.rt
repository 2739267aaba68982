//! The answers and the reported lines that tests expect, worked out by hand. Each is the list of
//! its lines. The first line of an answer is its header: its status, and how many lines and bytes
//! its text has.

use test_records::dockers::{
    AT_ASHFELD, AT_ASHFELD_18, END, LEAVES_0900, LEAVES_0905, LEAVES_AS_OVERLAY, Lines,
};
use test_records::ledgers::{UPDATE_9A, UPDATE_10B};

/// The usage line: 292 bytes with its line feed.
const USAGE_LINE: &[u8] = b"\
desk: usage: [--write] STATE, and then a line for each request: print TIPLOC DATE \
| permanent TIPLOC DATE | detail TIPLOC DATE | permanent-detail TIPLOC DATE | train UID DATE \
| trains IDENTITY DATE | files | places | known | renew | with --write take FILE | merge OTHER \
| horizon DATE | save";

/// What `--help` prints: 305 bytes with the line feeds.
pub(crate) const HELP: Lines = &[
    b"desk: usage: [--write] STATE, and then a line for each request:",
    b"print TIPLOC DATE",
    b"permanent TIPLOC DATE",
    b"detail TIPLOC DATE",
    b"permanent-detail TIPLOC DATE",
    b"train UID DATE",
    b"trains IDENTITY DATE",
    b"files",
    b"places",
    b"known",
    b"renew",
    b"with --write take FILE",
    b"with --write merge OTHER",
    b"with --write horizon DATE",
    b"with --write save",
];

/// What `--version` prints: 32 bytes with the line feed.
pub(crate) const VERSION: Lines = &[b"desk: STATE has the format DKS2"];

/// The line on a device that failed.
const DEVICE_LINE: &[u8] = b"docker: device failed";

/// The line on unsaved changes.
const UNSAVED_LINE: &[u8] = b"desk: changes not saved";

/// The line on a state whose text doesn't begin with the mark of a state.
pub(crate) const NO_MARK_LINE: &[u8] = b"docker: state refused: offset 0: Mark";

/// The answer to a line that isn't a request.
pub(crate) const USAGE: Lines = &[b"2 1 292", USAGE_LINE];

/// The answer with the docker of Ashfeld on 10 June, from a desk that knows the file with the
/// morning train.
pub(crate) const ANSWER_0900: Lines = &[b"0 3 171", AT_ASHFELD, LEAVES_0900, END];

/// The answer with the docker of Ashfeld on 10 June, from a desk whose state has the morning train
/// and its overlay.
pub(crate) const ANSWER_OVERLAID: Lines = &[b"0 3 171", AT_ASHFELD, LEAVES_AS_OVERLAY, END];

/// The answer with the docker of Ashfeld on 10 June, from a desk that knows the file with the
/// revision of the morning train.
pub(crate) const ANSWER_0905: Lines = &[b"0 3 171", AT_ASHFELD, LEAVES_0905, END];

/// The answer with the docker of Ashfeld on 18 June, a day on which no train calls there.
pub(crate) const ANSWER_18_JUNE: Lines = &[b"0 2 114", AT_ASHFELD_18, END];

/// The answer to a request for a docker that is refused because of the horizon.
pub(crate) const DAY_REFUSED: Lines = &[
    b"1 1 52",
    b"docker: day refused: before horizon plus three days",
];

/// The answer to a request that succeeded, if the answer has no text.
pub(crate) const DONE: Lines = &[b"0 0 0"];

/// The answer to a request whose file can't be read or stored.
pub(crate) const FAILED: Lines = &[b"4 1 22", DEVICE_LINE];

/// The answer to a request whose file has four records and no trailer.
pub(crate) const FILE_WITHOUT_END: Lines = &[b"1 1 38", b"docker: file refused: record 5: NoEnd"];

/// The answer to a request whose file should hold a state, but doesn't begin with the mark of a
/// state.
pub(crate) const STATE_WITHOUT_MARK: Lines = &[b"1 1 38", NO_MARK_LINE];

/// What is reported if the words aren't the words of a session.
pub(crate) const NO_SESSION: Lines = &[USAGE_LINE];

/// What is reported if the input or the output of a session failed.
pub(crate) const DEVICE: Lines = &[DEVICE_LINE];

/// What is reported if there are unsaved changes at the end of a session.
pub(crate) const UNSAVED: Lines = &[UNSAVED_LINE];

/// What is reported if the input or the output failed, and there are unsaved changes.
pub(crate) const DEVICE_UNSAVED: Lines = &[DEVICE_LINE, UNSAVED_LINE];

/// The answer to `files` of a desk that knows only the file with the morning train.
pub(crate) const FILES: Lines = &[b"0 1 34", UPDATE_9A];

/// The answer to `files` of a desk that knows the file with the morning train and the file with its
/// revision.
pub(crate) const BOTH_FILES: Lines = &[b"0 2 68", UPDATE_9A, UPDATE_10B];
