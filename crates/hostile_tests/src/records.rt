//! The files and dockers that rows name. Most of them are in `test_records`, and the others are made
//! from its records and lines.

use std::alloc::{AllocError, Global};
use test_records::dockers::{
    ASHFELD_0900, ASHFELD_0905, AT_ASHFELD, DIVISION, END, LEAVES_1000, LEAVES_1100,
    NONE_AT_ASHFELD, TWO_TRAINS,
};
use test_records::files::{
    DIVISION_FILE, FIFTH, MORNING, NINTH, NINTH_OPEN, OPEN, PLACE, RENAMED, REVISION, SEVENTH,
};
use test_records::{
    BS, BS_C30001, HD, HD_X, LI_1010, LI_1040, LO, LO_1000_PLAIN, LT, LT_1100_PLAIN, TI, TI_BLANK,
    ZZ, text,
};

/// The lines of a text. Each line in `ended` ends with `end`. The last line, `open`, has no line
/// end, and may be empty.
#[derive(Drop)]
pub(crate) struct Lines<'a> {
    ended: &'a [&'a [u8]],
    end: &'a [u8],
    open: &'a [u8],
}

impl Lines<'_> {
    /// The text of these lines.
    pub(crate) fn text(&self, alloc: Global) -> Result<Vec<u8>, AllocError> {
        let mut whole = text(alloc, self.ended, self.end)?;
        whole.extend_from_slice(self.open)?;
        Ok(whole)
    }
}

/// These lines, each with a line feed at its end.
fn fed<'a>(lines: &'a [&'a [u8]]) -> Lines<'a> {
    before(lines, b"")
}

/// These lines, each with a line feed at its end, and then the line `open` without a line end.
fn before<'a>(lines: &'a [&'a [u8]], open: &'a [u8]) -> Lines<'a> {
    Lines {
        ended: lines,
        end: b"\n",
        open,
    }
}

/// The lines of the file or docker with this name, or `None` if no file or docker with this name is
/// made here.
pub(crate) fn lines_of<'a>(name: &str) -> Option<Lines<'a>> {
    match name {
        "train.cif" => Some(fed(MORNING)),
        "train-returns.cif" => Some(Lines {
            ended: MORNING,
            end: b"\r\n",
            open: b"",
        }),
        "division.cif" => Some(fed(DIVISION_FILE)),
        "revision.cif" => Some(fed(REVISION)),
        "fifth.cif" => Some(fed(FIFTH)),
        "seventh.cif" => Some(fed(SEVENTH)),
        "ninth.cif" => Some(fed(NINTH)),
        "place.cif" => Some(fed(PLACE)),
        "renamed.cif" => Some(fed(RENAMED)),
        "header.cif" => Some(fed(&[HD])),
        "header-of-no-extract.cif" => Some(fed(&[HD_X])),
        "place-record.cif" => Some(fed(&[TI])),
        "blank-place-record.cif" => Some(fed(&[TI_BLANK])),
        _ => open_lines_of(name),
    }
}

/// Like `lines_of`, for files that lack the last line end or the trailer.
fn open_lines_of<'a>(name: &str) -> Option<Lines<'a>> {
    match name {
        "train-open.cif" => Some(before(OPEN, ZZ)),
        "train-without-end.cif" => Some(before(&[HD, BS, LO], LT)),
        "division-without-end.cif" => Some(before(
            &[HD, BS_C30001, LO_1000_PLAIN, LI_1010, LI_1040],
            LT_1100_PLAIN,
        )),
        "ninth-without-end.cif" => Some(fed(NINTH_OPEN)),
        _ => docker_of(name),
    }
}

/// Like `lines_of`, for dockers.
fn docker_of<'a>(name: &str) -> Option<Lines<'a>> {
    match name {
        "none.docker" => Some(fed(NONE_AT_ASHFELD)),
        "train.docker" => Some(fed(ASHFELD_0900)),
        "revised.docker" => Some(fed(ASHFELD_0905)),
        "seventh.docker" => Some(fed(&[AT_ASHFELD, LEAVES_1000, END])),
        "ninth.docker" => Some(fed(&[AT_ASHFELD, LEAVES_1100, END])),
        "late.docker" => Some(fed(TWO_TRAINS)),
        "division.docker" => Some(fed(DIVISION)),
        _ => None,
    }
}
