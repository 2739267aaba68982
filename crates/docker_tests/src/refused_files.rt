//! Tests of files that an office refuses. A refusal leaves the office's state unchanged.

use crate::compare::same;
use crate::offices::{has, office_of, text_of};
use cif_file::{FileCause, FileFault};
use cif_line::Bytes;
use docker_office::{Office, OfficeFault};
use std::alloc::Global;
use std::process::Abort;
use test_records::files::*;
use test_records::states::REVISION_STATE;
use test_records::{BS, BS_NO_DAY, HD, HD_X, LI_1010, LN, LO, LO_2400, LT, TI_TAB, ZZ};

/// A line of 79 characters.
pub(crate) const SHORT: &[u8] =
    b"ZZ                                                                             ";

/// A row: a file that is refused, the most records that a file may have, the number of the record
/// at fault, and the cause.
type Row = (File, u16, u32, FileCause);

const REFUSED: &[Row] = &[
    (&[], 1000, 1, FileCause::NoEnd),
    (&[BS, LO, LT, ZZ], 1000, 1, FileCause::Place),
    (&[HD_X, ZZ], 1000, 1, FileCause::Field(47)),
    (&[HD, SHORT, ZZ], 1000, 2, FileCause::Length),
    (&[HD, TI_TAB, ZZ], 1000, 2, FileCause::Byte(20)),
    (&[HD, LN, ZZ], 1000, 2, FileCause::Kind),
    (&[HD, ZZ, LI_1010], 1000, 3, FileCause::After),
    (&[HD, BS, LT, ZZ], 1000, 3, FileCause::Place),
    (&[HD, BS, ZZ], 1000, 3, FileCause::Place),
    (&[HD, BS, LO_2400, LT, ZZ], 1000, 3, FileCause::Field(11)),
    (&[HD, BS], 1000, 3, FileCause::NoEnd),
    (&[HD, BS_NO_DAY, LO, LT, ZZ], 1000, 2, FileCause::Field(10)),
    (THREE_NIGHTS, 1000, 6, FileCause::Midnights),
    (OPEN, 1000, 5, FileCause::NoEnd),
    (MORNING, 3, 4, FileCause::TooMany),
    (MORNING, 0, 1, FileCause::TooMany),
    (&[], 0, 1, FileCause::NoEnd),
];

/// Lets an office take a file of at most `limit` records, and returns the result.
fn taken(office: &mut Office, text: &[u8], limit: u16) -> Result<(), OfficeFault> {
    office.take(&mut Bytes::new(text, 9), u32::from(limit))
}

/// Asserts that an office that knows the file `REVISION` refuses the file of this row, and that the
/// office's state is then unchanged.
fn is_refused(rt: &impl Abort, alloc: Global, office: &mut Office, row: &Row) {
    let (file, limit, number, cause) = *row;
    let text = text_of(rt, alloc, file);
    let answer = taken(office, text.as_slice(), limit);
    let fault = FileFault { number, cause };
    same(rt, answer, Err(OfficeFault::File(fault)));
    has(rt, alloc, office, REVISION_STATE);
}

#[test]
fn refused_files_leave_the_office(rt: HostRuntime) {
    let mut office = office_of(&rt, rt.alloc(), &[REVISION]);
    for row in REFUSED {
        is_refused(&rt, rt.alloc(), &mut office, row);
    }
}
