//! Tests of detailed dockers.

use crate::answers::{answers, answers_whole};
use crate::desks::{day_of, desk_of, docker_on};
use crate::expected::DAY_REFUSED;
use crate::records::OVERLAID_STATE;
use docker_desk::DockerKind;
use test_records::dockers::{AT_ASHFELD, END, LEAVES_0900, LEAVES_AS_OVERLAY};
use test_records::states::Parts;
use test_records::{BS, BS_OVERLAY_WEEKDAYS, LO, LO_0905};

/// Columns 57 to 136 of a heading, or a record that there isn't.
const BLANK: &[u8] =
    b"                                                                                ";

/// The last 27 columns of a heading or of the last line, and the line feed.
const LAST_COLUMNS: &[u8] = b"                           \n";

/// The answer to `detail` for Ashfeld on 10 June, from a desk whose state has the morning train and
/// its overlay: three lines of 484 bytes. The train's first event is its departure.
const DETAILED_OVERLAY: Parts = &[
    b"0 3 1452\n",
    AT_ASHFELD,
    BLANK,
    BLANK,
    BLANK,
    BLANK,
    BLANK,
    LAST_COLUMNS,
    LEAVES_AS_OVERLAY,
    b" 2024-06-10          1 ",
    BS_OVERLAY_WEEKDAYS,
    b" ",
    BLANK,
    b" ",
    BLANK,
    b" ",
    LO_0905,
    b" ",
    BLANK,
    b"\n",
    END,
    BLANK,
    BLANK,
    BLANK,
    BLANK,
    BLANK,
    LAST_COLUMNS,
];

/// The answer of the same desk to `permanent-detail` for Ashfeld on 10 June.
const DETAILED_PERMANENT: Parts = &[
    b"0 3 1452\n",
    AT_ASHFELD,
    BLANK,
    BLANK,
    BLANK,
    BLANK,
    BLANK,
    LAST_COLUMNS,
    LEAVES_0900,
    b" 2024-06-10          1 ",
    BS,
    b" ",
    BLANK,
    b" ",
    BLANK,
    b" ",
    LO,
    b" ",
    BLANK,
    b"\n",
    END,
    BLANK,
    BLANK,
    BLANK,
    BLANK,
    BLANK,
    LAST_COLUMNS,
];

/// The detailed docker shows the records of the overlay, and the permanent detailed docker shows
/// the records of the schedule that the overlay replaces. Both are refused for the same days as a docker.
#[test]
fn answers_with_details(rt: HostRuntime) {
    let alloc = rt.alloc();
    let detail = docker_on(&rt, DockerKind::Detailed, "2024-06-10");
    let permanent = docker_on(&rt, DockerKind::PermanentDetailed, "2024-06-10");
    let mut desk = desk_of(&rt, alloc, OVERLAID_STATE);
    answers_whole(&rt, alloc, &desk.show(&detail), DETAILED_OVERLAY);
    answers_whole(&rt, alloc, &desk.show(&permanent), DETAILED_PERMANENT);
    desk.set_horizon(day_of(&rt, "2024-06-08"));
    answers(&rt, alloc, &desk.show(&detail), DAY_REFUSED);
    answers(&rt, alloc, &desk.show(&permanent), DAY_REFUSED);
}
