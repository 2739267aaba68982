//! Tests of the program's status and printed line for each fault.

use crate::compare::same;
use cif_file::{FileCause, FileFault};
use docker_cmd::{Fault, JobFault, OfficeFault, fault_text, status};
use docker_office::{StateCause, StateFault};
use std::process::Abort;

/// Asserts the program's status for a fault, and the line that the program prints for it.
fn reports(rt: &impl Abort, fault: Fault, number: u8, line: &str) {
    same(rt, status(&fault), number);
    let text = fault_text(&fault);
    same(rt, text.as_slice(), line.as_bytes());
}

/// Asserts the line that the program prints for a file with a fault at its second record.
fn reports_file(rt: &impl Abort, cause: FileCause, line: &str) {
    let fault = FileFault { number: 2, cause };
    reports(rt, Fault::Office(OfficeFault::File(fault)), 1, line);
}

/// Asserts the line that the program prints for a state with a fault at this offset.
fn reports_state(rt: &impl Abort, at: u64, cause: StateCause, line: &str) {
    let fault = StateFault { at, cause };
    reports(rt, Fault::Office(OfficeFault::State(fault)), 1, line);
}

#[test]
fn lines_of_faults(rt: HostRuntime) {
    reports(
        &rt,
        Fault::Job(JobFault::Usage),
        2,
        "docker: usage: new STATE | check FILE | day FILE TIPLOC DATE | take STATE FILE | merge STATE OTHER | print STATE TIPLOC DATE | files STATE | horizon STATE DATE | migrate STATE\n",
    );
    reports(
        &rt,
        Fault::Job(JobFault::Memory),
        3,
        "docker: want of memory\n",
    );
    reports(
        &rt,
        Fault::Job(JobFault::Source),
        4,
        "docker: device failed\n",
    );
}

#[test]
fn lines_of_office_faults(rt: HostRuntime) {
    reports(
        &rt,
        Fault::Office(OfficeFault::Memory),
        3,
        "docker: want of memory\n",
    );
    reports(
        &rt,
        Fault::Office(OfficeFault::Source),
        4,
        "docker: device failed\n",
    );
    reports(
        &rt,
        Fault::Office(OfficeFault::Sink),
        4,
        "docker: device failed\n",
    );
    reports(
        &rt,
        Fault::Office(OfficeFault::Lapsed),
        1,
        "docker: day refused: before horizon plus three days\n",
    );
}

#[test]
fn lines_of_refused_records(rt: HostRuntime) {
    reports_file(
        &rt,
        FileCause::Length,
        "docker: file refused: record 2: Length\n",
    );
    reports_file(
        &rt,
        FileCause::Byte(20),
        "docker: file refused: record 2: Byte 20\n",
    );
    reports_file(
        &rt,
        FileCause::Kind,
        "docker: file refused: record 2: Kind\n",
    );
    reports_file(
        &rt,
        FileCause::Place,
        "docker: file refused: record 2: Place\n",
    );
    reports_file(
        &rt,
        FileCause::Field(11),
        "docker: file refused: record 2: Field 11\n",
    );
}

#[test]
fn lines_of_refused_files(rt: HostRuntime) {
    reports_file(
        &rt,
        FileCause::Midnights,
        "docker: file refused: record 2: Midnights\n",
    );
    reports_file(
        &rt,
        FileCause::NoEnd,
        "docker: file refused: record 2: NoEnd\n",
    );
    reports_file(
        &rt,
        FileCause::After,
        "docker: file refused: record 2: After\n",
    );
    reports_file(
        &rt,
        FileCause::TooMany,
        "docker: file refused: record 2: TooMany\n",
    );
}

#[test]
fn lines_of_refused_states(rt: HostRuntime) {
    reports_state(
        &rt,
        0,
        StateCause::Mark,
        "docker: state refused: offset 0: Mark\n",
    );
    reports_state(
        &rt,
        4,
        StateCause::Horizon,
        "docker: state refused: offset 4: Horizon\n",
    );
    reports_state(
        &rt,
        14,
        StateCause::Item,
        "docker: state refused: offset 14: Item\n",
    );
    reports_state(
        &rt,
        33,
        StateCause::Order,
        "docker: state refused: offset 33: Order\n",
    );
    reports_state(
        &rt,
        33,
        StateCause::Floor,
        "docker: state refused: offset 33: Floor\n",
    );
}

#[test]
fn lines_of_refused_entries(rt: HostRuntime) {
    reports_state(
        &rt,
        41,
        StateCause::Tag,
        "docker: state refused: offset 41: Tag\n",
    );
    reports_state(
        &rt,
        41,
        StateCause::Stamp,
        "docker: state refused: offset 41: Stamp\n",
    );
    reports_state(
        &rt,
        41,
        StateCause::Body,
        "docker: state refused: offset 41: Body\n",
    );
}

#[test]
fn lines_of_refused_lengths(rt: HostRuntime) {
    reports_state(
        &rt,
        311,
        StateCause::Short,
        "docker: state refused: offset 311: Short\n",
    );
    reports_state(
        &rt,
        311,
        StateCause::Tail,
        "docker: state refused: offset 311: Tail\n",
    );
    reports_state(
        &rt,
        1_099_511_627_776,
        StateCause::Long,
        "docker: state refused: offset 1099511627776: Long\n",
    );
}
