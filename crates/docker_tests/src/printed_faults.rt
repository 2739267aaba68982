//! Tests of how faults are printed.

use crate::compare::same;
use cif_file::{FileCause, FileFault};
use docker_cmd::{Fault, JobFault, OfficeFault};
use docker_day::DockerFault;
use docker_office::{RunFault, StateCause, StateFault};
use std::alloc::Global;
use std::fmt::Display;
use std::process::Abort;

/// Asserts how a value is printed.
fn prints<T: Display + Drop>(rt: &impl Abort, alloc: Global, value: T, wanted: &str) {
    let text = format!(in alloc; "{value}").expect(rt, "the text");
    same(rt, text.as_str(), wanted);
}

/// The fault of a refused file.
const REFUSED_FILE: OfficeFault = OfficeFault::File(FileFault {
    number: 2,
    cause: FileCause::Field(11),
});

/// The fault of a refused state.
const REFUSED_STATE: OfficeFault = OfficeFault::State(StateFault {
    at: 31,
    cause: StateCause::Order,
});

#[test]
fn faults_of_an_office(rt: HostRuntime) {
    let alloc = rt.alloc();
    prints(&rt, alloc, REFUSED_FILE, "file refused: record 2: Field 11");
    prints(&rt, alloc, REFUSED_STATE, "state refused: offset 31: Order");
    prints(
        &rt,
        alloc,
        OfficeFault::Lapsed,
        "day refused: before horizon plus three days",
    );
    prints(&rt, alloc, OfficeFault::Source, "the source failed");
    prints(&rt, alloc, OfficeFault::Sink, "the sink failed");
    prints(&rt, alloc, OfficeFault::Memory, "want of memory");
}

#[test]
fn faults_of_a_run(rt: HostRuntime) {
    let alloc = rt.alloc();
    prints(&rt, alloc, RunFault::NoOffice, "no such office");
    prints(&rt, alloc, RunFault::NoMessage, "no such message");
    prints(
        &rt,
        alloc,
        RunFault::Office(REFUSED_FILE),
        "file refused: record 2: Field 11",
    );
}

#[test]
fn faults_of_words_and_of_a_docker(rt: HostRuntime) {
    let alloc = rt.alloc();
    prints(&rt, alloc, JobFault::Usage, "usage");
    prints(&rt, alloc, JobFault::Memory, "want of memory");
    prints(&rt, alloc, JobFault::Source, "device failed");
    prints(&rt, alloc, DockerFault::Lapsed, "lapsed");
    prints(&rt, alloc, DockerFault::Memory, "out of memory");
}

#[test]
fn faults_of_the_program(rt: HostRuntime) {
    let alloc = rt.alloc();
    prints(&rt, alloc, Fault::Job(JobFault::Usage), "usage");
    prints(&rt, alloc, Fault::Job(JobFault::Source), "device failed");
    prints(
        &rt,
        alloc,
        Fault::Office(REFUSED_STATE),
        "state refused: offset 31: Order",
    );
    prints(
        &rt,
        alloc,
        Fault::Office(OfficeFault::Memory),
        "want of memory",
    );
}
