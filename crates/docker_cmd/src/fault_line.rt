//! How the program reports a fault: its exit status and its line on standard error.
ghost use Rattle.std.specs.Prelude.{◌≡◌, ◌+◌, ◌≤◌, ◌++◌, [], decimal};
ghost use Rattle.arrayvec.specs.ArrayVec.{array_vec_len};
ghost use Rattle.cif_change.specs.Cause.{cause_text};
ghost use Rattle.docker_cmd.specs.FaultLine.{status_of, fault_line, file_line, state_line};

use crate::fault::Fault;
use crate::job_fault::JobFault;
use crate::tasks::usage;
use arrayvec::ArrayVec;
use cif_file::{FileCause, FileFault};
use docker_office::{OfficeFault, StateFault};
use fixed_text::put;
use itoa::Buffer;

/// The line that reports a fault, with its line feed.
pub type FaultText = ArrayVec<u8, 192>;

/// Returns the exit status for a fault: 1 for refused input, 2 for usage, 3 for out of memory, 4
/// for a failed device.
pub fn status(fault: &Fault) -> u8
    ensures { result ≡ status_of fault.now }
{
    match fault {
        Fault::Office(OfficeFault::File(_) | OfficeFault::State(_) | OfficeFault::Lapsed) => 1,
        Fault::Job(JobFault::Usage) => 2,
        Fault::Job(JobFault::Memory) | Fault::Office(OfficeFault::Memory) => 3,
        Fault::Job(JobFault::Source) | Fault::Office(OfficeFault::Source | OfficeFault::Sink) => 4,
    }
}

/// Returns the line that reports a fault on standard error.
pub fn fault_text(fault: &Fault) -> FaultText
    ensures { result.items ≡ fault_line fault.now }
{
    let mut text = ArrayVec::new();
    match fault {
        Fault::Office(OfficeFault::File(fault)) => put_file_fault(&mut text, fault),
        Fault::Office(OfficeFault::State(fault)) => put_state_fault(&mut text, fault),
        Fault::Office(OfficeFault::Lapsed) => put(
            &mut text,
            b"docker: day refused: before horizon plus three days\n",
        ),
        Fault::Job(JobFault::Usage) => put(&mut text, usage()),
        Fault::Job(JobFault::Memory) | Fault::Office(OfficeFault::Memory) => {
            put(&mut text, b"docker: want of memory\n")
        }
        Fault::Job(JobFault::Source) | Fault::Office(OfficeFault::Source | OfficeFault::Sink) => {
            put(&mut text, b"docker: device failed\n")
        }
    }
    text
}

/// Appends a number in decimal.
fn put_number(text: &mut FaultText, number: u64)
    requires { array_vec_len text.old ≤ 100 }
    ensures text { text.new.items ≡ text.old.items ++ decimal number }
    ensures bound { array_vec_len text.new ≤ array_vec_len text.old + 20 }
{
    put(text, Buffer::new().format(number).as_bytes());
}

/// Appends the line that reports a refused file.
fn put_file_fault(text: &mut FaultText, fault: &FileFault)
    requires { text.old.items ≡ [] }
    ensures { text.new.items ≡ text.old.items ++ file_line fault.now }
{
    put(text, b"docker: file refused: record ");
    put_number(text, u64::from(fault.number));
    put(text, b": ");
    put_cause(text, &fault.cause);
    put(text, b"\n");
}

/// Appends the cause of a file's fault by name, and then a space and the column if the cause has
/// one.
fn put_cause(text: &mut FaultText, cause: &FileCause)
    requires { array_vec_len text.old ≤ 80 }
    ensures text { text.new.items ≡ text.old.items ++ cause_text cause.now }
    ensures bound { array_vec_len text.new ≤ array_vec_len text.old + 30 }
{
    put(text, cause.name().as_bytes());
    if let Some(column) = cause.column() {
        put(text, b" ");
        put_number(text, u64::from(column));
    }
}

/// Appends the line that reports a refused state.
fn put_state_fault(text: &mut FaultText, fault: &StateFault)
    requires { text.old.items ≡ [] }
    ensures { text.new.items ≡ text.old.items ++ state_line fault.now }
{
    put(text, b"docker: state refused: offset ");
    put_number(text, fault.at);
    put(text, b": ");
    put(text, fault.cause.name().as_bytes());
    put(text, b"\n");
}
