//! Reports how a session ended.
ghost use Rattle.std.specs.Prelude.{◌≡◌, ◌-◌, ◌^◌, ◌<◌, ◌++◌};
ghost use Rattle.docker_cmd.specs.FaultLine.{fault_line, status_of};
ghost use Rattle.docker_host.specs.FaultSink.{TellsText, faults_view};
ghost use Rattle.docker_desk.specs.Serving.{EndsWithStatus, unsaved_text};

use cif_line::{Sink, write_all};
use docker_cmd::{Fault, OfficeFault, fault_text, status};
use docker_host::tell_text;

/// The line on standard error that reports unsaved changes.
const UNSAVED: &[u8] = b"desk: changes not saved\n";

/// The reason why a session ended.
#[derive(Clone, Copy, PartialEq, Eq, Debug)]
pub enum Ending {
    /// The input is at its end, and every line was answered.
    Ended,
    /// The input failed.
    InputFailed,
    /// The input has at least 2 ^ 64 - 1 bytes, too many to count.
    InputEndless,
    /// The output failed.
    OutputFailed,
}

/// Reports how a session ended, and returns its exit status: 0 if all is saved, 1 if changes
/// weren't saved, or 4 if a device failed. The line on a failed device comes before the line on
/// unsaved changes.
pub(crate) fn end_session<L: Sink>(ending: Ending, unsaved: bool, faults: &mut L) -> u8
    requires { L.failures faults.old < 2 ^ 64 - 1 }
    ensures { EndsWithStatus ending unsaved result
        (faults_view (L.taken faults.old) (L.failures faults.old))
        (faults_view (L.taken faults.new) (L.failures faults.new)) }
{
    match ending {
        Ending::Ended => {
            tell_text(unsaved_line(unsaved), faults);
            if unsaved { 1 } else { 0 }
        }
        Ending::InputFailed => tell_failure(&Fault::Office(OfficeFault::Source), unsaved, faults),
        Ending::InputEndless => tell_failure(&Fault::Office(OfficeFault::Source), unsaved, faults),
        Ending::OutputFailed => tell_failure(&Fault::Office(OfficeFault::Sink), unsaved, faults),
    }
}

/// Returns the line that reports unsaved changes, or an empty text if there are none.
fn unsaved_line<'a>(unsaved: bool) -> &'a [u8]
    ensures { result.now ≡ unsaved_text unsaved }
{
    if unsaved { UNSAVED } else { b"" }
}

/// Writes the line that reports a fault. If there are unsaved changes, the line on unsaved changes
/// follows, but only if the whole first line was written. Returns the fault's exit status.
pub(crate) fn tell_failure<L: Sink>(fault: &Fault, unsaved: bool, faults: &mut L) -> u8
    requires { L.failures faults.old < 2 ^ 64 - 1 }
    ensures status { result ≡ status_of fault.now }
    ensures tells { TellsText (fault_line fault.now ++ unsaved_text unsaved)
        (faults_view (L.taken faults.old) (L.failures faults.old))
        (faults_view (L.taken faults.new) (L.failures faults.new)) }
{
    let line = fault_text(fault);
    let behind = unsaved_line(unsaved);
    match write_all(faults, line.as_slice()) {
        Ok(()) => {
            tell_text(behind, faults);
            status(fault)
        }
        Err(_) => status(fault),
    }
}
