//! Reports a fault on standard error.
ghost use Rattle.std.specs.Prelude.{◌≡◌, ◌-◌, ◌^◌, ◌<◌};
ghost use Rattle.docker_cmd.specs.FaultLine.{fault_line, status_of};
ghost use Rattle.docker_host.specs.FaultSink.{TellsText, faults_view};

use cif_line::Sink;
use docker_cmd::{Fault, fault_text, status};
use docker_host::tell_text;

/// Writes the line that reports a fault, and returns the fault's exit status. This status is
/// returned even if the sink fails before the whole line is written.
pub fn tell<L: Sink>(fault: &Fault, faults: &mut L) -> u8
    requires { L.failures faults.old < 2 ^ 64 - 1 }
    ensures status { result ≡ status_of fault.now }
    ensures line { TellsText (fault_line fault.now)
        (faults_view (L.taken faults.old) (L.failures faults.old))
        (faults_view (L.taken faults.new) (L.failures faults.new)) }
{
    let text = fault_text(fault);
    tell_text(text.as_slice(), faults);
    status(fault)
}
