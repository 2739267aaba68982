//! Writes the lines that report a program's faults.
ghost use Rattle.std.specs.Prelude.{◌-◌, ◌^◌, ◌<◌};
ghost use Rattle.docker_host.specs.FaultSink.{TellsText, faults_view};

use cif_device::{Sink, write_all};

/// Writes a text to the sink of faults. If the write fails, no device is left to which the failure
/// could be reported, so it isn't reported.
pub fn tell_text<L: Sink>(text: &[u8], faults: &mut L)
    requires { L.failures faults.old < 2 ^ 64 - 1 }
    ensures { TellsText text.now
        (faults_view (L.taken faults.old) (L.failures faults.old))
        (faults_view (L.taken faults.new) (L.failures faults.new)) }
{
    match write_all(faults, text) {
        Ok(()) | Err(_) => {}
    }
}
