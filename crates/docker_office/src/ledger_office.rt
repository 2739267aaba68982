//! An office that can only list the files of a state. So it keeps only the state's ledger.
ghost use Rattle.std.specs.Prelude.{◌≡◌, ◌-◌, ◌^◌, ◌<◌, IfOk, IfErr, OnOk, OnErr, Err};
ghost use Rattle.cif_device.specs.Device.{IsNotPassed};
ghost use Rattle.cif_device.specs.Device.{CountsFailure, Takes, TakesPart};
ghost use Rattle.docker_bytes.specs.SourceRead.{ReadsState};
ghost use Rattle.docker_model.specs.docker.DockerText.{files_text};
ghost use Rattle.docker_model.specs.state.State as states;
ghost use Rattle.docker_model.specs.state.StateText.{dks_2};
ghost use Rattle.docker_office.specs.Office.{HoldsState};
ghost use Rattle.docker_office.specs.OfficeReads.{EndsReadingState};

use crate::fault::OfficeFault;
use crate::files::write_files;
use cif_line::{Sink, Source};
use docker_bytes::{KeptLedger, read_ledger};
use std::alloc::Global;
use std::marker::Model;

/// An office that keeps only the ledger of a state, and lists its files. In contracts, the value of
/// a `LedgerOffice` is the whole state. The office can't write, join or send the state.
#[derive(Debug, Drop)]
pub struct LedgerOffice {
    ledger: KeptLedger,
}

impl Model for LedgerOffice {
    ghost Value = { states.State };

    ghost view = { λ office. office.ledger };
}

impl LedgerOffice {
    /// Reads a state from a source, and keeps its ledger. A text with more than `limit` bytes is
    /// refused. All parts of the text are judged, although no entry is kept. So if
    /// `Office::reload` refuses a text with `State`, `Source` or `Memory`, this call refuses it too.
    pub fn read<S: Source>(
        alloc: Global,
        source: &mut S,
        limit: u64,
    ) -> Result<LedgerOffice, OfficeFault>
        requires { S.failures source.old < 2 ^ 64 - 1 }
        ensures reads { EndsReadingState S.left S.failures dks_2 limit
            (ReadsState dks_2 limit (S.left source.old)) source.old source.new result }
        ensures not_passed { IsNotPassed (S.ended source.old)
            (S.passed source.old) (S.passed source.new) }
        ensures sent { IfOk result (λ office. (sent : states.State)
            → HoldsState dks_2 limit (S.left source.old) sent → office ≡ sent) }
    {
        let ledger = read_ledger(alloc, source, limit)?;
        Ok(LedgerOffice { ledger })
    }

    /// Writes a line for each file that the state knows, in the order of the ledger. The call
    /// allocates nothing, so it fails only with `Sink`; the sink has then gained a proper prefix of
    /// the text.
    pub fn files<K: Sink>(&self, sink: &mut K) -> Result<(), OfficeFault>
        requires { K.failures sink.old < 2 ^ 64 - 1 }
        ensures whole { OnOk result
            (Takes (K.taken sink.old) (files_text self.now.ledger) (K.taken sink.new)) }
        ensures part { OnErr result
            (TakesPart (K.taken sink.old) (files_text self.now.ledger) (K.taken sink.new)) }
        ensures failures { CountsFailure (result ≡ Err OfficeFault.Sink)
            (K.failures sink.old) (K.failures sink.new) }
        ensures only { IfErr result (λ fault. fault ≡ OfficeFault.Sink) }
    {
        write_files(self.ledger.items(), sink).map_err(|_| OfficeFault::Sink)
    }
}
