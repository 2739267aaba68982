//! An office that prints the docker of one timing point and one day. It keeps only the part of a
//! state from which this docker is made.
ghost use Rattle.std.specs.Prelude.{◌≡◌, ◌-◌, ◌^◌, ◌<◌, ◌≤◌, ◌⊎◌, ◌↔◌, IsOk, IfOk, IfErr, Err};
ghost use Rattle.cif_device.specs.Device.{IsNotPassed};
ghost use Rattle.cif_device.specs.Device.{CountsFailure};
ghost use Rattle.docker_bytes.specs.SourceRead.{ReadsState};
ghost use Rattle.docker_model.specs.state.Lapse.{IsDayRefused};
ghost use Rattle.docker_model.specs.state.State as states;
ghost use Rattle.docker_model.specs.state.StateText.{dks_2};
ghost use Rattle.docker_excerpt.specs.Values as values;
ghost use Rattle.docker_office.specs.Faults.{IsOfDocker};
ghost use Rattle.docker_office.specs.Office.{HoldsState, PrintsDocker, PrintsPart, TakesFile, no_state};
ghost use Rattle.docker_office.specs.OfficeReads.{EndsReadingState, EndsTakingFile};

use crate::excerpt_docker::docker_of;
use crate::fault::OfficeFault;
use cif_file::MOST_RECORDS;
use cif_line::{Day, Sink, Source, Tiploc};
use docker_bytes::{Excerpt, read_excerpt};
use docker_day::write_docker;
use docker_excerpt::read_thin;
use std::alloc::Global;
use std::marker::Model;

/// An office for the docker of one timing point and one day. In contracts, the value of a
/// `PlaceOffice` is the timing point, the day and the whole state, although the office keeps only
/// an excerpt of this state. The office can only print its docker: it can't write, join or send the
/// state.
#[derive(Debug, Drop)]
pub struct PlaceOffice {
    alloc: Global,
    excerpt: Excerpt,
}

impl Model for PlaceOffice {
    ghost Value = { values.Excerpt };

    ghost view = { λ office. office.excerpt };
}

impl PlaceOffice {
    /// Reads a state from a source, and keeps an excerpt of it for a timing point and a day. A text
    /// with more than `limit` bytes is refused. Every part of the text is judged, whether the
    /// office keeps it or not. So this call refuses every text that `Office::reload` refuses, with
    /// `State`, `Source` or `Memory`.
    pub fn read<S: Source>(
        alloc: Global,
        place: Tiploc,
        day: Day,
        source: &mut S,
        limit: u64,
    ) -> Result<PlaceOffice, OfficeFault>
        requires { S.failures source.old < 2 ^ 64 - 1 }
        ensures reads { EndsReadingState S.left S.failures dks_2 limit
            (λ office. ReadsState dks_2 limit (S.left source.old) office.state)
            source.old source.new result }
        ensures not_passed { IsNotPassed (S.ended source.old)
            (S.passed source.old) (S.passed source.new) }
        ensures sent { IfOk result (λ office. (sent : states.State)
            → HoldsState dks_2 limit (S.left source.old) sent → office.state ≡ sent) }
        ensures place { IfOk result (λ office. office.place ≡ place) }
        ensures day { IfOk result (λ office. office.day ≡ day) }
    {
        let excerpt = read_excerpt(alloc, source, place, day, limit)?;
        Ok(PlaceOffice { alloc, excerpt })
    }

    /// Reads a file from a source, and keeps the changes that are needed to make the file's docker
    /// for a timing point and a day. A file with more than `limit` records is refused. Every record
    /// is judged, whether the office keeps a part of it or not. So this call refuses every file
    /// that `Office::take` refuses, with `File`, `Source` or `Memory`.
    pub fn take<S: Source>(
        alloc: Global,
        place: Tiploc,
        day: Day,
        source: &mut S,
        limit: u32,
    ) -> Result<PlaceOffice, OfficeFault>
        requires failures { S.failures source.old < 2 ^ 64 - 1 }
        requires limit { limit ≤ MOST_RECORDS }
        ensures takes { EndsTakingFile S.left S.failures limit
            (λ office. TakesFile limit (S.left source.old) no_state office.state)
            source.old source.new result }
        ensures not_passed { IsNotPassed (S.ended source.old)
            (S.passed source.old) (S.passed source.new) }
        ensures place { IfOk result (λ office. office.place ≡ place) }
        ensures day { IfOk result (λ office. office.day ≡ day) }
    {
        let file = read_thin(alloc, source, place, day, limit)?;
        match Excerpt::of_file(alloc, place, day, file) {
            Ok(excerpt) => Ok(PlaceOffice { alloc, excerpt }),
            Err(_) => Err(OfficeFault::Memory),
        }
    }

    /// Prints the docker of the office's timing point and day, which is the same as the docker of
    /// the whole state. The docker is made before its first byte is written, so nothing is written
    /// on `Lapsed` or `Memory`. Returns `Lapsed` if the state has a horizon and the day is before
    /// the third day after the horizon. On `Sink` the sink has gained a proper prefix of the text.
    pub fn print<K: Sink>(&self, sink: &mut K) -> Result<(), OfficeFault>
        requires { K.failures sink.old < 2 ^ 64 - 1 }
        ensures ok { IsOk result → PrintsDocker self.now.state self.now.place self.now.day
            (K.taken sink.old) (K.taken sink.new) }
        ensures part { result ≡ Err OfficeFault.Sink
            → PrintsPart self.now.state self.now.place self.now.day
            (K.taken sink.old) (K.taken sink.new) }
        ensures lapsed { (result ≡ Err OfficeFault.Lapsed)
            ↔ IsDayRefused self.now.state.horizon self.now.day }
        ensures unwritten { (result ≡ Err OfficeFault.Lapsed) ⊎ (result ≡ Err OfficeFault.Memory)
            → sink.new ≡ sink.old }
        ensures failures { CountsFailure (result ≡ Err OfficeFault.Sink)
            (K.failures sink.old) (K.failures sink.new) }
        ensures only { IfErr result IsOfDocker }
    {
        let docker = docker_of(self.alloc, &self.excerpt)?;
        write_docker(&docker, sink).map_err(|_| OfficeFault::Sink)
    }
}
