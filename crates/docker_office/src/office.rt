//! An office, and its calls.
ghost use Rattle.std.specs.Prelude.{◌≡◌, ℕ, List, [], ◌-◌, ◌^◌, ◌<◌, ◌≤◌, ◌⊎◌, ◌↔◌, max, IsOk, IsErr, IfErr, OnOk, OnErr, Err};
ghost use Rattle.cif_device.specs.Device.{IsNotPassed};
ghost use Rattle.cif_device.specs.Device.{CountsFailure, Takes, TakesPart};
ghost use Rattle.docker_bytes.specs.SourceRead.{JoinsState, RaisesState, ReadsState};
ghost use Rattle.docker_model.specs.docker.DockerText.{files_text};
ghost use Rattle.docker_model.specs.state.Lapse.{IsDayRefused};
ghost use Rattle.docker_model.specs.state.State as states;
ghost use Rattle.docker_model.specs.state.State.{IsJoin, IsValid, raise_horizon};
ghost use Rattle.docker_model.specs.state.StateText.{dks_1, dks_2, state_text};
ghost use Rattle.docker_model.specs.state.Summary.{IsSummary};
ghost use Rattle.docker_office.specs.Faults.{IsOfDocker};
ghost use Rattle.docker_office.specs.Office.{HoldsState, JoinsSummaries, KnowsFileToo, PrintsDocker, PrintsPart, TakesFile, no_state};
ghost use Rattle.docker_office.specs.OfficeReads.{EndsReadingState, EndsTakingFile};
ghost use Rattle.state_text.specs.FormatMeaning.{format_meant};

use crate::fault::OfficeFault;
use crate::files::write_files;
use cif_file::{MOST_RECORDS, read_file};
use cif_line::{Day, Memory, Sink, Source, Tiploc};
use docker_bytes::{join_state, migrate, read_raised, read_state, read_unindexed, write_state};
use docker_day::{Merge, State, docker, write_docker};
use state_text::format::Format;
use std::alloc::Global;
use std::marker::Model;
use std::mem;

/// An office. Its state is the summary of the files and the horizon that the office knows.
#[derive(Debug, Drop)]
pub struct Office {
    alloc: Global,
    state: State,
}

impl Model for Office {
    ghost Value = { states.State };

    ghost view = { λ office. office.state };
}

impl Office {
    /// Returns an office that knows no file and has no horizon.
    pub fn new(alloc: Global) -> Office
        ensures empty { result ≡ no_state }
        ensures summary { IsSummary [] 0 result }
    {
        Office {
            alloc,
            state: State::empty(alloc),
        }
    }

    /// Returns an office whose state is read from a source. The state has no index, so reading takes
    /// less time and memory than `reload`. An office that prints no docker needs no index. The text
    /// is in the given format. A text with more than `limit` bytes is refused. The call fails with
    /// `State`, `Source` or `Memory`.
    pub fn read<S: Source>(
        alloc: Global,
        format: Format,
        source: &mut S,
        limit: u64,
    ) -> Result<Office, OfficeFault>
        requires { S.failures source.old < 2 ^ 64 - 1 }
        ensures reads { EndsReadingState S.left S.failures (format_meant format) limit
            (ReadsState (format_meant format) limit (S.left source.old))
            source.old source.new result }
        ensures not_passed { IsNotPassed (S.ended source.old)
            (S.passed source.old) (S.passed source.new) }
    {
        let state = read_unindexed(alloc, format, source, limit)?;
        Ok(Office { alloc, state })
    }

    /// Returns the office's state.
    pub fn state(&self) -> &State
        ensures state { result.now ≡ self.now }
        ensures valid { IsValid self.now }
    {
        // This call is made only for its contract, which says that the state is valid.
        let _ledger = self.state.ledger();
        &self.state
    }

    /// Takes the file whose text a source holds: joins the office's state with the file's state. A
    /// file with more than `limit` records is refused. The source is read in pieces of at most
    /// 65,536 bytes, to its end or to the piece with the first fault. If the call fails, with
    /// `File`, `Source` or `Memory`, the office is unchanged.
    pub fn take<S: Source>(&mut self, source: &mut S, limit: u32) -> Result<(), OfficeFault>
        requires failures { S.failures source.old < 2 ^ 64 - 1 }
        requires limit { limit ≤ MOST_RECORDS }
        ensures takes { EndsTakingFile S.left S.failures limit
            (λ _. TakesFile limit (S.left source.old) self.old self.new)
            source.old source.new result }
        ensures not_passed { IsNotPassed (S.ended source.old)
            (S.passed source.old) (S.passed source.new) }
        ensures summary { IsOk result → (files : List (List (List ℕ))) (horizon : ℕ)
            → IsSummary files horizon self.old
            → KnowsFileToo limit (S.left source.old) files horizon self.new }
        ensures unchanged { IsErr result → self.new ≡ self.old }
    {
        let file = read_file(self.alloc, source, limit)?;
        let Ok(taken) = State::of_file_unindexed(self.alloc, file) else {
            return Err(OfficeFault::Memory);
        };
        self.join(taken)
    }

    /// Joins the office's state with another state. If memory runs out, the office is unchanged.
    fn join(&mut self, other: State) -> Result<(), OfficeFault>
        requires { IsValid other }
        ensures ok { IsOk result → IsJoin self.old other self.new }
        ensures unchanged { IsErr result → self.new ≡ self.old }
        ensures only { IfErr result (λ fault. fault ≡ OfficeFault.Memory) }
    {
        let own = mem::replace(&mut self.state, State::empty(self.alloc));
        match own.join(self.alloc, other) {
            Ok(joined) => {
                self.state = joined;
                Ok(())
            }
            Err((own, _)) => {
                self.state = own;
                Err(OfficeFault::Memory)
            }
        }
    }

    /// Joins the office's state with the state whose text a source holds. A text with more than
    /// `limit` bytes is refused. If the call fails, with `State`, `Source` or `Memory`, the office
    /// is unchanged.
    pub fn receive<S: Source>(&mut self, source: &mut S, limit: u64) -> Result<(), OfficeFault>
        requires { S.failures source.old < 2 ^ 64 - 1 }
        ensures reads { EndsReadingState S.left S.failures dks_2 limit
            (λ _. JoinsState dks_2 limit (S.left source.old) self.old self.new)
            source.old source.new result }
        ensures not_passed { IsNotPassed (S.ended source.old)
            (S.passed source.old) (S.passed source.new) }
        ensures summary { IsOk result
            → JoinsSummaries limit (S.left source.old) self.old self.new }
        ensures unchanged { IsErr result → self.new ≡ self.old }
    {
        join_state(self.alloc, &mut self.state, source, limit)?;
        Ok(())
    }

    /// Replaces the office's state with the state whose text a source holds, and makes the index of
    /// the new state. The office forgets every file that isn't in the new state. A text with more
    /// than `limit` bytes is refused. If the call fails, with `State`, `Source` or `Memory`, the
    /// office is unchanged.
    pub fn reload<S: Source>(&mut self, source: &mut S, limit: u64) -> Result<(), OfficeFault>
        requires { S.failures source.old < 2 ^ 64 - 1 }
        ensures reads { EndsReadingState S.left S.failures dks_2 limit
            (λ _. ReadsState dks_2 limit (S.left source.old) self.new)
            source.old source.new result }
        ensures not_passed { IsNotPassed (S.ended source.old)
            (S.passed source.old) (S.passed source.new) }
        ensures sent { IsOk result → (sent : states.State)
            → HoldsState dks_2 limit (S.left source.old) sent → self.new ≡ sent }
        ensures unchanged { IsErr result → self.new ≡ self.old }
    {
        self.state = read_state(self.alloc, source, limit)?;
        Ok(())
    }

    /// Like `reload`, but makes no index, and also sets the horizon of the new state, as
    /// `set_horizon` does. The entries lapse as they are read, so a body that lapses takes no memory
    /// afterwards. If the call fails, with `State`, `Source` or `Memory`, the office is unchanged.
    pub fn reload_under<S: Source>(
        &mut self,
        source: &mut S,
        day: Day,
        limit: u64,
    ) -> Result<(), OfficeFault>
        requires { S.failures source.old < 2 ^ 64 - 1 }
        ensures reads { EndsReadingState S.left S.failures dks_2 limit
            (λ _. RaisesState dks_2 limit (S.left source.old) day self.new)
            source.old source.new result }
        ensures not_passed { IsNotPassed (S.ended source.old)
            (S.passed source.old) (S.passed source.new) }
        ensures sent { IsOk result → (sent : states.State)
            → HoldsState dks_2 limit (S.left source.old) sent
            → self.new ≡ raise_horizon day sent }
        ensures unchanged { IsErr result → self.new ≡ self.old }
    {
        self.state = read_raised(self.alloc, source, day, limit)?;
        Ok(())
    }

    /// Replaces the office's state with the state whose text a source holds. The text has the mark
    /// `DKS1`, so neither the text nor the new state has a horizon. A text with the mark `DKS2` is
    /// refused with a fault at offset 0. A text with more than `limit` bytes is also refused. If
    /// the call fails, with `State`, `Source` or `Memory`, the office is unchanged.
    pub fn migrate<S: Source>(&mut self, source: &mut S, limit: u64) -> Result<(), OfficeFault>
        requires { S.failures source.old < 2 ^ 64 - 1 }
        ensures reads { EndsReadingState S.left S.failures dks_1 limit
            (λ _. ReadsState dks_1 limit (S.left source.old) self.new)
            source.old source.new result }
        ensures not_passed { IsNotPassed (S.ended source.old)
            (S.passed source.old) (S.passed source.new) }
        ensures unchanged { IsErr result → self.new ≡ self.old }
    {
        self.state = migrate(self.alloc, source, limit)?;
        Ok(())
    }

    /// Sets the horizon: each entry whose body ends before this day lapses. A day that isn't after
    /// the current horizon changes nothing. The call never fails. The call may use one byte of
    /// memory per row while it works, and takes longer if this memory isn't available.
    pub fn set_horizon(&mut self, day: Day)
        ensures raised { self.new ≡ raise_horizon day self.old }
        ensures summary { (files : List (List (List ℕ))) (horizon : ℕ)
            → IsSummary files horizon self.old → IsSummary files (max horizon day) self.new }
    {
        self.state.set_horizon(day);
    }

    /// Writes the text of the state, for another office to receive or reload. The call allocates
    /// nothing, so it fails only with `Sink`; the sink has then gained a proper prefix of the text.
    pub fn send<K: Sink>(&self, sink: &mut K) -> Result<(), OfficeFault>
        requires { K.failures sink.old < 2 ^ 64 - 1 }
        ensures whole { OnOk result
            (Takes (K.taken sink.old) (state_text dks_2 self.now) (K.taken sink.new)) }
        ensures part { OnErr result
            (TakesPart (K.taken sink.old) (state_text dks_2 self.now) (K.taken sink.new)) }
        ensures failures { CountsFailure (result ≡ Err OfficeFault.Sink)
            (K.failures sink.old) (K.failures sink.new) }
        ensures only { IfErr result (λ fault. fault ≡ OfficeFault.Sink) }
    {
        write_state(&self.state, sink).map_err(|_| OfficeFault::Sink)
    }

    /// Prints the docker of a timing point and a day. The docker is made before its first byte is
    /// written, so nothing is written on `Lapsed` or `Memory`. Returns `Lapsed` if the state has a
    /// horizon and the day is before the third day after the horizon. On `Sink` the sink has gained
    /// a proper prefix of the text.
    pub fn print<K: Sink>(&self, place: &Tiploc, day: Day, sink: &mut K) -> Result<(), OfficeFault>
        requires { K.failures sink.old < 2 ^ 64 - 1 }
        ensures ok { IsOk result
            → PrintsDocker self.now place.now day (K.taken sink.old) (K.taken sink.new) }
        ensures part { result ≡ Err OfficeFault.Sink
            → PrintsPart self.now place.now day (K.taken sink.old) (K.taken sink.new) }
        ensures lapsed { (result ≡ Err OfficeFault.Lapsed) ↔ IsDayRefused self.now.horizon day }
        ensures unwritten { (result ≡ Err OfficeFault.Lapsed) ⊎ (result ≡ Err OfficeFault.Memory)
            → sink.new ≡ sink.old }
        ensures failures { CountsFailure (result ≡ Err OfficeFault.Sink)
            (K.failures sink.old) (K.failures sink.new) }
        ensures only { IfErr result IsOfDocker }
    {
        let docker = docker(self.alloc, &self.state, place, day)?;
        write_docker(&docker, sink).map_err(|_| OfficeFault::Sink)
    }

    /// Writes a line for each file that the office knows, in the order of the ledger. The call
    /// allocates nothing, so it fails only with `Sink`; the sink has then gained a proper prefix of
    /// the text.
    pub fn files<K: Sink>(&self, sink: &mut K) -> Result<(), OfficeFault>
        requires { K.failures sink.old < 2 ^ 64 - 1 }
        ensures whole { OnOk result
            (Takes (K.taken sink.old) (files_text self.now.ledger) (K.taken sink.new)) }
        ensures part { OnErr result
            (TakesPart (K.taken sink.old) (files_text self.now.ledger) (K.taken sink.new)) }
        ensures failures { CountsFailure (result ≡ Err OfficeFault.Sink)
            (K.failures sink.old) (K.failures sink.new) }
        ensures only { IfErr result (λ fault. fault ≡ OfficeFault.Sink) }
    {
        write_files(self.state.ledger(), sink).map_err(|_| OfficeFault::Sink)
    }
}
