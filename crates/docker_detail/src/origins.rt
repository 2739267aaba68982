//! Finds out where the lines of a docker come from.
ghost use Rattle.std.specs.Prelude.{◌≡◌, All, IfOk};
ghost use Rattle.std.specs.List.Sorted.{IsPermutation, IsSorted};
ghost use Rattle.docker_model.specs.docker.DockerLine.{docker_line_cmp};
ghost use Rattle.docker_state.specs.Timetables.{live_in};
ghost use Rattle.docker_detail.specs.Finding.{AreFound, IsLineFound, firsts};
ghost use Rattle.docker_detail.specs.Known.{AtPlace};

use crate::detailed_line::DetailedLine;
use crate::link_records::LinkRecords;
use crate::origin::LineOrigin;
use crate::train_records::TrainRecords;
use cif_line::{Memory, Tiploc};
use docker_day::DockerLine;
use docker_state::Timetable;
use std::alloc::Global;
use std::cmp::Ordering;
use std::marker::Model;

/// Finds out where docker lines come from, one line at a time. It remembers the train and the
/// associations that it looked up last.
#[derive(Debug, Drop)]
struct Finder<'a> {
    trains: TrainRecords<'a>,
    links: LinkRecords<'a>,
}

impl<'a> Model for Finder<'a> {
    ghost Value = { AtPlace };

    ghost view = { λ finder. finder.links };

    ghost invariant = { λ finder. finder.trains ≡ finder.links.timetable };
}

impl<'a> Finder<'a> {
    /// A finder for the docker lines of a place. Nothing has been looked up yet.
    fn at(alloc: Global, timetable: &Timetable<'a>, place: &Tiploc) -> Finder<'a>
        ensures { result ≡ record { timetable = timetable.entry.now; place = place.now } }
    {
        Finder {
            trains: TrainRecords::of(timetable),
            links: LinkRecords::at(alloc, timetable, place),
        }
    }

    /// The docker line, with where it comes from. Returns `Memory` if there is no room for the
    /// chosen associations.
    fn detailed(&mut self, line: DockerLine<'a>) -> Result<DetailedLine<'a>, Memory>
        ensures same { self.new ≡ self.old }
        ensures line { IfOk result (λ detailed. detailed.0 ≡ line.entry) }
        ensures found { IfOk result (IsLineFound (live_in self.old.timetable) self.old.place) }
    {
        let association = self.links.of_line(&line)?;
        let (start, number) = (line.start(), line.number());
        let records = self.trains.of_event(&line.uid(), start, number);
        let origin = LineOrigin {
            start,
            number,
            basic: records.basic,
            extra: records.extra,
            change: records.change,
            location: records.location,
            association,
        };
        Ok(DetailedLine { line, origin })
    }
}

/// Finds out where each of these lines comes from. Returns the lines in the order of a docker, each
/// with its origin. Returns `Memory` if there is no room for them, or for what is looked up.
pub(crate) fn with_origins<'a>(
    alloc: Global,
    timetable: &Timetable<'a>,
    place: &Tiploc,
    lines: Vec<DockerLine<'a>>,
) -> Result<Vec<DetailedLine<'a>>, Memory>
    ensures { IfOk result
        (λ detailed. AreFound (live_in timetable.now) place.now lines.entry.items detailed.items) }
{
    let detailed = each_with_origin(Finder::at(alloc, timetable, place), by_train(lines), alloc)?;
    Ok(in_order(detailed))
}

/// Brings the lines into an order in which the lines of one train are together.
fn by_train(mut lines: Vec<DockerLine<'_>>) -> Vec<DockerLine<'_>>
    ensures { IsPermutation lines.entry.items result.items }
{
    lines.sort_unstable_by(|line, other| cmp_by_train(line, other));
    lines
}

/// An order of docker lines: by the start day, then the UID, then the number of the event.
fn cmp_by_train(line: &DockerLine<'_>, other: &DockerLine<'_>) -> Ordering {
    let by_start = line.start().number().cmp(&other.start().number());
    let by_uid = line.uid().bytes().cmp(other.uid().bytes());
    let by_number = line.number().cmp(&other.number());
    by_start.then(by_uid).then(by_number)
}

/// The lines in the same order, each with its origin.
fn each_with_origin<'a>(
    mut finder: Finder<'a>,
    lines: Vec<DockerLine<'a>>,
    alloc: Global,
) -> Result<Vec<DetailedLine<'a>>, Memory>
    ensures lines { IfOk result (λ detailed.
        firsts detailed.items ≡ lines.entry.items) }
    ensures found { IfOk result (λ detailed.
        All (IsLineFound (live_in finder.entry.timetable) finder.entry.place) detailed.items) }
{
    let mut detailed = Vec::with_capacity(alloc, lines.len())?;
    for line in lines {
        detailed.push(finder.detailed(line)?)?;
    }
    Ok(detailed)
}

/// Sorts the lines into the order of a docker.
fn in_order(mut detailed: Vec<DetailedLine<'_>>) -> Vec<DetailedLine<'_>>
    ensures same { IsPermutation detailed.entry.items result.items }
    ensures sorted { IsSorted docker_line_cmp (firsts result.items) }
{
    detailed.sort_unstable_by(|line, other| line.line().cmp(other.line()));
    detailed
}
