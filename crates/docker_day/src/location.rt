//! The columns of a location record that a docker shows.
ghost use Rattle.std.specs.Prelude.{◌≡◌, ◌+◌, ◌-◌, ◌<◌, ◌≤◌};
ghost use Rattle.docker_model.specs.records.Record.{kind_of, columns, column};
ghost use Rattle.docker_model.specs.records.PrintedTime.{shown_public};
ghost use Rattle.train_choice.specs.Meaning.{occasion_meant};
ghost use Rattle.docker_day.specs.Locations.{location_meant, location_by_kind, public_at};

use cif_line::{Kind, Line, kind};
use train_choice::Occasion;

/// What a docker shows of a location record. A field consists of spaces if records of this kind
/// don't have the field.
#[derive(Clone, Copy, Debug)]
pub(crate) struct Location<'a> {
    /// The platform.
    pub(crate) platform: &'a [u8; 3],
    /// The line on which a train leaves or passes.
    pub(crate) track: &'a [u8; 3],
    /// The path by which a train arrives or passes.
    pub(crate) path: &'a [u8; 3],
    /// The public time of the arrival.
    pub(crate) arrival: &'a [u8; 4],
    /// The public time of the departure.
    pub(crate) departure: &'a [u8; 4],
}

impl<'a> Location<'a> {
    /// What a docker shows of a line. The function is called only with location records, because no
    /// other line has an event. For any other line, the platform would be columns 20 to 22, and all
    /// other fields would consist of spaces.
    pub(crate) fn of(line: &'a Line) -> Location<'a>
        ensures { location_meant result ≡ location_by_kind (kind_of line.entry.now) line.entry.now }
    {
        match kind(line) {
            Some(Kind::OriginLocation) => Location {
                platform: field(line, 20),
                track: field(line, 23),
                path: b"   ",
                arrival: b"    ",
                departure: shown_public(field(line, 16)),
            },
            Some(Kind::IntermediateLocation) => Location {
                platform: field(line, 34),
                track: field(line, 37),
                path: field(line, 40),
                arrival: shown_public(field(line, 26)),
                departure: shown_public(field(line, 30)),
            },
            Some(Kind::TerminatingLocation) => Location {
                platform: field(line, 20),
                track: b"   ",
                path: field(line, 23),
                arrival: shown_public(field(line, 16)),
                departure: b"    ",
            },
            _ => Location {
                platform: field(line, 20),
                track: b"   ",
                path: b"   ",
                arrival: b"    ",
                departure: b"    ",
            },
        }
    }

    /// The printed public time for an occasion. For any occasion other than an arrival or a
    /// departure, the public time consists of spaces.
    pub(crate) fn public_time(&self, occasion: Occasion) -> &'a [u8; 4]
        ensures { result.now ≡ public_at (occasion_meant occasion) (location_meant self.now) }
    {
        match occasion {
            Occasion::Arrival => self.arrival,
            Occasion::Departure => self.departure,
            _ => b"    ",
        }
    }
}

/// The TIPLOC of a location record.
pub(crate) fn tiploc_in(line: &Line) -> &[u8; 7]
    ensures { result.now ≡ columns 3 9 line.now }
{
    field(line, 3)
}

/// The suffix of a location record, which distinguishes several calls at one timing point.
pub(crate) fn suffix_in(line: &Line) -> u8
    ensures { result ≡ column 10 line.now }
{
    line.bytes()[9]
}

/// A public time as it is printed. The field `0000` means that there is no public time, and is
/// printed as spaces.
fn shown_public(field: &[u8; 4]) -> &[u8; 4]
    ensures { result.now ≡ shown_public field.entry.now }
{
    if field == b"0000" { b"    " } else { field }
}

/// The `N` bytes of a line that begin at column `first`. Columns are counted from 1.
fn field<const N: usize>(line: &Line, first: usize) -> &[u8; N]
    requires from { 0 < first }
    requires within { first - 1 + N ≤ 80 }
    ensures { result.now ≡ columns first (first - 1 + N) line.now }
{
    match line.bytes()[first - 1..first - 1 + N].first_chunk() {
        Some(field) => field,
        None => unreachable!(),
    }
}
