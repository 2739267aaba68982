//! A detailed docker: its timing point, its day and its lines.
ghost use Rattle.std.specs.Prelude.{◌≡◌};
ghost use Rattle.docker_detail.specs.DetailedValue as value;

use crate::detailed_line::DetailedLine;
use cif_line::{Day, Tiploc};
use std::marker::Model;

/// The docker of a timing point and a day, each line with the records that it was made from.
#[derive(Debug, Drop)]
pub struct DetailedDocker<'a> {
    place: Tiploc,
    day: Day,
    description: &'a [u8; 26],
    lines: Vec<DetailedLine<'a>>,
}

impl<'a> Model for DetailedDocker<'a> {
    ghost Value = { value.DetailedDocker };

    ghost view = { λ docker. record {
      place = docker.place;
      day = docker.day;
      description = docker.description.now;
      lines = docker.lines.items;
    } };
}

impl<'a> DetailedDocker<'a> {
    /// Makes a detailed docker of this place and day, with this description and these lines.
    pub(crate) fn of(
        place: Tiploc,
        day: Day,
        description: &'a [u8; 26],
        lines: Vec<DetailedLine<'a>>,
    ) -> DetailedDocker<'a>
        ensures { result ≡ record {
          place = place;
          day = day;
          description = description.entry.now;
          lines = lines.entry.items;
        } }
    {
        DetailedDocker {
            place,
            day,
            description,
            lines,
        }
    }

    /// The timing point.
    pub fn place(&self) -> Tiploc
        ensures { result ≡ self.now.place }
    {
        self.place
    }

    /// The day.
    pub fn day(&self) -> Day
        ensures { result ≡ self.now.day }
    {
        self.day
    }

    /// The description of the timing point, as in its docker.
    pub fn description(&self) -> &'a [u8; 26]
        ensures { result.now ≡ self.now.description }
    {
        self.description
    }

    /// The lines, in order.
    pub fn lines(&self) -> &[DetailedLine<'a>]
        ensures { result.now ≡ self.now.lines }
    {
        self.lines.as_slice()
    }
}
