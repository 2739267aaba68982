//! A docker: its timing point, its day and its lines.
ghost use Rattle.std.specs.Prelude.{◌≡◌};
ghost use Rattle.docker_day.specs.DockerValue as value;

use crate::docker_line::DockerLine;
use cif_line::{Day, Tiploc};
use std::marker::Model;

/// The docker of a timing point and a day.
#[derive(Debug, Drop)]
pub struct Docker<'a> {
    place: Tiploc,
    day: Day,
    description: &'a [u8; 26],
    lines: Vec<DockerLine<'a>>,
}

impl<'a> Model for Docker<'a> {
    ghost Value = { value.Docker };

    ghost view = { λ docker. record {
      place = docker.place;
      day = docker.day;
      description = docker.description.now;
      lines = docker.lines.items;
    } };
}

impl<'a> Docker<'a> {
    /// Makes a docker of this place and day, with this description and these lines.
    pub(crate) fn of(
        place: Tiploc,
        day: Day,
        description: &'a [u8; 26],
        lines: Vec<DockerLine<'a>>,
    ) -> Docker<'a>
        ensures { result ≡ record {
          place = place;
          day = day;
          description = description.entry.now;
          lines = lines.entry.items;
        } }
    {
        Docker {
            place,
            day,
            description,
            lines,
        }
    }

    /// The timing point.
    pub fn place(&self) -> Tiploc
        ensures { result ≡ self.now.place }
    {
        self.place
    }

    /// The day.
    pub fn day(&self) -> Day
        ensures { result ≡ self.now.day }
    {
        self.day
    }

    /// The description of the timing point: 26 bytes, which are spaces if the state has no live row
    /// for the timing point.
    pub fn description(&self) -> &'a [u8; 26]
        ensures { result.now ≡ self.now.description }
    {
        self.description
    }

    /// The lines, in order.
    pub fn lines(&self) -> &[DockerLine<'a>]
        ensures { result.now ≡ self.now.lines }
    {
        self.lines.as_slice()
    }

    /// Gives up the lines, in order.
    pub fn into_lines(self) -> Vec<DockerLine<'a>>
        ensures { result.items ≡ self.entry.lines }
    {
        self.lines
    }
}
