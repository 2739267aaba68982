//! A docker line, with where it comes from.
ghost use Rattle.std.specs.Prelude.{◌≡◌, ℕ, List};
ghost use Rattle.docker_model.specs.docker.DockerLine as lines;
ghost use Rattle.docker_detail.specs.Meaning.{origin_meant};

use crate::origin::LineOrigin;
use docker_day::DockerLine;
use std::marker::Model;

/// A docker line, with where it comes from.
#[derive(Debug, Drop)]
pub struct DetailedLine<'a> {
    pub(crate) line: DockerLine<'a>,
    pub(crate) origin: LineOrigin<'a>,
}

impl<'a> Model for DetailedLine<'a> {
    ghost Value = { lines.DockerLine × List ℕ };

    ghost view = { λ detailed. (detailed.line, origin_meant detailed.origin) };
}

impl<'a> DetailedLine<'a> {
    /// The docker line.
    pub fn line(&self) -> &DockerLine<'a>
        ensures { result.now ≡ self.now.0 }
    {
        &self.line
    }

    /// Where the docker line comes from.
    pub(crate) fn origin(&self) -> &LineOrigin<'a>
        ensures { origin_meant result.now ≡ self.now.1 }
    {
        &self.origin
    }
}
