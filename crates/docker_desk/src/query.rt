//! What a desk can show.
ghost use Rattle.std.specs.Prelude.{◌≡◌};
ghost use Rattle.docker_desk.specs.Queries.{docker_word};

use cif_line::{Day, Tiploc, Uid};

/// The kinds of dockers that a desk prints.
#[derive(Clone, Copy, PartialEq, Eq, Debug)]
pub enum DockerKind {
    /// A docker as `print` prints it.
    Ordinary,
    /// A docker without the short-term plan.
    Permanent,
    /// A docker whose lines show what they were made from.
    Detailed,
    /// A detailed docker without the short-term plan.
    PermanentDetailed,
}

impl DockerKind {
    /// Returns the word that requests a docker of this kind.
    pub(crate) fn word<'a>(self) -> &'a str
        ensures { result.now ≡ docker_word self }
    {
        match self {
            DockerKind::Ordinary => "print",
            DockerKind::Permanent => "permanent",
            DockerKind::Detailed => "detail",
            DockerKind::PermanentDetailed => "permanent-detail",
        }
    }
}

/// A query: what a request asks for if it only shows something.
#[derive(Clone, Copy, Debug)]
pub enum Query {
    /// The docker of a timing point on a day.
    Docker {
        /// The kind of docker.
        kind: DockerKind,
        /// The timing point.
        place: Tiploc,
        /// The day.
        day: Day,
    },
    /// `train`: the schedule that is chosen for a train on a day.
    Train {
        /// The train.
        uid: Uid,
        /// The day.
        day: Day,
    },
    /// `trains`: the trains that have a train identity and start on a day.
    Trains {
        /// The train identity.
        identity: [u8; 4],
        /// The day.
        day: Day,
    },
    /// `files`: the files that are known.
    Files,
    /// `places`: the timing points that are known, with the number of live schedules that call at
    /// each.
    Places,
    /// `known`: the horizon, the newest full extract, the latest last day of a live schedule, and
    /// the numbers of live entries.
    Known,
}
