//! What a line of a docker reports.
ghost use Rattle.std.specs.Prelude.{◌≡◌, [], ◌∷◌};
ghost use Rattle.docker_model.specs.docker.DockerLine.{occasion_rank};
ghost use Rattle.docker_model.specs.docker.DockerText.{occasion_text};
ghost use Rattle.train_choice.specs.Meaning.{occasion_meant};

/// What a line of a docker reports: an event of a train, or an association of the train with
/// another train. The order of these variants is the order of lines with the same time.
#[derive(Clone, Copy, PartialEq, Eq, Debug)]
pub enum Occasion {
    /// The train arrives.
    Arrival,
    /// The train passes.
    Pass,
    /// Another train joins the train (category `JJ`).
    Joining,
    /// Another train divides from the train (category `VV`).
    Dividing,
    /// The train becomes another train, its next working (category `NP`).
    NextWorking,
    /// The train departs.
    Departure,
}

impl Occasion {
    /// The occasion's letter in a docker: `A`, `P`, `J`, `V`, `N` or `D`.
    pub fn letter(&self) -> u8
        ensures { occasion_text (occasion_meant self.now) ≡ result ∷ [] }
    {
        match self {
            Occasion::Arrival => b'A',
            Occasion::Pass => b'P',
            Occasion::Joining => b'J',
            Occasion::Dividing => b'V',
            Occasion::NextWorking => b'N',
            Occasion::Departure => b'D',
        }
    }

    /// The occasion's rank, which orders lines with the same time.
    pub fn rank(&self) -> u8
        ensures { result ≡ occasion_rank (occasion_meant self.now) }
    {
        match self {
            Occasion::Arrival => 0,
            Occasion::Pass => 1,
            Occasion::Joining => 2,
            Occasion::Dividing => 3,
            Occasion::NextWorking => 4,
            Occasion::Departure => 5,
        }
    }
}
