//! Defines `Progress`: what the reader of a schedule's lines remembers from one line to the next.
ghost use Rattle.std.specs.Prelude.{◌≡◌, ◌≤◌, ◌<◌, true};

use crate::journey_times::Clock;
use crate::stage::ScheduleStage;

/// What the reader of a schedule remembers of the lines taken. `stage` is `None` before the first
/// line. `lacking` says whether the schedule may end without a journey. `clock` has the last time,
/// and counts how often midnight was passed: at most twice. For a deletion `clock` never changes.
#[derive(Clone, Copy, PartialEq, Eq, Debug)]
pub struct Progress {
    pub(crate) stage: Option<ScheduleStage>,
    pub(crate) deletion: bool,
    pub(crate) lacking: bool,
    pub(crate) clock: Clock,
    ghost few: { clock.falls ≤ 2 },
    ghost in_day: { clock.last < 2880 },
    ghost idle: { deletion ≡ true → clock ≡ record { falls = 0; last = 0 } },
}
