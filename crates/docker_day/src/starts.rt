//! The start days of associated trains, and of trains that may be at a place on a day.
ghost use Rattle.std.specs.Prelude.{◌≡◌, ◌+◌, ◌≤◌};
ghost use Rattle.docker_model.specs.docker.Association.{partner_start};
ghost use Rattle.train_choice.specs.EventWalk.{occurrence_meant};
ghost use Rattle.docker_day.specs.Lines.{is_here, is_today};

use crate::location::tiploc_in;
use cif_line::{Day, Tiploc};
use train_choice::{Occurrence, day_back};

/// The start day of the associated train, computed from the base train's start day and the date
/// indicator. The associated train starts on the day after the base train's start day for `N`, on
/// the day before it for `P`, and otherwise on the base train's start day. Returns `None` if the
/// start day has no day number: day numbers are 0 to 36524.
pub(crate) fn partner_start(indicator: u8, start: Day) -> Option<Day>
    ensures { result ≡ partner_start indicator start }
{
    match indicator {
        b'N' => Day::from_number(start.number() + 1),
        b'P' => day_back(start, 1),
        _ => Some(start),
    }
}

/// Whether an event is at a place.
pub(crate) fn is_here(event: &Occurrence<'_>, place: &Tiploc) -> bool
    ensures { result ≡ is_here place.now (occurrence_meant event.now) }
{
    tiploc_in(event.line) == place.bytes()
}

/// Whether an event of a train that starts on `start` is on the day. The day must not be before
/// `start`.
#[tactic(auto, using(crate::proofs::Days::today_is))]
pub(crate) fn is_today(event: &Occurrence<'_>, day: Day, start: Day) -> bool
    requires past { start ≤ day }
    ensures { result ≡ is_today day start (occurrence_meant event.now) }
{
    event.falls == (day.number() - start.number()) as u64
}
