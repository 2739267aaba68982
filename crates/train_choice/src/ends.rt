//! Where a train starts and where it ends.
ghost use Rattle.std.specs.Prelude.{◌≡◌, [], Some, IfSome, IsNone, find, codes};
ghost use Rattle.std.specs.Option.{option_copied};
ghost use Rattle.docker_model.specs.docker.Event.{has_identity};
ghost use Rattle.train_choice.specs.Occurrences.{occurrences};

use crate::schedule_view::ScheduleView;
use cif_line::Line;

/// The lines at which a train starts and ends: the first LO and the first LT of its schedule.
/// Returns `None` if the schedule has no journey.
pub fn ends_of<'a>(train: &ScheduleView<'a>) -> Option<(&'a Line, &'a Line)>
    ensures origin { IfSome result (λ ends.
        find (λ line. has_identity (codes "LO") line) train.now.lines ≡ Some ends.0.now) }
    ensures terminus { IfSome result (λ ends.
        find (λ line. has_identity (codes "LT") line) train.now.lines ≡ Some ends.1.now) }
    ensures none { IsNone result → occurrences train.now.lines ≡ [] }
{
    let lines = train.lines();
    let origin = first_of(lines, b"LO")?;
    let terminus = first_of(lines, b"LT")?;
    Some((origin, terminus))
}

/// The first line with this record identity.
fn first_of<'a>(lines: &'a [Line], identity: &[u8; 2]) -> Option<&'a Line>
    ensures { option_copied result ≡ find (λ line. has_identity identity.now line) lines.entry.now }
{
    lines.iter().find(|line| has_identity(line, identity))
}

/// Whether the line has this record identity.
fn has_identity(line: &Line, identity: &[u8; 2]) -> bool
    ensures { result ≡ has_identity identity.now line.now }
{
    line.bytes()[..2] == identity[..]
}
