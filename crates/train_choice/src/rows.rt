//! Typed views of a row: its schedule or its association.
ghost use Rattle.std.specs.Prelude.{◌≡◌};
ghost use Rattle.cif_change.specs.Meaning.{key_meant, body_meant};
ghost use Rattle.docker_model.specs.state.State.{IsBodyOf};
ghost use Rattle.docker_laws.specs.LiveRows.{association_of, schedule_of};

use crate::link_view::LinkView;
use crate::schedule_view::ScheduleView;
use cif_change::{Body, Key};

/// The schedule in a row, or `None` if the row isn't a schedule.
pub fn schedule_of<'a>(key: &'a Key, body: &'a Body) -> Option<ScheduleView<'a>>
    requires { IsBodyOf (key_meant key.now) (body_meant body.now) }
    ensures { result ≡ schedule_of (key_meant key.entry.now) (body_meant body.entry.now) }
{
    match (key, body) {
        (Key::Schedule(key), Body::Schedule(lines)) => Some(ScheduleView::of(key, lines)),
        _ => None,
    }
}

/// The association in a row, or `None` if the row isn't an association.
pub fn association_of<'a>(key: &'a Key, body: &'a Body) -> Option<LinkView<'a>>
    requires { IsBodyOf (key_meant key.now) (body_meant body.now) }
    ensures { result ≡ association_of (key_meant key.entry.now) (body_meant body.entry.now) }
{
    match (key, body) {
        (Key::Assoc(key), Body::Assoc(line)) => Some(LinkView::of(key, line)),
        _ => None,
    }
}
