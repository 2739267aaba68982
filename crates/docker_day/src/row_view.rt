//! A typed view of a state's row.
ghost use Rattle.std.specs.Prelude.{◌≡◌};
ghost use Rattle.cif_change.specs.Meaning.{key_meant, body_meant};
ghost use Rattle.docker_model.specs.state.State.{IsBodyOf};
ghost use Rattle.docker_laws.specs.LiveRows.{schedule_of};
ghost use Rattle.docker_day.specs.RowViews.{view_of};

use cif_change::{Body, Key};
use train_choice::{LinkView, ScheduleView, association_of, schedule_of};

/// A typed view of a state's row: its schedule, its association, or neither.
#[derive(Default, Drop)]
pub(crate) enum RowView<'a> {
    Train(ScheduleView<'a>),
    Link(LinkView<'a>),
    #[default]
    Other,
}

impl<'a> RowView<'a> {
    /// The typed view of the row with this key and body.
    pub(crate) fn of(key: &'a Key, body: &'a Body) -> RowView<'a>
        requires { IsBodyOf (key_meant key.now) (body_meant body.now) }
        ensures { result ≡ view_of (key_meant key.entry.now) (body_meant body.entry.now) }
    {
        if let Some(train) = schedule_of(key, body) {
            return RowView::Train(train);
        }
        match association_of(key, body) {
            Some(link) => RowView::Link(link),
            None => RowView::Other,
        }
    }
}
