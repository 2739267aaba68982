//! A UID, with its train on a start day.
ghost use Rattle.std.specs.Prelude.{◌≡◌, Some, None, if◌then◌else◌};
ghost use Rattle.std.specs.Str.{bytes_eq};
ghost use Rattle.docker_laws.specs.Gathering.{runs_by};
ghost use Rattle.cif_change.specs.Meaning.{schedule_key_meant};

use crate::schedule_view::ScheduleView;
use cif_change::ScheduleKey;
use cif_line::Uid;

/// A UID, and the schedule according to which its train runs on a start day. The schedule is `None`
/// if the train doesn't run on that day.
#[derive(Debug, Drop)]
pub(crate) struct UidTrain<'a> {
    pub(crate) uid: Uid,
    pub(crate) train: Option<ScheduleView<'a>>,
}

impl<'a> UidTrain<'a> {
    /// Whether the train runs according to the schedule with this key. Returns `None` if the key
    /// has another UID.
    pub(crate) fn asked(&self, key: &ScheduleKey) -> Option<bool>
        ensures { result ≡ (if bytes_eq self.now.uid key.now.uid
            then Some (runs_by self.now.train (schedule_key_meant key.now)) else None) }
    {
        if self.uid == key.uid {
            Some(self.runs_by(key))
        } else {
            None
        }
    }

    /// Whether the train runs according to the schedule with this key.
    pub(crate) fn runs_by(&self, key: &ScheduleKey) -> bool
        ensures { result ≡ runs_by self.now.train (schedule_key_meant key.now) }
    {
        match &self.train {
            Some(view) => view.key().cmp(key).is_eq(),
            None => false,
        }
    }
}
