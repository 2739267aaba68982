//! The last columns of a docker line: where a train starts and ends, or the associated train.
ghost use Rattle.std.specs.Prelude.{◌≡◌};
ghost use Rattle.docker_model.specs.docker.DockerLine.{associated_uid};
ghost use Rattle.docker_day.specs.Details.{detail_meant};

use cif_line::Uid;

/// The content of a docker line's last columns.
#[derive(Clone, Copy, Debug)]
pub enum Detail {
    /// For an event: where the train starts and where it ends.
    Ends {
        /// The TIPLOC of the origin.
        origin: [u8; 7],
        /// The TIPLOC of the terminus.
        destination: [u8; 7],
    },
    /// For an association: the associated train.
    Partner {
        /// The UID of the associated train.
        uid: Uid,
        /// The train identity of the associated train on its start day, or `????` if the train
        /// doesn't run on that day.
        identity: [u8; 4],
    },
}

impl Detail {
    /// The UID of the associated train, or an empty slice for an event.
    pub(crate) fn associated_uid(&self) -> &[u8]
        ensures { result.now ≡ associated_uid (detail_meant self.now) }
    {
        match self {
            Detail::Ends { .. } => &[],
            Detail::Partner { uid, .. } => uid.bytes(),
        }
    }
}
