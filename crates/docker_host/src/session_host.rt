//! One value for all devices of a session.
ghost use Rattle.docker_host.specs.FaultSink.{faults_view};
ghost use Rattle.docker_host.specs.SessionHost.{SessionHostView};

use crate::folder::Folder;
use crate::streams::Streams;
use cif_device::{Sink, Source};
use std::marker::Model;

/// All devices that a session uses.
#[derive(Drop)]
pub struct SessionHost<S: Source, D: Folder, K: Sink, L: Sink> {
    /// The input and the output of the session.
    pub streams: Streams<S, K>,
    /// The folder in which the session looks at files, opens them and replaces them.
    pub folder: D,
    /// The sink to which the session writes the lines that report faults.
    pub faults: L,
}

impl<S: Source, D: Folder, K: Sink, L: Sink> Model for SessionHost<S, D, K, L> {
    ghost Value = { SessionHostView };

    ghost view = { λ host. record {
      streams = host.streams;
      history = D.history host.folder;
      folder_failures = D.failures host.folder;
      faults = faults_view (L.taken host.faults) (L.failures host.faults);
    } };
}
