//! One value for all devices of a program.
ghost use Rattle.docker_host.specs.Host.{HostView};

use crate::folder::Folder;
use cif_device::{Sink, Source};
use std::marker::Model;

/// All devices that a program uses.
#[derive(Drop)]
pub struct Host<S: Source, D: Folder, K: Sink, L: Sink> {
    /// The input of the program.
    pub input: S,
    /// The folder in which the program looks at files, opens them and replaces them.
    pub folder: D,
    /// The output of the program.
    pub output: K,
    /// The sink to which the program writes the lines that report faults.
    pub faults: L,
}

impl<S: Source, D: Folder, K: Sink, L: Sink> Model for Host<S, D, K, L> {
    ghost Value = { HostView };

    ghost view = { λ host. record {
      input = S.left host.input;
      ended = S.ended host.input;
      passed = S.passed host.input;
      history = D.history host.folder;
      output = K.taken host.output;
      faults = L.taken host.faults;
      input_failures = S.failures host.input;
      folder_failures = D.failures host.folder;
      output_failures = K.failures host.output;
      faults_failures = L.failures host.faults;
    } };
}
