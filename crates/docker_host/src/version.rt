//! Versions of files. A file and a file that has replaced it have different versions.
ghost use Rattle.std.specs.Prelude.{◌≡◌, ◌↔◌, IsTrue};
ghost use Rattle.std.specs.Fs.{IsFile, file_type, metadata_len};
ghost use Rattle.docker_host.specs.Versions.{AreOfOnePipe};

use std::fs;
use std::fs::{File, Metadata};
use std::os::unix::fs::MetadataExt;
use std::time::SystemTime;

/// The version of a file: its identity, its size, and the time when it was last written. A new file
/// may get the number of a file that was removed. So the time when the file was made is part of its
/// identity, if the file system records this time.
#[derive(Clone, Copy, PartialEq, Eq)]
pub(crate) struct Version {
    device: u64,
    node: u64,
    made: Option<SystemTime>,
    regular: bool,
    size: u64,
    seconds: i64,
    nanoseconds: i64,
}

impl Version {
    /// Returns the version of the file with this metadata.
    pub(crate) fn of(file: &Metadata) -> Version
        ensures regular { IsTrue result.regular ↔ IsFile (file_type file.now) }
        ensures size { result.size ≡ metadata_len file.now }
    {
        Version {
            device: file.dev(),
            node: file.ino(),
            made: file.created().ok(),
            regular: file.is_file(),
            size: file.len(),
            seconds: file.mtime(),
            nanoseconds: file.mtime_nsec(),
        }
    }

    /// Returns the version of an open file, if its metadata can be read.
    pub(crate) fn of_open(file: &File) -> Option<Version> {
        file.metadata().ok().map(|file| Version::of(&file))
    }

    /// Returns the version of the file under a name, or `None` if there is no file. Links are
    /// followed.
    pub(crate) fn under(rt: &HostRuntime, name: &str) -> Option<Version> {
        fs::metadata(rt, name).ok().map(|file| Version::of(&file))
    }

    /// Whether this is the version of a regular file.
    pub(crate) fn is_regular(&self) -> bool
        ensures { result ≡ self.now.regular }
    {
        self.regular
    }

    /// Whether both versions are of the same pipe or device. The times of the last write are
    /// ignored.
    pub(crate) fn is_same_pipe(&self, other: &Version) -> bool
        ensures { IsTrue result ↔ AreOfOnePipe self.now other.now }
    {
        !self.regular
            && !other.regular
            && self.device == other.device
            && self.node == other.node
            && self.made == other.made
    }
}
