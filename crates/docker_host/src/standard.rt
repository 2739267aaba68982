//! The file descriptors of the standard streams.
use std::fs::File;
use std::os::fd::AsRawFd;

/// The file descriptor of standard error. No standard stream has a higher file descriptor.
const LAST_STANDARD: i32 = 2;

/// Files that occupy the descriptors of closed standard streams. They can be neither read nor
/// written.
#[derive(Drop)]
pub struct Standard {
    _streams: [Option<File>; 3],
}

/// Occupies the file descriptors of closed standard streams until the returned value is dropped. So
/// no opened file gets one of these descriptors, and no opened file is read or written as a
/// standard stream.
pub fn hold_standard(rt: &HostRuntime) -> Standard {
    Standard {
        _streams: [hold_one(rt), hold_one(rt), hold_one(rt)],
    }
}

/// Opens the folder `/` on the lowest free file descriptor, and keeps it open if that is the
/// descriptor of a standard stream.
fn hold_one(rt: &HostRuntime) -> Option<File> {
    let root = File::open(rt, "/").ok()?;
    if root.as_raw_fd() > LAST_STANDARD {
        return None;
    }
    Some(root)
}
