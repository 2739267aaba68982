//! Drafts, each in the folder of the file that it will replace. A draft is locked while its command
//! runs, and has the draft bit until it has replaced its file. So a draft with this bit but without
//! a lock was left by a command that was stopped. The next command removes this draft. If no file was
//! there, a draft gets the name of its file only if nothing has come under that name.
ghost use Rattle.std.specs.Prelude.{◌↔◌, IsTrue};
ghost use Rattle.docker_host.specs.Versions.{HasDraftBit};

use crate::folder::OpenFault;
use crate::missing::{is_free, is_missing};
use crate::version::Version;
use std::fs::{File, Metadata, Permissions, TryLockError};
use std::io::ErrorKind;
use std::os::unix::fs::{MetadataExt, OpenOptionsExt, PermissionsExt};
use std::{fs, io};

/// The suffix of a draft's name. The name before the suffix is the name of the draft's file.
const SUFFIX: &str = ".new";

/// The draft bit: the permission bit by which a draft is recognized. It is the sticky bit, which has
/// no other meaning on a regular file.
const DRAFT_BIT: u32 = 0o1000;

/// The permissions of a new file, before the user's mask removes some.
const NEW_FILE: u32 = 0o666;

/// The path of a draft, and the path of the file that the draft will replace. Also the version of that
/// file, or `None` if no file was there, and the permissions that the draft gets in the end.
#[derive(Drop)]
pub(crate) struct DraftPlace {
    draft: String,
    file: String,
    old: Option<Version>,
    permissions: u32,
}

impl DraftPlace {
    /// Makes an empty draft in the folder of the file with this path, and locks the draft. If there
    /// is an old file, the draft gets the permissions of the old file. If the permissions can't be
    /// set, the draft is removed; if the removal fails too, the fault is `Failed`.
    pub(crate) fn make(
        rt: &HostRuntime,
        file: String,
        old: Option<Metadata>,
    ) -> Result<(File, DraftPlace), OpenFault> {
        let mut draft = String::from_str(rt.alloc(), file.as_str())?;
        draft.push_str(SUFFIX)?;
        remove_left_over(rt, draft.as_str());
        let draft_bit = draft_bit_of(file.as_str());
        let made = File::options()
            .write(true)
            .create_new(true)
            .mode(NEW_FILE | draft_bit)
            .open(rt, draft.as_str())?;
        hold(rt, &made, draft.as_str())?;
        let version = old.as_ref().map(|file| Version::of(file));
        match give_permissions(&made, old, draft_bit) {
            Ok(permissions) => {
                let place = DraftPlace {
                    draft,
                    file,
                    old: version,
                    permissions,
                };
                Ok((made, place))
            }
            Err(error) => {
                if !remove_own(rt, &made, draft.as_str()) {
                    return Err(OpenFault::Failed);
                }
                Err(OpenFault::from(error))
            }
        }
    }

    /// Whether the file under the name is still the one that the draft will replace, or is still
    /// missing. A link under the name still has to lead to the file that the draft will replace.
    pub(crate) fn is_as_seen(&self, rt: &HostRuntime, name: &str) -> bool {
        match self.old {
            None => is_missing(rt, name),
            old => Version::under(rt, name) == old && Version::under(rt, self.file.as_str()) == old,
        }
    }

    /// Writes the draft to the disk, and puts it in the place of the file. Then removes the draft bit.
    /// Fails if another file has come under the draft's own name, or if the file isn't as it was
    /// seen. The look at the file comes last, so that as little as possible can come after it.
    pub(crate) fn put(&self, rt: &HostRuntime, name: &str, made: &File) -> io::Result<()> {
        made.sync_all()?;
        if !stands_under(rt, made, self.draft.as_str()) || !self.is_as_seen(rt, name) {
            return Err(io::Error::from(ErrorKind::AlreadyExists));
        }
        if self.old.is_some() {
            fs::rename(rt, self.draft.as_str(), self.file.as_str())?;
        } else if !self.add(rt, made)? {
            return Ok(());
        }
        let _ = made.set_permissions(Permissions::from_mode(self.permissions));
        Ok(())
    }

    /// Gives the draft the name of a file that wasn't there, and removes the draft's own name. Fails
    /// if anything has come under the name of the file. Returns whether the draft's own name was
    /// removed. If it wasn't, the draft keeps the draft bit, so that the next command removes that
    /// name.
    fn add(&self, rt: &HostRuntime, made: &File) -> io::Result<bool> {
        match fs::hard_link(rt, self.draft.as_str(), self.file.as_str()) {
            Ok(()) => Ok(remove_own(rt, made, self.draft.as_str())),
            Err(error) if error.kind() == ErrorKind::AlreadyExists => Err(error),
            // Some file systems have no hard links.
            Err(error) => {
                if !is_free(rt, self.file.as_str()) {
                    return Err(error);
                }
                fs::rename(rt, self.draft.as_str(), self.file.as_str())?;
                Ok(true)
            }
        }
    }

    /// Removes the draft, if possible. The caller has already counted a failure.
    pub(crate) fn remove(&self, rt: &HostRuntime, made: &File) {
        let _ = remove_own(rt, made, self.draft.as_str());
    }
}

/// Returns the draft bit for a draft of the file with this path, or 0 if the name of the file ends
/// like the name of a draft. In this case the draft gets no draft bit. It would still have the bit
/// right after it replaces the file, so it might look like a draft that a command has left for
/// another file.
fn draft_bit_of(file: &str) -> u32 {
    if file.ends_with(SUFFIX) { 0 } else { DRAFT_BIT }
}

/// Whether a file is a regular file with the draft bit.
fn has_draft_bit(file: &Metadata) -> bool
    ensures { IsTrue result ↔ HasDraftBit file.now }
{
    file.is_file() && file.permissions().mode() & DRAFT_BIT != 0
}

/// Whether the open file is the file under this name.
fn stands_under(rt: &HostRuntime, file: &File, name: &str) -> bool {
    let (Ok(held), Ok(there)) = (file.metadata(), fs::symlink_metadata(rt, name)) else {
        return false;
    };
    held.dev() == there.dev() && held.ino() == there.ino()
}

/// Removes the name of a draft, if possible. If another file has come under this name, that file
/// stays. Returns whether the name was removed.
fn remove_own(rt: &HostRuntime, made: &File, name: &str) -> bool {
    stands_under(rt, made, name) && fs::remove_file(rt, name).is_ok()
}

/// Removes the file with this draft name, if a command that was stopped has left the file. Any
/// other file stays unchanged.
fn remove_left_over(rt: &HostRuntime, name: &str) {
    let Ok(there) = fs::symlink_metadata(rt, name) else {
        return;
    };
    if !has_draft_bit(&there) {
        return;
    }
    let Ok(left) = open_left_over(rt, name) else {
        return;
    };
    if left.try_lock().is_ok() && is_left_over(rt, &left, name) {
        let _ = fs::remove_file(rt, name);
    }
}

/// Opens a file that looks like a draft which a command has left. A pipe may have come under the
/// name since the look. If a pipe is opened for reading and writing, the call doesn't wait for another
/// program. So a file is opened only for reading if it may not be written.
fn open_left_over(rt: &HostRuntime, name: &str) -> io::Result<File> {
    match File::options().read(true).write(true).open(rt, name) {
        Err(error) if error.kind() == ErrorKind::PermissionDenied => File::open(rt, name),
        opened => opened,
    }
}

/// Whether a file that this command has locked is a draft with the draft bit, and is still the file
/// under this name. If the command that made the draft has ended meanwhile, the file may have lost
/// its draft bit or its name.
fn is_left_over(rt: &HostRuntime, left: &File, name: &str) -> bool {
    let Ok(held) = left.metadata() else {
        return false;
    };
    has_draft_bit(&held) && stands_under(rt, left, name)
}

/// Locks a draft that was just made. Another command may regard the new draft as a leftover, and
/// lock or remove it. The call fails in this case. On a file system without locks, no command
/// regards a draft as a leftover.
fn hold(rt: &HostRuntime, made: &File, name: &str) -> Result<(), OpenFault> {
    if let Err(TryLockError::WouldBlock) = made.try_lock() {
        return Err(OpenFault::Failed);
    }
    if !stands_under(rt, made, name) {
        return Err(OpenFault::Failed);
    }
    Ok(())
}

/// Sets the permissions of a draft to the permissions of the old file, if there is an old file, and
/// adds the draft bit. Returns the permissions that the file is to have in the end.
fn give_permissions(made: &File, old: Option<Metadata>, draft_bit: u32) -> io::Result<u32> {
    let Some(file) = old else {
        return Ok(made.metadata()?.permissions().mode() & !DRAFT_BIT);
    };
    let permissions = file.permissions().mode() & !DRAFT_BIT;
    made.set_permissions(Permissions::from_mode(permissions | draft_bit))?;
    Ok(permissions)
}
