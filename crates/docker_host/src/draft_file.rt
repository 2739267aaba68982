//! Drafts of real files. The new text of a regular file is written to a draft in the same folder.
//! The draft is then renamed over the file. So the file is complete at any time: it has the old
//! text or the new text. A pipe or a device is written to directly, without a draft. One look
//! decides which of these is done. What came under the name after the look is never written to.
ghost use Rattle.std.specs.Prelude.{◌≡◌, ◌+◌, ◌-◌, ◌^◌, ◌<◌, ◌≤◌, None, IfOk, OnOk, OnErr, length};
ghost use Rattle.std.specs.Io.KnownBytes.{WriteAppends};
ghost use Rattle.docker_host.specs.RealDevices.{OutputView};

use crate::draft_place::DraftPlace;
use crate::folder::OpenFault;
use crate::missing::path_of_missing;
use crate::output_device::OutputDevice;
use crate::version::Version;
use cif_device::{Failed, Sink};
use std::fs;
use std::fs::File;
use std::io::Write;
use std::marker::Model;

/// A draft: the new text of a file, while this text is being written to a writer.
#[derive(Drop)]
pub struct DraftFile<W> {
    name: String,
    file: OutputDevice<W>,
    place: Option<DraftPlace>,
}

/// A draft that has replaced a named file.
#[derive(Drop)]
pub(crate) struct Placed {
    /// The name of the file.
    pub(crate) name: String,
    /// The version of the draft. The next look at the file will find this version.
    pub(crate) version: Version,
}

impl<W> Model for DraftFile<W> {
    ghost Value = { OutputView W };

    ghost view = { λ draft. draft.file };
}

impl DraftFile<File> {
    /// Makes an empty draft for the named file, if the file under the name is still the one that
    /// was seen. The draft is in the folder of the file, even if the file doesn't exist yet. If the
    /// name is a link, the draft is in the folder of the file to which the link leads.
    pub(crate) fn make(
        rt: &HostRuntime,
        name: &str,
        seen: Option<Version>,
    ) -> Result<DraftFile<File>, OpenFault>
        ensures { IfOk result (λ draft. draft.failures ≡ 0) }
    {
        let own = String::from_str(rt.alloc(), name)?;
        let (file, place) = open_draft(rt, name, seen)?;
        Ok(DraftFile {
            name: own,
            file: OutputDevice::new(file),
            place,
        })
    }

    /// Replaces the file with the draft, if the file under the name is still the one that was seen.
    /// Returns the version that the next look will find, or `None` if the name is of a pipe or a
    /// device, which was written directly. If the draft's version can't be read, or the file can't
    /// be replaced, removes the draft if possible and returns `Failed`.
    pub(crate) fn place(self, rt: &HostRuntime) -> Result<Option<Placed>, Failed> {
        let DraftFile { name, file, place } = self;
        let Some(place) = place else {
            return Ok(None);
        };
        let file = file.writer();
        // The version is read from the open draft, before the draft has the name of the file. So
        // the version can't be the version of any other file.
        let version = Version::of_open(file);
        if let Some(version) = version {
            if place.put(rt, name.as_str(), file).is_ok() {
                return Ok(Some(Placed { name, version }));
            }
        }
        place.remove(rt, file);
        Err(Failed)
    }

    /// Removes the draft, if possible.
    pub(crate) fn remove(&self, rt: &HostRuntime) {
        if let Some(place) = &self.place {
            place.remove(rt, self.file.writer());
        }
    }
}

/// Opens a draft for the named file, if the file under the name is still the one that was seen. Only
/// what was seen decides how the draft is opened.
fn open_draft(
    rt: &HostRuntime,
    name: &str,
    seen: Option<Version>,
) -> Result<(File, Option<DraftPlace>), OpenFault> {
    let (file, place) = match seen {
        Some(seen) if seen.is_regular() => open_over(rt, name, seen)?,
        Some(seen) => return Ok((open_pipe(rt, name, seen)?, None)),
        None => open_new(rt, name)?,
    };
    if !place.is_as_seen(rt, name) {
        place.remove(rt, &file);
        return Err(OpenFault::Failed);
    }
    Ok((file, Some(place)))
}

/// Opens a draft that will replace the regular file that was seen.
fn open_over(rt: &HostRuntime, name: &str, seen: Version) -> Result<(File, DraftPlace), OpenFault> {
    let path = fs::canonicalize(rt, name)?.into_string();
    let there = fs::metadata(rt, path.as_str())?;
    if Version::of(&there) != seen {
        return Err(OpenFault::Failed);
    }
    DraftPlace::make(rt, path, Some(there))
}

/// Opens a draft for a file that wasn't there.
fn open_new(rt: &HostRuntime, name: &str) -> Result<(File, DraftPlace), OpenFault> {
    let path = path_of_missing(rt, name)?;
    DraftPlace::make(rt, path, None)
}

/// Opens the pipe or the device that was seen, for writing. The opening changes no file, even if
/// another file has come under the name. In this case the call fails before anything is written.
fn open_pipe(rt: &HostRuntime, name: &str, seen: Version) -> Result<File, OpenFault> {
    let file = File::options().write(true).open(rt, name)?;
    match Version::of_open(&file) {
        Some(opened) if seen.is_same_pipe(&opened) => Ok(file),
        _ => Err(OpenFault::Failed),
    }
}

impl<W: Write> Sink for DraftFile<W> {
    ghost taken = { λ _. None };

    ghost failures = { λ draft. draft.failures };

    fn write(&mut self, piece: &[u8]) -> Result<usize, Failed>
        requires failures { self.old.failures < 2 ^ 64 - 1 }
        requires piece { 0 < length piece.now }
        ensures within { IfOk result (λ n. n ≤ length piece.now) }
        ensures progress { IfOk result (λ n. 0 < n) }
        ensures no_failure { OnOk result (self.new.failures ≡ self.old.failures) }
        ensures counted { OnErr result (self.new.failures ≡ self.old.failures + 1) }

        // The contract of every sink has the clauses above. Only the contract of this sink has the
        // clause below.
        ensures bytes { WriteAppends (W.contents self.old.writer) (W.contents self.new.writer)
            result piece.now }
    {
        self.file.write(piece)
    }

    fn failures(&self) -> u64 {
        self.file.failures()
    }
}
