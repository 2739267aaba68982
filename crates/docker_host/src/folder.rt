//! A folder: a device whose files are looked at, opened, and replaced by drafts.
ghost use Rattle.std.specs.Prelude.{◌≡◌, ℕ, ◌+◌, ◌-◌, ◌^◌, ◌<◌, [], ◌∷◌, ◌++◌, ◌↔◌, Bool, false, List, length, IfOk, IsErr, OnOk, OnErr, Err, Option};
ghost use Rattle.std.specs.IoError.{error_kind};
ghost use Rattle.std.specs.declared.io.ErrorKind.TheVariants.{OutOfMemory};
ghost use Rattle.cif_device.specs.Device.{CountsFailure};
ghost use Rattle.docker_host.specs.Standing.{IsStill};
ghost use Rattle.docker_host.specs.History.{Event, looked, opened, unopened, closed, drafted, undrafted, placed, unplaced, dropped, named_if};
ghost use Rattle.docker_host.specs.Opening.{one_of};
ghost use Rattle.docker_host.specs.declared.folder.OpenFault.TheVariants.{Memory};

use cif_device::{Failed, Sink, Source};
use std::alloc::AllocError;
use std::io;
use std::io::ErrorKind;

/// The reason why a file couldn't be opened, or why no draft could be made.
#[derive(Clone, Copy, PartialEq, Eq, Debug)]
pub enum OpenFault {
    /// The file doesn't exist, the program isn't allowed to open it, another file has replaced it
    /// since the look, or the device failed.
    Failed,
    /// Out of memory: an allocation was refused.
    Memory,
}

impl OpenFault {
    /// Returns one of two values, chosen by the fault: `failed` if the device failed, `memory` if
    /// memory ran out.
    pub fn one_of<T: Copy>(self, failed: T, memory: T) -> T
        ensures { result ≡ one_of failed memory self }
    {
        match self {
            OpenFault::Failed => failed,
            OpenFault::Memory => memory,
        }
    }
}

impl From<io::Error> for OpenFault {
    ghost from_gives = { λ error fault.
        (fault ≡ Memory) ↔ (error_kind error ≡ OutOfMemory) };

    fn from(error: io::Error) -> OpenFault {
        if error.kind() == ErrorKind::OutOfMemory {
            return OpenFault::Memory;
        }
        OpenFault::Failed
    }
}

impl From<AllocError> for OpenFault {
    ghost from_gives = { λ _ fault. fault ≡ Memory };

    fn from(_refused: AllocError) -> OpenFault {
        OpenFault::Memory
    }
}

/// A draft for a named file.
#[derive(Drop)]
pub struct Drafted<'a, K> {
    /// The name of the file.
    pub name: &'a str,
    /// The sink that takes the new text of the file.
    pub draft: K,
}

/// A device whose files are looked at, opened, and replaced by drafts.
pub trait Folder {
    /// An opened file.
    type File: Source + Drop;

    /// A draft: a sink that takes the new text of a file.
    type Draft: Sink + Drop;

    /// What a look has found out about a file.
    type Seen: Drop;

    // The events of the folder, oldest first.
    ghost history: { Self → List Event };

    // The number of failures of the folder, including failures of the files and drafts that were
    // closed, completed or discarded.
    ghost failures: { Self → ℕ };

    // The look's position in the history.
    ghost look_of: { Self.Seen → ℕ };

    // Whether contracts can say which bytes were written to the folder's drafts. Contracts can't
    // say which bytes real files hold.
    ghost names_bytes: { Bool };

    // The bytes of the file with each name, at each position of the history. `None` means that
    // there is no such file, or that contracts can't say which bytes it holds. They can't say it of
    // real files, so for the real folder all bytes are `None`, and the clauses `held` and `still`
    // say nothing about it.
    ghost standing: { Self → ℕ → List ℕ → Option (List ℕ) };

    /// Looks at the named file. A draft for the file can be based on the result.
    fn look(&mut self, name: &str) -> Self::Seen
        ensures asked { history self.new ≡ history self.old ++ looked name.now ∷ [] }
        ensures look { look_of result ≡ length (history self.old) }
        ensures no_failure { failures self.new ≡ failures self.old };

    /// Opens the named file for reading from its first byte. The bytes left in the opened file are
    /// the bytes that the file holds when it is opened.
    fn open(&mut self, name: &str) -> Result<Self::File, OpenFault>
        requires { failures self.old < 2 ^ 64 - 1 }
        ensures asked { IfOk result (λ file.
            history self.new ≡ history self.old ++ opened name.now (Self.File.left file) ∷ []) }
        ensures fresh { IfOk result (λ file.
            (Self.File.ended file ≡ false) × (Self.File.passed file ≡ false)) }
        ensures sound { IfOk result (λ file. Self.File.failures file ≡ 0) }
        ensures held { IfOk result (λ file. Self.File.left file
            ≡ standing self.new (length (history self.old)) name.now) }
        ensures unopened { OnErr result
            (history self.new ≡ history self.old ++ unopened name.now ∷ []) }
        ensures failures { CountsFailure (result ≡ Err OpenFault.Failed)
            (failures self.old) (failures self.new) };

    /// Closes an opened file, records the bytes left in the file, and adds the file's failures to
    /// the folder's failures.
    fn close(&mut self, file: Self::File)
        requires { failures self.old + Self.File.failures file < 2 ^ 64 }
        ensures asked { history self.new ≡ history self.old ++ closed (Self.File.left file) ∷ [] }
        ensures counted { failures self.new ≡ failures self.old + Self.File.failures file };

    /// Makes an empty draft for the named file, based on the result of a look. Fails if the file
    /// under the name is no longer the file that was looked at. So the file has held the same bytes
    /// since the look.
    fn create<'a>(
        &mut self,
        name: &'a str,
        seen: &Self::Seen,
    ) -> Result<Drafted<'a, Self::Draft>, OpenFault>
        requires { failures self.old < 2 ^ 64 - 1 }
        ensures name { IfOk result (λ made. made.name.now ≡ name.now) }
        ensures empty { IfOk result (λ made.
            Self.Draft.taken made.draft ≡ named_if names_bytes []) }
        ensures sound { IfOk result (λ made. Self.Draft.failures made.draft ≡ 0) }
        ensures asked { OnOk result
            (history self.new ≡ history self.old ++ drafted name.now (look_of seen.now) ∷ []) }
        ensures still { OnOk result (IsStill (standing self.new) name.now (look_of seen.now)
            (length (history self.old))) }
        ensures undrafted { OnErr result
            (history self.new ≡ history self.old ++ undrafted name.now (look_of seen.now) ∷ []) }
        ensures failures { CountsFailure (result ≡ Err OpenFault.Failed)
            (failures self.old) (failures self.new) };

    /// Replaces the file with its draft. The file then holds the bytes that were written to the
    /// draft. If the call fails, the file holds these bytes or the bytes that it held before.
    fn complete(&mut self, made: Drafted<'_, Self::Draft>) -> Result<(), Failed>
        requires { failures self.old + Self.Draft.failures made.draft < 2 ^ 64 - 1 }
        ensures asked { OnOk result (history self.new ≡ history self.old
            ++ placed made.entry.name.now (Self.Draft.taken made.entry.draft) ∷ []) }
        ensures unplaced { OnErr result (history self.new ≡ history self.old
            ++ unplaced made.entry.name.now (Self.Draft.taken made.entry.draft) ∷ []) }
        ensures failures { CountsFailure (IsErr result)
            (failures self.old + Self.Draft.failures made.entry.draft) (failures self.new) };

    /// Discards a draft, and adds the draft's failures to the folder's failures.
    fn discard(&mut self, made: Drafted<'_, Self::Draft>)
        requires { failures self.old + Self.Draft.failures made.draft < 2 ^ 64 }
        ensures asked { history self.new ≡ history self.old ++ dropped made.entry.name.now ∷ [] }
        ensures counted { failures self.new
            ≡ failures self.old + Self.Draft.failures made.entry.draft };

    /// Returns the number of failures of the folder.
    fn failures(&self) -> u64
        ensures { result ≡ failures self.now };
}
