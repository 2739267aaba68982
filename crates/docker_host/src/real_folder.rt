//! The folder of the real files. Contracts can't say which bytes the files hold. But contracts
//! state in which order the calls were made, and which file each call named.
ghost use Rattle.std.specs.Prelude.{◌≡◌, ◌+◌, ◌-◌, ◌^◌, ◌<◌, [], ◌∷◌, ◌++◌, false, None, IsErr, OnOk, OnErr};
ghost use Rattle.cif_device.specs.Device.{CountsFailure};
ghost use Rattle.docker_host.specs.History.{placed, unplaced, dropped};
ghost use Rattle.docker_host.specs.Folder.{FolderView};

use crate::draft_file::{DraftFile, Placed};
use crate::folder::{Drafted, Folder, OpenFault};
use crate::history::{History, Note, Position};
use crate::input_device::InputDevice;
use crate::version::Version;
use cif_device::{Failed, Sink, Source};
use std::fs::File;
use std::marker::Model;

/// The result of a look at a real file.
#[derive(Drop)]
pub struct Seen {
    file: Option<Version>,
    position: Position,
}

/// The real files. After a draft has replaced a file, the next look at the file's name finds that
/// draft, even if another program has replaced the file since. So the next draft can't replace the
/// other program's file unseen.
#[derive(Drop)]
pub struct RealFolder {
    rt: HostRuntime,
    placed: Option<Placed>,
    history: History,
    failures: u64,
}

impl Model for RealFolder {
    ghost Value = { FolderView };

    ghost view = { λ folder. record {
      events = folder.history.events;
      failures = folder.failures;
    } };
}

impl RealFolder {
    /// Returns the real files, with names relative to the working directory. The history is empty
    /// at first.
    pub fn new(rt: &HostRuntime) -> RealFolder
        ensures events { result.events ≡ [] }
        ensures no_failure { result.failures ≡ 0 }
    {
        RealFolder {
            rt: *rt,
            placed: None,
            history: History::new(),
            failures: 0,
        }
    }

    /// Returns the version of the draft that replaced the named file, for the next look at that
    /// name. Returns `None` if no draft has replaced the file, or a look has found that draft
    /// already.
    fn take_placed(&mut self, name: &str) -> Option<Version>
        ensures { self.new ≡ self.old }
    {
        if self.placed.as_ref()?.name.as_str() != name {
            return None;
        }
        self.placed.take().map(|placed| placed.version)
    }
}

impl Folder for RealFolder {
    type File = InputDevice<File>;

    type Draft = DraftFile<File>;

    type Seen = Seen;

    ghost history = { λ folder. folder.events };

    ghost failures = { λ folder. folder.failures };

    ghost look_of = { λ seen. seen.position.at };

    ghost names_bytes = { false };

    ghost standing = { λ _ _ _. None };

    fn look(&mut self, name: &str) -> Seen {
        let file = match self.take_placed(name) {
            Some(placed) => Some(placed),
            None => Version::under(&self.rt, name),
        };
        let position = self.history.position();
        self.history = self.history.then(&Note::Looked(name));
        Seen { file, position }
    }

    fn open(&mut self, name: &str) -> Result<InputDevice<File>, OpenFault> {
        match InputDevice::open(&self.rt, name) {
            Ok(file) => {
                self.history = self.history.then(&Note::OpenedUnnamed(name));
                Ok(file)
            }
            Err(OpenFault::Memory) => {
                self.history = self.history.then(&Note::Unopened(name));
                Err(OpenFault::Memory)
            }
            Err(OpenFault::Failed) => {
                self.history = self.history.then(&Note::Unopened(name));
                self.failures += 1;
                Err(OpenFault::Failed)
            }
        }
    }

    fn close(&mut self, file: InputDevice<File>) {
        self.failures += file.failures();
        self.history = self.history.then(&Note::ClosedUnnamed);
    }

    fn create<'a>(
        &mut self,
        name: &'a str,
        seen: &Seen,
    ) -> Result<Drafted<'a, DraftFile<File>>, OpenFault> {
        self.placed = None;
        match DraftFile::make(&self.rt, name, seen.file) {
            Ok(draft) => {
                self.history = self.history.then(&Note::Drafted(name, &seen.position));
                Ok(Drafted { name, draft })
            }
            Err(OpenFault::Memory) => {
                self.history = self.history.then(&Note::Undrafted(name, &seen.position));
                Err(OpenFault::Memory)
            }
            Err(OpenFault::Failed) => {
                self.history = self.history.then(&Note::Undrafted(name, &seen.position));
                self.failures += 1;
                Err(OpenFault::Failed)
            }
        }
    }

    fn complete(&mut self, made: Drafted<'_, DraftFile<File>>) -> Result<(), Failed>
        requires { self.old.failures + made.draft.failures < 2 ^ 64 - 1 }
        ensures asked { OnOk result (self.new.events ≡ self.old.events
            ++ placed made.entry.name.now None ∷ []) }
        ensures unplaced { OnErr result (self.new.events ≡ self.old.events
            ++ unplaced made.entry.name.now None ∷ []) }
        ensures failures { CountsFailure (IsErr result)
            (self.old.failures + made.entry.draft.failures) self.new.failures }
    {
        let Drafted { name, draft } = made;
        self.failures += draft.failures();
        match draft.place(&self.rt) {
            Ok(placed) => {
                self.history = self.history.then(&Note::PlacedUnnamed(name));
                self.placed = placed;
                Ok(())
            }
            Err(Failed) => {
                self.history = self.history.then(&Note::UnplacedUnnamed(name));
                self.failures += 1;
                Err(Failed)
            }
        }
    }

    fn discard(&mut self, made: Drafted<'_, DraftFile<File>>)
        requires { self.old.failures + made.draft.failures < 2 ^ 64 }
        ensures asked { self.new.events ≡ self.old.events ++ dropped made.entry.name.now ∷ [] }
        ensures counted { self.new.failures ≡ self.old.failures + made.entry.draft.failures }
    {
        self.failures += made.draft.failures();
        made.draft.remove(&self.rt);
        self.history = self.history.then(&Note::Dropped(made.name));
    }

    fn failures(&self) -> u64 {
        self.failures
    }
}
