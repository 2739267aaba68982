//! A folder in memory.
ghost use Rattle.std.specs.Prelude.{◌≡◌, ◌≢◌, ◌+◌, ◌-◌, ◌^◌, ◌<◌, [], ◌∷◌, ◌++◌, length, false, true, Some, None, IfOk, IfErr, IsErr, OnOk, OnErr, Err, option_map};
ghost use Rattle.std.specs.Prelude.{ℕ};
ghost use Rattle.cif_device.specs.Device.{CountsFailure};
ghost use Rattle.docker_host.specs.History.{looked, opened, unopened, closed, drafted, undrafted, placed, unplaced, dropped};
ghost use Rattle.docker_host.specs.Standing.{IsStandingOf, IsStill};
ghost use Rattle.docker_host.specs.Shelf.{IsSetAs, IsShelfHistory, MakesDraft, OpensFile, RefusesDraft, RefusesFile, ShelfView, last_put, room_of, shelf_standing, sound_of, text_under};
ghost use Rattle.docker_host.specs.Places.{IsKept, since_when, texts_of};
ghost use Rattle.docker_host.specs.Counts.{IsCountOf};

use crate::counted::{CountedHistory, next_count};
use crate::folder::{Drafted, Folder, OpenFault};
use crate::history::{Note, Position};
use crate::shelf_file::ShelfFile;
use cif_device::{Failed, Kept, Memory, Sink, Source};
use std::alloc::Global;
use std::marker::Model;

/// A file on a shelf: its name, its text, and the number of events that the shelf had counted once
/// this text was placed.
#[derive(Drop)]
pub struct Place {
    name: String,
    text: Vec<u8>,
    since: u64,
}

/// The calls at which a shelf fails.
#[derive(Clone, Copy, PartialEq, Eq, Debug)]
pub enum Fails {
    /// No call fails.
    Never,
    /// Opening a file fails.
    AtOpen,
    /// Opening a file fails, because memory runs out.
    AtOpenForMemory,
    /// Each read of an opened file fails once this many bytes have been read from the file.
    AfterReading(usize),
    /// Making a draft fails.
    AtCreate,
    /// Making a draft fails, because memory runs out.
    AtCreateForMemory,
    /// Each write to a draft fails once the draft has taken this many bytes.
    AfterWriting(usize),
    /// Replacing a file with its draft fails.
    AtComplete,
}

/// The result of a look at a file on a shelf: the position of the look in the history. The shelf
/// also keeps this position as a number, as far as it counts.
#[derive(Drop)]
pub struct Sight {
    count: u64,
    position: Position,
}

impl Model for Sight {
    ghost Value = { ℕ };

    ghost view = { λ sight. sight.position.at };

    ghost invariant = { λ sight. IsCountOf sight.count sight.position.at };
}

/// A folder in memory. Its texts are listed from the newest to the oldest. A text hides older texts
/// with the same name.
#[derive(Drop)]
pub struct Shelf {
    alloc: Global,
    room: usize,
    fails: Fails,
    places: Vec<Place>,
    history: CountedHistory,
    failures: u64,
}

impl Model for Shelf {
    ghost Value = { ShelfView };

    ghost view = { λ shelf. record {
      events = shelf.history;
      failures = shelf.failures;
      fails = shelf.fails;
      room = shelf.room;
    } };

    ghost invariant = { λ shelf. IsKept shelf.places.items shelf.history };
}

/// Returns the text of the file with this name, or `None` if there is no such file.
fn text_among<'a>(places: &'a [Place], name: &str) -> Option<&'a [u8]>
    ensures { texts_of places.now name.now ≡ option_map (λ text. text.now) result }
{
    for place in places {
        if place.name.as_str() == name {
            return Some(place.text.as_slice());
        }
    }
    None
}

/// Returns how many events the shelf had counted once the text of the file with this name was placed,
/// or 0 if there is no such file.
fn since_when(places: &[Place], name: &str) -> u64
    ensures { result ≡ since_when places.now name.now }
{
    for place in places {
        if place.name.as_str() == name {
            return place.since;
        }
    }
    0
}

impl Shelf {
    /// Returns an empty shelf that doesn't fail. Each of its drafts has room for `room` bytes.
    pub fn new(alloc: Global, room: usize) -> Shelf
        ensures events { result.events ≡ [] }
        ensures no_failure { result.failures ≡ 0 }
        ensures fails { result.fails ≡ Fails.Never }
        ensures room { result.room ≡ room }
    {
        Shelf {
            alloc,
            room,
            fails: Fails::Never,
            places: Vec::new(alloc),
            history: CountedHistory::new(),
            failures: 0,
        }
    }

    /// Makes the shelf fail at these calls from now on, and at no other calls.
    pub fn fail(&mut self, fails: Fails)
        ensures { self.new ≡ record self.old { fails = fails } }
    {
        self.fails = fails;
    }

    /// Writes a text to the named file, as another program would. If memory runs out, the shelf is
    /// unchanged.
    pub fn put(&mut self, name: &str, text: &[u8]) -> Result<(), Memory>
        ensures placed { OnOk result
            (self.new.events ≡ self.old.events ++ placed name.now (Some text.now) ∷ []) }
        ensures unplaced { OnErr result (self.new ≡ self.old) }
        ensures no_failure { self.new.failures ≡ self.old.failures }
        ensures set { IsSetAs self.old self.new }
    {
        let place = Place {
            name: String::from_str(self.alloc, name)?,
            text: Vec::from_slice(self.alloc, text)?,
            since: next_count(self.history.count()),
        };
        self.places.insert(0, place)?;
        self.history = self.history.then(&Note::Placed(name, text));
        Ok(())
    }

    /// Returns the text of the named file, or `None` if there is no such file.
    pub fn text(&self, name: &str) -> Option<&[u8]>
        ensures { option_map (λ text. text.now) result ≡ text_under self.now.events name.now }
    {
        text_among(self.places.as_slice(), name)
    }

    /// Does nothing at run time. The contract says that each opened file held the text that was
    /// last placed under its name. It also says that no draft was made for a file to which a text
    /// had been written since the look. A caller's proof can use these facts.
    pub fn tell(&self)
        ensures texts { IsShelfHistory self.now.events }
        ensures standing { IsStandingOf (shelf_standing self.now.events) self.now.events }
    {
        let _ = &self.places;
    }

    /// Returns a copy of the text of the named file, if the file can be opened.
    fn copy_of(&self, name: &str) -> Result<Vec<u8>, OpenFault>
        ensures text { IfOk result (λ text.
            text_under self.now.events name.now ≡ Some text.items) }
        ensures opens { OnOk result (OpensFile self.now (sound_of self.now.fails)) }
        ensures refuses { IfErr result (λ fault. RefusesFile self.now name.now fault) }
    {
        if self.fails == Fails::AtOpen {
            return Err(OpenFault::Failed);
        }
        if self.fails == Fails::AtOpenForMemory {
            return Err(OpenFault::Memory);
        }
        match self.text(name) {
            Some(text) => Ok(Vec::from_slice(self.alloc, text)?),
            None => Err(OpenFault::Failed),
        }
    }

    /// Returns the number of bytes that can be read from an opened file before a read fails.
    fn sound(&self) -> usize
        ensures { result ≡ sound_of self.now.fails }
    {
        match self.fails {
            Fails::AfterReading(sound) => sound,
            _ => usize::MAX,
        }
    }

    /// Returns the number of bytes that can be written to a draft before a write fails.
    fn draft_room(&self) -> usize
        ensures { result ≡ room_of self.now.room self.now.fails }
    {
        match self.fails {
            Fails::AfterWriting(room) => room,
            _ => self.room,
        }
    }

    /// Whether no text was written to the named file since the look, as far as the shelf has counted.
    fn is_still(&self, name: &str, seen: &Sight) -> bool
        ensures still { result ≡ true → IsStill (shelf_standing self.now.events) name.now
            seen.now (length self.now.events) }
        ensures put { result ≡ false → seen.now < 2 ^ 64 - 1
            → seen.now < last_put self.now.events name.now }
    {
        seen.count < u64::MAX && since_when(self.places.as_slice(), name) <= seen.count
    }

    /// Returns an empty draft for the named file, if no text was written to the file since the look.
    fn draft_of(&self, name: &str, seen: &Sight) -> Result<Kept, OpenFault>
        ensures empty { IfOk result (λ draft. draft.taken ≡ []) }
        ensures sound { IfOk result (λ draft. draft.failures ≡ 0) }
        ensures still { OnOk result (IsStill (shelf_standing self.now.events) name.now seen.now
            (length self.now.events)) }
        ensures makes { IfOk result (λ draft. MakesDraft self.now draft.room) }
        ensures refuses { IfErr result (λ fault.
            RefusesDraft self.now name.now seen.now fault) }
    {
        if self.fails == Fails::AtCreate || !self.is_still(name, seen) {
            return Err(OpenFault::Failed);
        }
        if self.fails == Fails::AtCreateForMemory {
            return Err(OpenFault::Memory);
        }
        match Kept::new(self.alloc, self.draft_room()) {
            Ok(draft) => Ok(draft),
            Err(Memory) => Err(OpenFault::Memory),
        }
    }

    /// Replaces the text of the named file with the text of a draft. Returns `false` if that fails.
    fn put_draft(&mut self, name: &str, text: &[u8]) -> bool
        ensures placed { result ≡ true
            → self.new.events ≡ self.old.events ++ placed name.now (Some text.now) ∷ [] }
        ensures unplaced { result ≡ false → self.new ≡ self.old }
        ensures no_failure { self.new.failures ≡ self.old.failures }
        ensures set { IsSetAs self.old self.new }
        ensures ready { result ≡ true → self.old.fails ≢ Fails.AtComplete }
    {
        if self.fails == Fails::AtComplete {
            return false;
        }
        self.put(name, text).is_ok()
    }
}

impl Folder for Shelf {
    type File = ShelfFile;

    type Draft = Kept;

    type Seen = Sight;

    ghost history = { λ shelf. shelf.events };

    ghost failures = { λ shelf. shelf.failures };

    ghost look_of = { λ seen. seen };

    ghost names_bytes = { true };

    ghost standing = { λ shelf. shelf_standing shelf.events };

    // The clauses `set`, `opens`, `refuses`, `makes` and `ready` are promised only for a shelf. The
    // other clauses of these calls are promised for every folder.

    fn look(&mut self, name: &str) -> Sight
        ensures asked { self.new.events ≡ self.old.events ++ looked name.now ∷ [] }
        ensures look { result ≡ length self.old.events }
        ensures no_failure { self.new.failures ≡ self.old.failures }
        ensures set { IsSetAs self.old self.new }
    {
        let count = self.history.count();
        let position = self.history.position();
        self.history = self.history.then(&Note::Looked(name));
        Sight { count, position }
    }

    fn open(&mut self, name: &str) -> Result<ShelfFile, OpenFault>
        requires { self.old.failures < 2 ^ 64 - 1 }
        ensures asked { IfOk result (λ file.
            self.new.events ≡ self.old.events ++ opened name.now (Some file.left) ∷ []) }
        ensures fresh { IfOk result (λ file.
            (file.ended ≡ false) × (file.passed ≡ false)) }
        ensures sound { IfOk result (λ file. file.failures ≡ 0) }
        ensures held { IfOk result (λ file. Some file.left
            ≡ shelf_standing self.new.events (length self.old.events) name.now) }
        ensures unopened { OnErr result
            (self.new.events ≡ self.old.events ++ unopened name.now ∷ []) }
        ensures failures { CountsFailure (result ≡ Err OpenFault.Failed)
            self.old.failures self.new.failures }
        ensures set { IsSetAs self.old self.new }
        ensures opens { IfOk result (λ file. OpensFile self.old file.sound) }
        ensures refuses { IfErr result (λ fault. RefusesFile self.old name.now fault) }
    {
        match self.copy_of(name) {
            Ok(text) => {
                self.history = self.history.then(&Note::Opened(name, text.as_slice()));
                Ok(ShelfFile::new(text, self.sound()))
            }
            Err(OpenFault::Memory) => {
                self.history = self.history.then(&Note::Unopened(name));
                Err(OpenFault::Memory)
            }
            Err(OpenFault::Failed) => {
                self.history = self.history.then(&Note::Unopened(name));
                self.failures += 1;
                Err(OpenFault::Failed)
            }
        }
    }

    fn close(&mut self, file: ShelfFile)
        requires { self.old.failures + file.failures < 2 ^ 64 }
        ensures asked { self.new.events ≡ self.old.events ++ closed (Some file.left) ∷ [] }
        ensures counted { self.new.failures ≡ self.old.failures + file.failures }
        ensures set { IsSetAs self.old self.new }
    {
        self.failures += file.failures();
        self.history = self.history.then(&Note::Closed(file.rest()));
    }

    fn create<'a>(&mut self, name: &'a str, seen: &Sight) -> Result<Drafted<'a, Kept>, OpenFault>
        requires { self.old.failures < 2 ^ 64 - 1 }
        ensures name { IfOk result (λ made. made.name.now ≡ name.now) }
        ensures empty { IfOk result (λ made. made.draft.taken ≡ []) }
        ensures sound { IfOk result (λ made. made.draft.failures ≡ 0) }
        ensures asked { OnOk result
            (self.new.events ≡ self.old.events ++ drafted name.now seen.now ∷ []) }
        ensures still { OnOk result (IsStill (shelf_standing self.new.events) name.now seen.now
            (length self.old.events)) }
        ensures undrafted { OnErr result
            (self.new.events ≡ self.old.events ++ undrafted name.now seen.now ∷ []) }
        ensures failures { CountsFailure (result ≡ Err OpenFault.Failed)
            self.old.failures self.new.failures }
        ensures set { IsSetAs self.old self.new }
        ensures makes { IfOk result (λ made. MakesDraft self.old made.draft.room) }
        ensures refuses { IfErr result (λ fault.
            RefusesDraft self.old name.now seen.now fault) }
    {
        match self.draft_of(name, seen) {
            Ok(draft) => {
                self.history = self.history.then(&Note::Drafted(name, &seen.position));
                Ok(Drafted { name, draft })
            }
            Err(OpenFault::Memory) => {
                self.history = self.history.then(&Note::Undrafted(name, &seen.position));
                Err(OpenFault::Memory)
            }
            Err(OpenFault::Failed) => {
                self.history = self.history.then(&Note::Undrafted(name, &seen.position));
                self.failures += 1;
                Err(OpenFault::Failed)
            }
        }
    }

    fn complete(&mut self, made: Drafted<'_, Kept>) -> Result<(), Failed>
        requires { self.old.failures + made.draft.failures < 2 ^ 64 - 1 }
        ensures asked { OnOk result (self.new.events ≡ self.old.events
            ++ placed made.entry.name.now (Some made.entry.draft.taken) ∷ []) }
        ensures unplaced { OnErr result (self.new.events ≡ self.old.events
            ++ unplaced made.entry.name.now (Some made.entry.draft.taken) ∷ []) }
        ensures failures { CountsFailure (IsErr result)
            (self.old.failures + made.entry.draft.failures) self.new.failures }
        ensures set { IsSetAs self.old self.new }
        ensures ready { OnOk result (self.old.fails ≢ Fails.AtComplete) }
    {
        self.failures += made.draft.failures();
        if self.put_draft(made.name, made.draft.bytes()) {
            return Ok(());
        }
        self.history = self
            .history
            .then(&Note::Unplaced(made.name, made.draft.bytes()));
        self.failures += 1;
        Err(Failed)
    }

    fn discard(&mut self, made: Drafted<'_, Kept>)
        requires { self.old.failures + made.draft.failures < 2 ^ 64 }
        ensures asked { self.new.events ≡ self.old.events ++ dropped made.entry.name.now ∷ [] }
        ensures counted { self.new.failures ≡ self.old.failures + made.entry.draft.failures }
        ensures set { IsSetAs self.old self.new }
    {
        self.failures += made.draft.failures();
        self.history = self.history.then(&Note::Dropped(made.name));
    }

    fn failures(&self) -> u64 {
        self.failures
    }
}
