//! A desk, and the requests that it answers.
ghost use Rattle.std.specs.Prelude.{◌≡◌, ◌+◌, ◌-◌, ◌^◌, ◌<◌, false, true, length, IfOk, IfSome};
ghost use Rattle.docker_model.specs.state.State.{raise_horizon};
ghost use Rattle.docker_model.specs.state.StateText.{dks_2, state_text};
ghost use Rattle.docker_model.specs.lists.KnownText.{IsKnownText};
ghost use Rattle.docker_cmd.specs.FaultLine.{IsCounted, result_status};
ghost use Rattle.docker_desk.specs.Desk.{EndsReceiving, EndsRenewing, EndsSaving, EndsTaking, IsShown, IsUnknownUnless, look_by, unsaved_by};
ghost use Rattle.docker_desk.specs.Reading.{LooksAndOpens, OpensOnce, StopsInFile, StopsInState};
ghost use Rattle.docker_desk.specs.Doing.{desk_by};
ghost use Rattle.docker_desk.specs.Replies.{answer_meant};

use crate::compared::Compared;
use crate::page::Page;
use crate::query::Query;
use crate::reading::{receive_state, renew_state, take_file};
use crate::reply::Answer;
use crate::saving::store_office;
use crate::showing::{answer_on, show_docker, show_files, show_places, show_train, show_trains};
use cif_line::{Day, write_all};
use docker_cmd::{Office, OfficeFault};
use docker_host::Folder;
use state_lists::{KnownText, known_text};
use std::alloc::Global;
use std::marker::Model;

/// A desk: an office, and whether the office's state may differ from the state that STATE was last
/// seen to hold. The desk also keeps the text of its last answer to `known`, as long as the
/// office's state can't have changed.
#[derive(Debug, Drop)]
pub struct Desk {
    alloc: Global,
    office: Office,
    unsaved: bool,
    known: Option<KnownText>,
}

impl Model for Desk {
    ghost use Rattle.std.specs.Prelude.{IfSome};
    ghost use Rattle.docker_model.specs.lists.KnownText.{IsKnownText};
    ghost use Rattle.docker_desk.specs.Desk.{DeskView};

    ghost Value = { DeskView };

    ghost view = { λ desk. record { state = desk.office; unsaved = desk.unsaved } };

    ghost invariant = { λ desk. IfSome desk.known (λ text. IsKnownText desk.office text.items) };
}

impl Desk {
    /// Returns the desk of an office whose state was just read.
    pub fn new(alloc: Global, office: Office) -> Desk
        ensures { result ≡ record { state = office; unsaved = false } }
    {
        Desk {
            alloc,
            office,
            unsaved: false,
            known: None,
        }
    }

    /// Whether the desk's state may differ from the state that STATE was last seen to hold.
    /// If so, the desk has taken a file, received a state, been renewed, or set a horizon since
    /// STATE was last read or saved.
    pub fn is_unsaved(&self) -> bool
        ensures { result ≡ self.now.unsaved }
    {
        self.unsaved
    }

    /// Returns the text that a query asks for. The answer is a refusal if the day of the query is
    /// refused under the horizon, or if memory ran out. Only a query for a docker, a train or a list
    /// of trains has a day. The first query for `Known` counts all entries; later ones return the
    /// same text as long as the state can't have changed.
    pub fn show(&mut self, query: &Query) -> Answer
        ensures answer { IsShown self.old.state query.now (answer_meant result) }
        ensures desk { self.new ≡ self.old }
    {
        let alloc = self.alloc;
        let office = &self.office;
        match *query {
            Query::Docker { kind, place, day } => show_docker(alloc, office, kind, &place, day),
            Query::Train { uid, day } => show_train(alloc, office, &uid, day),
            Query::Trains { identity, day } => show_trains(alloc, office, &identity, day),
            Query::Files => show_files(alloc, office),
            Query::Places => show_places(alloc, office),
            Query::Known => self.show_known(),
        }
    }

    /// Returns a few lines on what the desk knows: the horizon, the newest full extract, the latest
    /// last day of a live schedule, and the numbers of live entries.
    fn show_known(&mut self) -> Answer
        ensures answer { IsShown self.old.state Query.Known (answer_meant result) }
        ensures desk { self.new ≡ self.old }
    {
        let text = text_of_known(self.known.take(), &self.office);
        let mut page = Page::new(self.alloc);
        let printed = write_all(&mut page, text.as_slice());
        self.known = Some(text);
        answer_on(page, printed)
    }

    /// Takes the named file, which is opened once. If the call fails, with `File`, `Source` or
    /// `Memory`, the desk is unchanged.
    pub fn take<D: Folder>(&mut self, name: &str, folder: &mut D) -> Result<(), OfficeFault>
        requires { D.failures folder.old < 2 ^ 64 - 1 }
        ensures opens { OpensOnce name.now StopsInFile
            (EndsTaking self.old.state self.new.state result)
            (D.history folder.old) (D.history folder.new) }
        ensures unsaved { self.new.unsaved ≡ unsaved_by result self.old.unsaved }
        ensures counted { IsCounted (result_status result)
            (D.failures folder.old) (D.failures folder.new) }
    {
        self.known = None;
        match take_file(&mut self.office, name, folder) {
            Ok(()) => {
                self.note_change();
                Ok(())
            }
            Err(refused) => Err(refused),
        }
    }

    /// Joins the desk's state with the state in the named file, which is opened once. If the call
    /// fails, with `State`, `Source` or `Memory`, the desk is unchanged.
    pub fn receive<D: Folder>(&mut self, name: &str, folder: &mut D) -> Result<(), OfficeFault>
        requires { D.failures folder.old < 2 ^ 64 - 1 }
        ensures opens { OpensOnce name.now StopsInState
            (EndsReceiving self.old.state self.new.state result)
            (D.history folder.old) (D.history folder.new) }
        ensures unsaved { self.new.unsaved ≡ unsaved_by result self.old.unsaved }
        ensures counted { IsCounted (result_status result)
            (D.failures folder.old) (D.failures folder.new) }
    {
        self.known = None;
        match receive_state(&mut self.office, name, folder) {
            Ok(()) => {
                self.note_change();
                Ok(())
            }
            Err(fault) => Err(fault),
        }
    }

    /// Sets a horizon: the desk keeps the later of this day and its own horizon. The call never
    /// fails.
    pub fn set_horizon(&mut self, day: Day)
        ensures { self.new
            ≡ record { state = raise_horizon day self.old.state; unsaved = true } }
    {
        self.known = None;
        self.office.set_horizon(day);
        self.note_change();
    }

    /// Sets the flag for unsaved changes.
    fn note_change(&mut self)
        ensures { self.new ≡ record self.old { unsaved = true } }
    {
        self.unsaved = true;
    }

    /// Looks at the named file, then opens it once and joins the desk's state with the state in the
    /// file. On success, `seen` becomes the result of this look, and the call returns whether the
    /// file held the text of the desk's new state. The texts are compared only if `compares` is set
    /// and there is memory for a copy of the file's text. The desk then has unsaved changes unless
    /// the comparison showed that the file held that text.
    pub fn renew<D: Folder>(
        &mut self,
        name: &str,
        compares: bool,
        seen: &mut D::Seen,
        folder: &mut D,
    ) -> Result<Compared, OfficeFault>
        requires { D.failures folder.old < 2 ^ 64 - 1 }
        ensures opens { LooksAndOpens name.now (EndsRenewing self.old self.new result)
            (D.history folder.old) (D.history folder.new) }
        ensures compared { IfOk result (λ found. IsUnknownUnless compares found) }
        ensures look { D.look_of seen.new
            ≡ look_by result (length (D.history folder.old)) (D.look_of seen.old) }
        ensures counted { IsCounted (result_status result)
            (D.failures folder.old) (D.failures folder.new) }
    {
        let sight = folder.look(name);
        self.known = None;
        match renew_state(self.alloc, &mut self.office, name, compares, folder) {
            Ok(found) => {
                *seen = sight;
                self.unsaved = found != Compared::Same;
                Ok(found)
            }
            Err(fault) => Err(fault),
        }
    }

    /// Stores the text of the desk's state in the named file. The text is first written to a draft,
    /// which is based on the look `seen`. On success, looks at the file again, and `seen` becomes
    /// the result of the new look. If the call fails, the desk and `seen` are unchanged. The fault
    /// is `Sink` if the draft can't be made or written or can't replace the file, and `Memory` if
    /// there is no memory to make the draft.
    pub fn save<D: Folder>(
        &mut self,
        name: &str,
        seen: &mut D::Seen,
        folder: &mut D,
    ) -> Result<(), OfficeFault>
        requires { D.failures folder.old < 2 ^ 64 - 1 }
        ensures stores { EndsSaving D.names_bytes name.now (D.look_of seen.old)
            (state_text dks_2 self.old.state) (D.history folder.old) (D.history folder.new)
            result }
        ensures desk { self.new ≡ desk_by result self.old }
        ensures look { D.look_of seen.new
            ≡ look_by result (length (D.history folder.old) + 2) (D.look_of seen.old) }
        ensures counted { IsCounted (result_status result)
            (D.failures folder.old) (D.failures folder.new) }
    {
        match store_office(&self.office, name, seen, folder) {
            Ok(()) => {
                *seen = folder.look(name);
                self.unsaved = false;
                Ok(())
            }
            Err(fault) => Err(fault),
        }
    }
}

/// Returns the text that says what an office knows: `kept`, or a new text if `kept` is `None`.
fn text_of_known(kept: Option<KnownText>, office: &Office) -> KnownText
    requires { IfSome kept (λ text. IsKnownText office.now text.items) }
    ensures { IsKnownText office.now result.items }
{
    match kept {
        Some(text) => text,
        None => known_text(office.state()),
    }
}
