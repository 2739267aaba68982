//! Answers queries from the state of an office.
ghost use Rattle.std.specs.Prelude.{◌≡◌, ◌↔◌, ℕ, List, Err, IfOk, IsErr, IsOk};
ghost use Rattle.docker_model.specs.state.Lapse.{IsDayRefused};
ghost use Rattle.docker_model.specs.state.Table.{Table};
ghost use Rattle.docker_model.specs.docker.DetailedText.{IsDetailedText};
ghost use Rattle.docker_model.specs.docker.DockerText.{IsDockerText};
ghost use Rattle.docker_day.specs.Dockers.{IsDockerOf};
ghost use Rattle.docker_detail.specs.DetailedValue.{IsDetailedOf};
ghost use Rattle.docker_desk.specs.Desk.{IsAnswer, IsShown};
ghost use Rattle.docker_desk.specs.Replies.{answer_meant, done_with, refused_for};
ghost use Rattle.docker_desk.specs.declared.query.Query.TheVariants as query;

use crate::page::Page;
use crate::query::DockerKind;
use crate::reply::Answer;
use cif_line::{Day, Failed, Tiploc, Uid};
use docker_cmd::{Office, OfficeFault};
use docker_day::{Docker, DockerFault, docker, permanent_docker, write_docker};
use docker_detail::{DetailedDocker, detailed_docker, permanent_detailed_docker, write_detailed};
use docker_train::{TrainFault, print_train, print_trains};
use state_lists::print_places;
use std::alloc::Global;

/// Returns the text of the docker of this kind, for a timing point and a day. The answer is a
/// refusal if the day is before the third day after the horizon, or if memory ran out.
pub(crate) fn show_docker(
    alloc: Global,
    office: &Office,
    kind: DockerKind,
    place: &Tiploc,
    day: Day,
) -> Answer
    ensures { IsShown office.now (query.Docker kind place.now day) (answer_meant result) }
{
    let state = office.state();
    match kind {
        DockerKind::Ordinary => docker_answer(alloc, docker(alloc, state, place, day)),
        DockerKind::Permanent => docker_answer(alloc, permanent_docker(alloc, state, place, day)),
        DockerKind::Detailed => detailed_answer(alloc, detailed_docker(alloc, state, place, day)),
        DockerKind::PermanentDetailed => {
            detailed_answer(alloc, permanent_detailed_docker(alloc, state, place, day))
        }
    }
}

/// Returns the answer that has the text of a docker. The answer is a refusal if the docker was
/// refused, or if there is no memory for the text.
fn docker_answer(alloc: Global, made: Result<Docker<'_>, DockerFault>) -> Answer
    ensures { (live : Table) (place : List ℕ) (day horizon : ℕ)
        → IfOk made.entry (IsDockerOf live place day)
        → ((made.entry ≡ Err DockerFault.Lapsed) ↔ IsDayRefused horizon day)
        → IsAnswer (IsDockerText live place day) (IsDayRefused horizon day) (answer_meant result) }
{
    let mut page = Page::new(alloc);
    match made {
        Ok(docker) => {
            let written = write_docker(&docker, &mut page);
            answer_on(page, written)
        }
        Err(DockerFault::Lapsed) => Answer::Refused(OfficeFault::Lapsed),
        Err(DockerFault::Memory) => Answer::Refused(OfficeFault::Memory),
    }
}

/// Returns the answer that has the text of a detailed docker. The answer is a refusal if the docker
/// was refused, or if there is no memory for the text.
fn detailed_answer(alloc: Global, made: Result<DetailedDocker<'_>, DockerFault>) -> Answer
    ensures { (live : Table) (place : List ℕ) (day horizon : ℕ)
        → IfOk made.entry (IsDetailedOf live place day)
        → ((made.entry ≡ Err DockerFault.Lapsed) ↔ IsDayRefused horizon day)
        → IsAnswer (IsDetailedText live place day) (IsDayRefused horizon day)
        (answer_meant result) }
{
    let mut page = Page::new(alloc);
    match made {
        Ok(docker) => {
            let written = write_detailed(&docker, &mut page);
            answer_on(page, written)
        }
        Err(DockerFault::Lapsed) => Answer::Refused(OfficeFault::Lapsed),
        Err(DockerFault::Memory) => Answer::Refused(OfficeFault::Memory),
    }
}

/// Returns the text of the schedule that is chosen for a train on a day, or a line which says that
/// no schedule is chosen. The answer is a refusal if the day is before the horizon, or if memory
/// ran out.
pub(crate) fn show_train(alloc: Global, office: &Office, uid: &Uid, day: Day) -> Answer
    ensures { IsShown office.now (query.Train uid.now day) (answer_meant result) }
{
    let mut page = Page::new(alloc);
    match print_train(office.state(), uid, day, &mut page) {
        Ok(()) => Answer::Text(page),
        Err(TrainFault::Lapsed) => Answer::Refused(OfficeFault::Lapsed),
        Err(TrainFault::Sink) => Answer::Refused(OfficeFault::Memory),
    }
}

/// Returns a line for each train that has this train identity and starts on this day, in ascending
/// order of the UIDs. The answer is a refusal for the same reasons as in `show_train`.
pub(crate) fn show_trains(alloc: Global, office: &Office, identity: &[u8; 4], day: Day) -> Answer
    ensures { IsShown office.now (query.Trains identity.now day) (answer_meant result) }
{
    let mut page = Page::new(alloc);
    match print_trains(office.state(), identity, day, &mut page) {
        Ok(()) => Answer::Text(page),
        Err(TrainFault::Sink) => Answer::Refused(OfficeFault::Memory),
        Err(_) => Answer::Refused(OfficeFault::Lapsed),
    }
}

/// Returns a line for each file that the office knows, in the ledger's order. The answer is a
/// refusal only if memory ran out.
pub(crate) fn show_files(alloc: Global, office: &Office) -> Answer
    ensures { IsShown office.now query.Files (answer_meant result) }
{
    let mut page = Page::new(alloc);
    match office.files(&mut page) {
        Ok(()) => Answer::Text(page),
        Err(_) => Answer::Refused(OfficeFault::Memory),
    }
}

/// Returns a line for each live timing point, with the number of live schedules that call there.
/// The answer is a refusal only if memory ran out.
pub(crate) fn show_places(alloc: Global, office: &Office) -> Answer
    ensures { IsShown office.now query.Places (answer_meant result) }
{
    let mut page = Page::new(alloc);
    let printed = print_places(office.state(), &mut page);
    answer_on(page, printed)
}

/// Returns the answer whose text was printed on a page, or a refusal if memory ran out for the
/// page.
pub(crate) fn answer_on(page: Page, printed: Result<(), Failed>) -> Answer
    ensures done { IsOk printed → answer_meant result ≡ done_with page.text }
    ensures refused { IsErr printed → answer_meant result ≡ refused_for OfficeFault.Memory }
{
    match printed {
        Ok(()) => Answer::Text(page),
        Err(Failed) => Answer::Refused(OfficeFault::Memory),
    }
}
