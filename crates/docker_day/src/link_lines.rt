//! The docker line of an association.
ghost use Rattle.std.specs.Prelude.{◌≡◌, List, Some, option_map, IfOk};
ghost use Rattle.docker_model.specs.file.Change.{ScheduleKey};
ghost use Rattle.docker_model.specs.records.Record.{columns, column};
ghost use Rattle.docker_model.specs.docker.Association.{category_occasion, is_date_indicator, partner_start};
ghost use Rattle.docker_laws.specs.Gathering.{is_in_force, partner_identity};
ghost use Rattle.docker_model.specs.state.Row.{Row, AreRowsOf};
ghost use Rattle.docker_laws.specs.LiveRows.{train_in, link_in};
ghost use Rattle.train_choice.specs.Meaning.{occasion_meant};
ghost use Rattle.train_choice.specs.EventWalk.{occurrence_meant};
ghost use Rattle.train_choice.specs.Along.{IsLiveLink};
ghost use Rattle.docker_day.specs.Lines.{listed, link_line_at, link_line_with, link_piece};
ghost use Rattle.docker_state.specs.Timetables.{live_in};

use crate::docker_line::DockerLine;
use crate::starts::{is_today, partner_start};
use crate::visit::Visit;
use cif_line::Memory;
use train_choice::{LinkView, Occasion, Occurrence, is_cancellation};

/// The docker line of an association for a visit. Returns `None` if the association isn't in force
/// on the start day, or if its category isn't `JJ`, `VV` or `NP`. Also returns `None` if its base
/// train doesn't call at the place on the day.
pub(crate) fn link_line<'a>(
    visit: &mut Visit<'a>,
    link: &LinkView<'a>,
) -> Result<Option<DockerLine<'a>>, Memory>
    requires live { IsLiveLink (live_in visit.old.timetable) link.now }
    requires here { link.now.key.location ≡ visit.old.place }
    ensures same { visit.new ≡ visit.old }
    ensures line { IfOk result (λ line. (rows : List Row)
        → AreRowsOf (live_in visit.old.timetable) rows → listed line
        ≡ link_piece (train_in rows) (link_in rows) visit.old.day link.now visit.old.start) }
{
    if is_in_force(visit, link) {
        line_with(visit, link)
    } else {
        Ok(None)
    }
}

/// Whether an association is in force on the start day: it is chosen in its group, isn't a
/// cancellation, and has the date indicator `S`, a space, `N` or `P`.
fn is_in_force(visit: &Visit<'_>, link: &LinkView<'_>) -> bool
    requires live { IsLiveLink (live_in visit.now.timetable) link.now }
    requires here { link.now.key.location ≡ visit.now.place }
    ensures { (rows : List Row) → AreRowsOf (live_in visit.now.timetable) rows
        → result ≡ is_in_force (link_in rows) visit.now.start link.now.key link.now.line }
{
    // The association's days are checked first, because the choice in its group needs a search.
    if !link.runs_on(visit.start()) {
        return false;
    }
    visit.counts(link.key()) & !is_cancellation(link.key().stp) & has_indicator(link)
}

/// Whether the date indicator of an association is `S`, a space, `N` or `P`.
fn has_indicator(link: &LinkView<'_>) -> bool
    ensures { result ≡ is_date_indicator (column 37 link.now.line) }
{
    is_date_indicator(link.record().date_indicator())
}

/// Whether an association with this date indicator can have a docker line. That is so for `S`, a
/// space, `N` and `P`.
fn is_date_indicator(indicator: u8) -> bool
    ensures { result ≡ is_date_indicator indicator }
{
    (indicator == b'S') | (indicator == b' ') | (indicator == b'N') | (indicator == b'P')
}

/// The occasion for an association category: `JJ`, `VV` or `NP`. Returns `None` for any other
/// category.
fn occasion_of(category: &[u8; 2]) -> Option<Occasion>
    ensures { option_map occasion_meant result ≡ category_occasion category.now }
{
    match category {
        b"JJ" => Some(Occasion::Joining),
        b"VV" => Some(Occasion::Dividing),
        b"NP" => Some(Occasion::NextWorking),
        _ => None,
    }
}

/// The docker line of an association in force. Returns `None` if its category isn't `JJ`, `VV` or
/// `NP`, or if its base train doesn't run or doesn't call at the place on the day.
fn line_with<'a>(
    visit: &mut Visit<'a>,
    link: &LinkView<'a>,
) -> Result<Option<DockerLine<'a>>, Memory>
    requires here { link.now.key.location ≡ visit.old.place }
    ensures same { visit.new ≡ visit.old }
    ensures line { IfOk result (λ line. (rows : List Row)
        → AreRowsOf (live_in visit.old.timetable) rows → listed line
        ≡ link_line_with (train_in rows) visit.old.day visit.old.start link.now
        (category_occasion (columns 35 36 link.now.line))
        (train_in rows link.now.key.base visit.old.start)) }
{
    match occasion_of(link.record().category()) {
        Some(occasion) => line_by(visit, link, occasion),
        None => Ok(None),
    }
}

/// The docker line of an association with this occasion. Returns `None` if its base train doesn't
/// run, or doesn't call at the place on the day.
fn line_by<'a>(
    visit: &mut Visit<'a>,
    link: &LinkView<'a>,
    occasion: Occasion,
) -> Result<Option<DockerLine<'a>>, Memory>
    requires here { link.now.key.location ≡ visit.old.place }
    ensures same { visit.new ≡ visit.old }
    ensures line { IfOk result (λ line. (rows : List Row)
        → AreRowsOf (live_in visit.old.timetable) rows → listed line
        ≡ link_line_with (train_in rows) visit.old.day visit.old.start link.now
        (Some (occasion_meant occasion)) (train_in rows link.now.key.base visit.old.start)) }
{
    let key = link.key();
    match visit.first_call(&key.base, key.suffix) {
        Ok(Some(event)) => line_at(visit, link, occasion, &event),
        Ok(None) => Ok(None),
        Err(refused) => Err(refused),
    }
}

/// The docker line of an association at an event of its base train. Returns `None` if the event
/// isn't on the docker's day.
fn line_at<'a>(
    visit: &mut Visit<'a>,
    link: &LinkView<'a>,
    occasion: Occasion,
    event: &Occurrence<'a>,
) -> Result<Option<DockerLine<'a>>, Memory>
    ensures same { visit.new ≡ visit.old }
    ensures line { IfOk result (λ line. (rows : List Row)
        → AreRowsOf (live_in visit.old.timetable) rows
        → (base : ScheduleKey) → base.uid ≡ link.now.key.base → listed line
        ≡ link_line_at (train_in rows) visit.old.day visit.old.start link.now
        (occasion_meant occasion) base (occurrence_meant event.now)) }
{
    if !is_today(event, visit.day(), visit.start()) {
        return Ok(None);
    }
    let identity = partner_identity(visit, link)?;
    Ok(Some(DockerLine::of_link(link, occasion, visit.start(), event, identity)))
}

/// The train identity of the associated train on its start day. Returns four question marks if that
/// train doesn't run, or if its start day would be before day 0.
fn partner_identity<'a>(visit: &mut Visit<'a>, link: &LinkView<'_>) -> Result<[u8; 4], Memory>
    ensures same { visit.new ≡ visit.old }
    ensures identity { IfOk result (λ identity. (rows : List Row)
        → AreRowsOf (live_in visit.old.timetable) rows → identity
        ≡ partner_identity (train_in rows) link.now.key.associated
        (partner_start (column 37 link.now.line) visit.old.start)) }
{
    match partner_start(link.record().date_indicator(), visit.start()) {
        Some(day) => visit.identity(&link.key().associated, day),
        None => Ok(*b"????"),
    }
}
