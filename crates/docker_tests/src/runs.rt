//! Tests of runs of events: the replies, and the states at the end.
ghost use Rattle.std.specs.Prelude.{All};
ghost use Rattle.docker_office.specs.RunEnds.{HasGoodLimit};
ghost use Rattle.docker_office.specs.RunMeaning.{event_meant, events_meant};

use crate::compare::same;
use crate::offices::{day_of, has, prints, refuses_day, text_of, text_of_parts};
use cif_file::{FileCause, FileFault, MOST_RECORDS};
use cif_line::Day;
use docker_office::{Event, Exchange, Office, OfficeFault, Reply, RunFault, run};
use std::alloc::Global;
use std::process::Abort;
use test_records::dockers::{ASHFELD_0900, Lines, NONE_ON_18_JUNE, TWO_TRAINS};
use test_records::files::{FIFTH, File, MORNING, NINTH, NINTH_OPEN, REVISION, SEVENTH};
use test_records::states::{
    FIFTH_STATE, LAPSED_STATE, LATE_STATE, MORNING_STATE, Parts, REVISED_STATE,
};

/// Returns the event in which an office takes this text. The limit of the event is the most records
/// that any file may have.
fn take(office: usize, text: &[u8]) -> Event<'_>
    ensures { HasGoodLimit (event_meant result) }
{
    Event::Take {
        office,
        text,
        limit: MOST_RECORDS,
    }
}

/// Returns the event in which an office sends its state.
fn send<'a>(office: usize) -> Event<'a>
    ensures { HasGoodLimit (event_meant result) }
{
    Event::Send { office }
}

/// Returns the event in which this message is delivered to an office.
fn deliver<'a>(office: usize, message: usize) -> Event<'a>
    ensures { HasGoodLimit (event_meant result) }
{
    Event::Deliver { office, message }
}

/// Returns the event in which an office reloads this message.
fn reload<'a>(office: usize, message: usize) -> Event<'a>
    ensures { HasGoodLimit (event_meant result) }
{
    Event::Reload { office, message }
}

/// Returns the event in which an office sets this horizon.
fn horizon<'a>(office: usize, day: Day) -> Event<'a>
    ensures { HasGoodLimit (event_meant result) }
{
    Event::Horizon { office, day }
}

/// Returns the offices, messages and replies at the end of a run of these events.
fn left_by(rt: &impl Abort, alloc: Global, offices: usize, events: &[Event<'_>]) -> Exchange
    requires { All HasGoodLimit (events_meant events.now) }
{
    run(alloc, offices, events).expect(rt, "memory")
}

/// Returns the office with this index at the end of a run.
fn office_at<'a>(rt: &impl Abort, left: &'a Exchange, office: usize) -> &'a Office {
    left.offices().get(office).expect(rt, "an office")
}

/// Asserts that, at the end of a run, an office prints this docker of Ashfeld for a day.
fn prints_there(
    rt: &impl Abort,
    alloc: Global,
    left: &Exchange,
    office: usize,
    day: &str,
    docker: Lines,
) {
    let office = office_at(rt, left, office);
    prints(rt, alloc, office, "ASHFELD", day, docker);
}

/// Asserts that the state of an office has this text at the end of a run.
fn ends(rt: &impl Abort, alloc: Global, left: &Exchange, office: usize, parts: Parts) {
    has(rt, alloc, office_at(rt, left, office), parts);
}

/// Asserts that a message has this text.
fn message_is(rt: &impl Abort, alloc: Global, left: &Exchange, message: usize, parts: Parts) {
    let wanted = text_of_parts(rt, alloc, parts);
    let kept = left.messages().get(message).expect(rt, "a message");
    same(rt, (message, kept.bytes()), (message, wanted.as_slice()));
}

/// Asserts that the first `done` replies are `Done`, and that the remaining replies are `others`.
fn replies(rt: &impl Abort, left: &Exchange, done: usize, others: &[Reply]) {
    let (first, rest) = left.replies().split_at(left.replies().len().min(done));
    same(rt, first.len(), done);
    for reply in first {
        same(rt, *reply, Reply::Done);
    }
    same(rt, rest, others);
}

#[test]
fn no_office(rt: HostRuntime) {
    let left = left_by(&rt, rt.alloc(), 0, &[send(0)]);
    replies(&rt, &left, 0, &[Reply::Refused(RunFault::NoOffice)]);
    same(&rt, left.offices().len(), 0);
    same(&rt, left.messages().len(), 0);
}

/// Events at three offices, up to the first office's reload, followed by these further events.
macro_rules! up_to_reload {
    ([$early:expr, $full:expr, $late:expr], $($more:expr),*) => {
        &[
            take(0, $early),
            send(0),
            take(1, $full),
            send(1),
            take(2, $late),
            send(2),
            deliver(0, 2),
            deliver(0, 2),
            send(0),
            deliver(1, 2),
            deliver(1, 0),
            send(1),
            reload(0, 0),
            $($more,)*
        ]
    };
}

/// Returns the result of a run of three offices. The last event of the run is refused, because its
/// file has no trailer.
fn three_left(rt: &impl Abort, alloc: Global) -> Exchange {
    let early = text_of(rt, alloc, FIFTH);
    let full = text_of(rt, alloc, SEVENTH);
    let late = text_of(rt, alloc, NINTH);
    let open = text_of(rt, alloc, NINTH_OPEN);
    let events = up_to_reload!(
        [early.as_slice(), full.as_slice(), late.as_slice()],
        deliver(0, 4),
        deliver(2, 1),
        deliver(3, 0),
        deliver(0, 5),
        take(2, open.as_slice())
    );
    left_by(rt, alloc, 3, events)
}

/// The replies to the last three events of the run of `three_left`.
const LAST_REPLIES: &[Reply] = &[
    Reply::Refused(RunFault::NoOffice),
    Reply::Refused(RunFault::NoMessage),
    Reply::Refused(RunFault::Office(OfficeFault::File(FileFault {
        number: 5,
        cause: FileCause::NoEnd,
    }))),
];

#[test]
fn three_offices(rt: HostRuntime) {
    let alloc = rt.alloc();
    let left = three_left(&rt, alloc);
    replies(&rt, &left, 15, LAST_REPLIES);
    same(&rt, left.messages().len(), 5);
    for office in 0..3 {
        ends(&rt, alloc, &left, office, LATE_STATE);
        prints_there(&rt, alloc, &left, office, "2024-06-10", TWO_TRAINS);
    }
    message_is(&rt, alloc, &left, 4, LATE_STATE);
}

/// Returns the result of a run of three offices. The last event of the run is the first office's
/// reload.
fn reload_left(rt: &impl Abort, alloc: Global) -> Exchange {
    let early = text_of(rt, alloc, FIFTH);
    let full = text_of(rt, alloc, SEVENTH);
    let late = text_of(rt, alloc, NINTH);
    let events = up_to_reload!([early.as_slice(), full.as_slice(), late.as_slice()],);
    left_by(rt, alloc, 3, events)
}

#[test]
fn three_offices_up_to_a_reload(rt: HostRuntime) {
    let alloc = rt.alloc();
    let left = reload_left(&rt, alloc);
    replies(&rt, &left, 13, &[]);
    prints_there(&rt, alloc, &left, 0, "2024-06-10", ASHFELD_0900);
    ends(&rt, alloc, &left, 0, FIFTH_STATE);
    message_is(&rt, alloc, &left, 0, FIFTH_STATE);
    ends(&rt, alloc, &left, 1, LATE_STATE);
}

/// Returns the result of a run of two offices. Its last event sets a horizon at a third office,
/// which doesn't exist.
fn horizon_left(rt: &impl Abort, alloc: Global) -> Exchange {
    let text = text_of(rt, alloc, MORNING);
    let day = day_of(rt, "2024-06-15");
    let events = &[
        take(0, text.as_slice()),
        send(0),
        horizon(0, day),
        send(0),
        deliver(1, 0),
        deliver(1, 1),
        reload(0, 0),
        horizon(2, day),
    ];
    left_by(rt, alloc, 2, events)
}

#[test]
fn two_offices_and_a_horizon(rt: HostRuntime) {
    let alloc = rt.alloc();
    let left = horizon_left(&rt, alloc);
    replies(&rt, &left, 7, &[Reply::Refused(RunFault::NoOffice)]);
    message_is(&rt, alloc, &left, 1, LAPSED_STATE);
    ends(&rt, alloc, &left, 1, LAPSED_STATE);
    refuses_day(&rt, alloc, office_at(&rt, &left, 1), "2024-06-17");
    prints_there(&rt, alloc, &left, 1, "2024-06-18", NONE_ON_18_JUNE);
    message_is(&rt, alloc, &left, 0, MORNING_STATE);
    ends(&rt, alloc, &left, 0, MORNING_STATE);
    prints_there(&rt, alloc, &left, 0, "2024-06-10", ASHFELD_0900);
}

/// Returns the result of a run of two offices. The first office sends its state, sets a horizon,
/// and sends its state again. Then its first message is delivered to the second office.
fn delivery_left(rt: &impl Abort, alloc: Global) -> Exchange {
    let text = text_of(rt, alloc, MORNING);
    let day = day_of(rt, "2024-06-15");
    let events = &[
        take(0, text.as_slice()),
        send(0),
        horizon(0, day),
        send(0),
        deliver(1, 0),
    ];
    left_by(rt, alloc, 2, events)
}

#[test]
fn a_delivery_before_the_horizon(rt: HostRuntime) {
    let left = delivery_left(&rt, rt.alloc());
    replies(&rt, &left, 5, &[]);
    prints_there(&rt, rt.alloc(), &left, 1, "2024-06-10", ASHFELD_0900);
}

/// Events at one office, up to the reload of its first message, followed by these further events.
macro_rules! up_to_loss {
    ([$text:expr, $revision:expr], $($more:expr),*) => {
        &[
            take(0, $text),
            send(0),
            take(0, $revision),
            send(0),
            reload(0, 0),
            $($more,)*
        ]
    };
}

/// Returns the result of a run whose last event is a reload that loses the revision of the morning
/// train.
fn lost_left(rt: &impl Abort, alloc: Global) -> Exchange {
    let text = text_of(rt, alloc, MORNING);
    let revision = text_of(rt, alloc, REVISION);
    let events = up_to_loss!([text.as_slice(), revision.as_slice()],);
    left_by(rt, alloc, 1, events)
}

/// Returns the result of a run in which a reload first makes an office lose the revision of the
/// morning train. A message with the revision is then delivered to the office.
fn found_left(rt: &impl Abort, alloc: Global) -> Exchange {
    let text = text_of(rt, alloc, MORNING);
    let revision = text_of(rt, alloc, REVISION);
    let events = up_to_loss!([text.as_slice(), revision.as_slice()], deliver(0, 1));
    left_by(rt, alloc, 1, events)
}

#[test]
fn what_a_reload_lost_comes_again(rt: HostRuntime) {
    let alloc = rt.alloc();
    let lost = lost_left(&rt, alloc);
    replies(&rt, &lost, 5, &[]);
    ends(&rt, alloc, &lost, 0, MORNING_STATE);
    let found = found_left(&rt, alloc);
    replies(&rt, &found, 6, &[]);
    message_is(&rt, alloc, &found, 1, REVISED_STATE);
    ends(&rt, alloc, &found, 0, REVISED_STATE);
}

/// Returns the result of a run of five offices. The first office takes three files. The next three
/// offices take one of these files each and send their states, which the last office receives.
fn five_left(rt: &impl Abort, alloc: Global, files: [File; 3]) -> Exchange {
    let first = text_of(rt, alloc, files[0]);
    let second = text_of(rt, alloc, files[1]);
    let third = text_of(rt, alloc, files[2]);
    let events = &[
        take(0, first.as_slice()),
        take(0, second.as_slice()),
        take(0, third.as_slice()),
        take(1, first.as_slice()),
        send(1),
        take(2, second.as_slice()),
        send(2),
        take(3, third.as_slice()),
        send(3),
        deliver(4, 0),
        deliver(4, 1),
        deliver(4, 2),
    ];
    left_by(rt, alloc, 5, events)
}

/// The files of 5, 7 and 9 June in every order. In some orders, an office takes the full extract
/// after a later update.
pub(crate) const ORDERS: &[[File; 3]] = &[
    [FIFTH, SEVENTH, NINTH],
    [FIFTH, NINTH, SEVENTH],
    [SEVENTH, FIFTH, NINTH],
    [SEVENTH, NINTH, FIFTH],
    [NINTH, FIFTH, SEVENTH],
    [NINTH, SEVENTH, FIFTH],
];

/// Asserts that the first office and the last office have the state of all three files, if the
/// files are taken in this order.
fn is_late(rt: &impl Abort, alloc: Global, files: [File; 3]) {
    let left = five_left(rt, alloc, files);
    replies(rt, &left, 12, &[]);
    ends(rt, alloc, &left, 0, LATE_STATE);
    prints_there(rt, alloc, &left, 0, "2024-06-10", TWO_TRAINS);
    ends(rt, alloc, &left, 4, LATE_STATE);
    prints_there(rt, alloc, &left, 4, "2024-06-10", TWO_TRAINS);
}

#[test]
fn a_late_full_extract(rt: HostRuntime) {
    for files in ORDERS {
        is_late(&rt, rt.alloc(), *files);
    }
}
