//! A thousand random runs of three offices. At the end of a run, each office's state must have the
//! text that follows from what the office knows. Each message must have the text that follows from
//! the knowledge that it carries.
ghost use Rattle.docker_office.specs.RunEnds.{HasGoodLimit};
ghost use Rattle.docker_office.specs.RunMeaning.{event_meant};

use crate::compare::same;
use crate::dice::Dice;
use crate::knowledge::{FILES, Knowledge, Known, OFFICES, Step, texts_of_files};
use cif_file::MOST_RECORDS;
use cif_line::{Day, Kept};
use docker_office::{Event, Exchange, Office, Reply, RunFault, run};
use state_text::encoded_len;
use std::alloc::Global;
use std::process::Abort;

/// The number of events of a run.
const STEPS: usize = 16;

/// The first day that may be a horizon, 10 June 2024, and the number of days that may be a horizon.
const FIRST_HORIZON: usize = 23537;

const HORIZONS: usize = 16;

/// Returns a random event. On average, one event in twelve is at an office that doesn't exist. An
/// event that delivers or reloads a message may name a message that was never sent.
fn random_step(rt: &impl Abort, dice: &mut Dice, sent: u16) -> Step {
    let office = if dice.roll(12) == 0 {
        OFFICES
    } else {
        dice.roll(OFFICES)
    };
    let message = dice.roll(usize::from(sent) + 1);
    match dice.roll(16) {
        0..=4 => {
            let file = dice.roll(FILES.len());
            Step::Take { office, file }
        }
        5..=8 => Step::Send { office },
        9..=12 => Step::Deliver { office, message },
        13..=14 => Step::Reload { office, message },
        _ => {
            let day = random_day(rt, dice);
            Step::Horizon { office, day }
        }
    }
}

/// Returns a random day for a horizon.
fn random_day(rt: &impl Abort, dice: &mut Dice) -> Day {
    let number = FIRST_HORIZON + dice.roll(HORIZONS);
    let number = u16::try_from(number).expect(rt, "a number");
    Day::from_number(number).expect(rt, "a day")
}

/// Returns the events of a run.
fn random_steps(rt: &impl Abort, alloc: Global, dice: &mut Dice) -> Vec<Step> {
    let mut steps = Vec::new(alloc);
    let mut sent: u16 = 0;
    for _ in 0..STEPS {
        let step = random_step(rt, dice, sent);
        if let Step::Send { .. } = step {
            sent = sent.saturating_add(1);
        }
        steps.push(step).expect(rt, "room");
    }
    steps
}

/// Returns the event with this index, with the text of its file. If there is no such event, returns
/// an event in which an office that doesn't exist sends its state.
fn event_at<'a>(steps: &[Step], place: usize, texts: &'a [Vec<u8>]) -> Event<'a>
    ensures { HasGoodLimit (event_meant result) }
{
    match steps.get(place) {
        Some(Step::Take { office, file }) => Event::Take {
            office: *office,
            text: text_at(texts, *file),
            limit: MOST_RECORDS,
        },
        Some(Step::Send { office }) => Event::Send { office: *office },
        Some(Step::Deliver { office, message }) => Event::Deliver {
            office: *office,
            message: *message,
        },
        Some(Step::Reload { office, message }) => Event::Reload {
            office: *office,
            message: *message,
        },
        Some(Step::Horizon { office, day }) => Event::Horizon {
            office: *office,
            day: *day,
        },
        None => Event::Send { office: OFFICES },
    }
}

/// Returns the text of a file, or an empty text if there is no such file.
fn text_at(texts: &[Vec<u8>], file: usize) -> &[u8] {
    match texts.get(file) {
        Some(text) => text.as_slice(),
        None => &[],
    }
}

/// Returns the offices, messages and replies at the end of a run of these events.
fn left_by(rt: &impl Abort, alloc: Global, steps: &[Step], texts: &[Vec<u8>]) -> Exchange {
    let events = [
        event_at(steps, 0, texts),
        event_at(steps, 1, texts),
        event_at(steps, 2, texts),
        event_at(steps, 3, texts),
        event_at(steps, 4, texts),
        event_at(steps, 5, texts),
        event_at(steps, 6, texts),
        event_at(steps, 7, texts),
        event_at(steps, 8, texts),
        event_at(steps, 9, texts),
        event_at(steps, 10, texts),
        event_at(steps, 11, texts),
        event_at(steps, 12, texts),
        event_at(steps, 13, texts),
        event_at(steps, 14, texts),
        event_at(steps, 15, texts),
    ];
    run(alloc, OFFICES, &events).expect(rt, "memory")
}

/// For one kind of event, how often events of this kind got each kind of reply.
#[derive(Clone, Copy)]
struct Count {
    done: u32,
    no_office: u32,
    no_message: u32,
    refused: u32,
}

impl Count {
    /// The counts before the first event.
    const NONE: Count = Count {
        done: 0,
        no_office: 0,
        no_message: 0,
        refused: 0,
    };

    /// Counts a reply.
    fn add(&mut self, reply: Reply) {
        let number = match reply {
            Reply::Done => &mut self.done,
            Reply::Refused(RunFault::NoOffice) => &mut self.no_office,
            Reply::Refused(RunFault::NoMessage) => &mut self.no_message,
            Reply::Refused(RunFault::Office(_)) => &mut self.refused,
        };
        *number = number.saturating_add(1);
    }
}

/// For each kind of event, how often events of this kind got each kind of reply.
#[derive(Clone, Copy)]
struct Tally {
    takes: Count,
    sends: Count,
    deliveries: Count,
    reloads: Count,
    horizons: Count,
}

impl Tally {
    /// The counts before the first event.
    const NONE: Tally = Tally {
        takes: Count::NONE,
        sends: Count::NONE,
        deliveries: Count::NONE,
        reloads: Count::NONE,
        horizons: Count::NONE,
    };

    /// Counts the reply to an event.
    fn add(&mut self, step: &Step, reply: Reply) {
        match step {
            Step::Take { .. } => self.takes.add(reply),
            Step::Send { .. } => self.sends.add(reply),
            Step::Deliver { .. } => self.deliveries.add(reply),
            Step::Reload { .. } => self.reloads.add(reply),
            Step::Horizon { .. } => self.horizons.add(reply),
        }
    }

    /// Whether each kind of event got each kind of reply that it can get.
    fn is_full(&self) -> bool {
        let all = [
            self.takes,
            self.sends,
            self.deliveries,
            self.reloads,
            self.horizons,
        ];
        all.iter()
            .all(|count| count.done > 0 && count.no_office > 0)
            && self.deliveries.no_message > 0
            && self.reloads.no_message > 0
            && self.takes.refused > 0
    }
}

/// Works out what each office knows, and what each message carries, at the end of a run. Asserts
/// that each reply is the expected reply.
fn known_at_end(
    rt: &impl Abort,
    alloc: Global,
    number: u32,
    steps: &[Step],
    replies: &[Reply],
    tally: &mut Tally,
) -> Knowledge {
    let mut known = Knowledge::new(alloc);
    same(rt, replies.len(), steps.len());
    for (step, reply) in steps.iter().zip(replies.iter()) {
        same(rt, (number, *reply), (number, known.due(step)));
        known.follow(rt, step, *reply);
        tally.add(step, *reply);
    }
    known
}

/// Asserts that this text is the text of the state of an office with the knowledge `known`.
fn is_of_known(
    rt: &impl Abort,
    alloc: Global,
    number: u32,
    texts: &[Vec<u8>],
    text: &[u8],
    known: &Known,
) {
    let wanted = known.text(rt, alloc, texts);
    same(rt, (number, text), (number, wanted.bytes()));
}

/// Returns the text that an office sends.
fn text_of_office(rt: &impl Abort, alloc: Global, office: &Office) -> Kept {
    let room = usize::try_from(encoded_len(office.state())).expect(rt, "a length");
    let mut kept = Kept::new(alloc, room).expect(rt, "room");
    office.send(&mut kept).expect(rt, "all is written");
    kept
}

/// Asserts that each office sends the text that follows from what the office knows.
fn offices_are_of_known(
    rt: &impl Abort,
    alloc: Global,
    number: u32,
    texts: &[Vec<u8>],
    left: &Exchange,
    known: &Knowledge,
) {
    same(rt, left.offices().len(), OFFICES);
    for (office, known) in left.offices().iter().zip(known.offices.iter()) {
        let text = text_of_office(rt, alloc, office);
        is_of_known(rt, alloc, number, texts, text.bytes(), known);
    }
}

/// Asserts that each message has the text that follows from the knowledge that the message carries.
fn messages_are_of_known(
    rt: &impl Abort,
    alloc: Global,
    number: u32,
    texts: &[Vec<u8>],
    left: &Exchange,
    known: &Knowledge,
) {
    same(rt, left.messages().len(), known.messages.len());
    for (message, known) in left.messages().iter().zip(known.messages.iter()) {
        is_of_known(rt, alloc, number, texts, message.bytes(), known);
    }
}

/// Makes a random run. Asserts its replies, and the texts of its offices and messages.
fn random_run(
    rt: &impl Abort,
    alloc: Global,
    number: u32,
    texts: &[Vec<u8>],
    dice: &mut Dice,
    tally: &mut Tally,
) {
    let steps = random_steps(rt, alloc, dice);
    let left = left_by(rt, alloc, steps.as_slice(), texts);
    let known = known_at_end(rt, alloc, number, steps.as_slice(), left.replies(), tally);
    offices_are_of_known(rt, alloc, number, texts, &left, &known);
    messages_are_of_known(rt, alloc, number, texts, &left, &known);
}

#[test]
fn a_thousand_random_runs(rt: HostRuntime) {
    let alloc = rt.alloc();
    let texts = texts_of_files(&rt, alloc);
    let mut dice = Dice::new(20_240_610);
    let mut tally = Tally::NONE;
    for number in 0..1000 {
        random_run(&rt, alloc, number, texts.as_slice(), &mut dice, &mut tally);
    }
    same(&rt, tally.is_full(), true);
}
