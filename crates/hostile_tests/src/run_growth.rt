//! A call that allocates memory: a run of events at three offices.

use crate::desk::Desk;
use crate::endings::Ending;
use crate::knowledge::{Book, Known, OFFICES, STEPS, is_out_of_memory};
use crate::texts::{MOST_RECORDS, compare_state, has_text, occasion_of, sink};
use cif_line::Memory;
use docker_office::{Event, Exchange, Office, Reply, RunFault, run};
use std::alloc::Global;

/// The texts of the files that offices take.
#[derive(Drop)]
struct Files {
    fifth: Vec<u8>,
    seventh: Vec<u8>,
    ninth: Vec<u8>,
    open: Vec<u8>,
}

/// The event `Take` of an office, for this text.
macro_rules! take {
    ($office:expr, $text:expr) => {
        Event::Take {
            office: $office,
            text: $text.as_slice(),
            limit: MOST_RECORDS,
        }
    };
}

/// The event `Send` of an office.
macro_rules! send {
    ($office:expr) => {
        Event::Send { office: $office }
    };
}

/// The event `Deliver` of an office, for this message.
macro_rules! deliver {
    ($office:expr, $message:expr) => {
        Event::Deliver {
            office: $office,
            message: $message,
        }
    };
}

/// The result of the run of these events.
fn left_by_run(alloc: Global, files: &Files) -> Result<Exchange, Memory> {
    run(
        alloc,
        OFFICES,
        &[
            take!(0, files.fifth),
            send!(0),
            take!(1, files.seventh),
            send!(1),
            take!(2, files.ninth),
            send!(2),
            deliver!(0, 2),
            deliver!(0, 2),
            send!(0),
            deliver!(1, 2),
            deliver!(1, 0),
            send!(1),
            Event::Reload {
                office: 0,
                message: 0,
            },
            deliver!(0, 4),
            deliver!(2, 1),
            deliver!(3, 0),
            deliver!(0, 5),
            take!(2, files.open),
        ],
    )
}

/// What offices know, and what messages include, after a run, computed from the replies of the run.
fn book_of(desk: &Desk, left: &Exchange) -> Book {
    let mut book = Book::new(desk.alloc());
    for (step, reply) in STEPS.iter().zip(left.replies()) {
        if book.enter(*step, *reply).is_err() {
            desk.trouble("want of memory");
        }
    }
    book
}

/// Whether an office prints this docker for Ashfeld on 10 June.
fn prints(desk: &Desk, office: &Office, name: &str) -> bool {
    let Some((place, day)) = occasion_of(desk, "ASHFELD", "2024-06-10") else {
        return false;
    };
    match sink(desk) {
        Some(mut kept) => {
            office.print(&place, day, &mut kept).is_ok() && desk.is_text(kept.bytes(), name)
        }
        None => false,
    }
}

/// Whether an office has the state of these files, and prints their docker.
fn knows(desk: &Desk, office: &Office, known: Known) -> bool {
    let text = desk.text(known.state());
    has_text(desk, office.state(), text.as_slice()) && prints(desk, office, known.docker())
}

/// Whether the result of a run agrees with the book. Each office and each message must have the
/// state of the files that the book lists for it.
fn is_left(desk: &Desk, left: &Exchange, book: &Book) -> bool {
    let mut same = book.fits
        && left.replies().len() == STEPS.len()
        && left.offices().len() == OFFICES
        && left.messages().len() == book.messages.len();
    for (office, known) in left.offices().iter().zip(&book.offices) {
        same &= knows(desk, office, *known);
    }
    for (message, known) in left.messages().iter().zip(&book.messages) {
        same &= desk.is_text(message.bytes(), known.state());
    }
    same
}

/// The word that is printed for a reply.
fn word_of<'a>(reply: &Reply) -> &'a str {
    match reply {
        Reply::Done => "Done",
        Reply::Refused(fault) => match fault {
            RunFault::NoOffice => "NoOffice",
            RunFault::NoMessage => "NoMessage",
            RunFault::Office(_) => "Office",
        },
    }
}

/// Prints the replies, and whether each office and each message has the state that follows from the
/// replies.
fn report_left(desk: &Desk, left: &Exchange) {
    let book = book_of(desk, left);
    for reply in left.replies() {
        desk.report(true, word_of(reply));
    }
    for (office, known) in left.offices().iter().zip(&book.offices) {
        compare_state(desk, office.state(), known.state());
    }
    for (message, known) in left.messages().iter().zip(&book.messages) {
        desk.compare(message.bytes(), known.state());
    }
    report_same(desk, left, &book, 0);
}

/// Prints whether `wanting` events were refused because memory ran out, and whether the offices and
/// messages have the states that follow from the replies.
fn report_same(desk: &Desk, left: &Exchange, book: &Book, wanting: u32) {
    let same = book.wanting == wanting && is_left(desk, left, book);
    desk.report(
        same,
        "offices, messages and dockers are those that the replies leave",
    );
}

/// Runs a row with the arguments `FIFTH SEVENTH NINTH OPEN`. Three offices take the files and send
/// their states. Messages are lost, repeated and reloaded. Some events name an office or a message
/// that doesn't exist.
pub(crate) fn run_events(desk: &Desk, words: &[&str]) {
    let [fifth, seventh, ninth, open] = words else {
        return desk.trouble("FIFTH SEVENTH NINTH OPEN");
    };
    let files = Files {
        fifth: desk.text(fifth),
        seventh: desk.text(seventh),
        ninth: desk.text(ninth),
        open: desk.text(open),
    };
    desk.begin();
    let left = left_by_run(desk.alloc(), &files);
    report_first(desk, left);
    match left_by_run(desk.alloc(), &files) {
        Ok(left) => report_left(desk, &left),
        Err(_) => desk.trouble("want of memory"),
    }
}

/// Prints how a run ended. If memory ran out during an event, also prints whether the result of the
/// run follows from its replies.
fn report_first(desk: &Desk, left: Result<Exchange, Memory>) {
    match left {
        Ok(left) => report_ended(desk, &left),
        Err(_) => {
            desk.end(Ending::Memory);
            desk.report(true, "before the first event");
        }
    }
}

/// Like `report_first`, for a run that ended with a reply to each event.
fn report_ended(desk: &Desk, left: &Exchange) {
    if !ran_out_of_memory(left) {
        return desk.end(Ending::Done);
    }
    desk.end(Ending::Memory);
    let book = book_of(desk, left);
    desk.report(book.wanting == 1, "one reply wants memory");
    report_same(desk, left, &book, 1);
}

/// Whether some event was refused because memory ran out.
fn ran_out_of_memory(left: &Exchange) -> bool {
    left.replies().iter().any(is_out_of_memory)
}
