//! Calls that allocate memory while they read a file or make the state of a file.

use crate::desk::Desk;
use crate::endings::{Ending, ending_of};
use crate::texts::{MOST_RECORDS, STEP, compare_state, file_of};
use cif_file::{CifFile, FileFault, FileParser, read_pieces};
use docker_state::State;

/// A parser for a file, with the greatest limit on the number of records.
fn new_parser(desk: &Desk) -> FileParser {
    FileParser::new(desk.alloc(), MOST_RECORDS)
}

/// Feeds a text to a parser in pieces, up to the first fault.
fn feed_all(parser: &mut FileParser, text: &[u8]) -> Result<(), FileFault> {
    for piece in text.chunks(STEP) {
        parser.feed(piece)?;
    }
    Ok(())
}

/// Whether a parser that has returned this fault returns the same fault at each further call.
fn repeats(mut parser: FileParser, fault: FileFault) -> bool {
    let fed = parser.feed(b"");
    let again = parser.feed(b"ZZ\n");
    let finished = parser.finish().err();
    fed == Err(fault) && again == Err(fault) && finished == Some(fault)
}

/// Prints whether a file's state has the text named `wanted`.
fn compare(desk: &Desk, file: CifFile, wanted: &str) {
    match State::of_file(desk.alloc(), file) {
        Ok(state) => compare_state(desk, &state, wanted),
        Err(_) => desk.trouble("no state of a file"),
    }
}

/// Prints whether the state of the file that a parser returns has the text named `wanted`.
fn compare_fed(desk: &Desk, parser: FileParser, wanted: &str) {
    match parser.finish() {
        Ok(file) => compare(desk, file, wanted),
        Err(fault) => desk.print_fault(fault),
    }
}

/// Feeds a text to a new parser, and prints whether the file's state has the text named `wanted`.
fn feed_again(desk: &Desk, text: &[u8], wanted: &str) {
    let mut parser = new_parser(desk);
    match feed_all(&mut parser, text) {
        Ok(()) => compare_fed(desk, parser, wanted),
        Err(fault) => desk.print_fault(fault),
    }
}

/// Runs a row with the arguments `FILE STATE`. A parser is fed the file, and the file's state must
/// then equal `STATE`.
pub(crate) fn feed(desk: &Desk, words: &[&str]) {
    let [name, wanted] = words else {
        return desk.trouble("FILE STATE");
    };
    let text = desk.text(name);
    let mut parser = new_parser(desk);
    desk.begin();
    let fed = feed_all(&mut parser, text.as_slice());
    desk.end(ending_of(&fed));
    match fed {
        Ok(()) => compare_fed(desk, parser, wanted),
        Err(fault) => {
            desk.report(repeats(parser, fault), "each later call answers the same");
            feed_again(desk, text.as_slice(), wanted);
        }
    }
}

/// Runs a row with the arguments `FILE STATE`. The call finishes a parser that was fed the file,
/// and the file's state must then equal `STATE`.
pub(crate) fn finish(desk: &Desk, words: &[&str]) {
    let [name, wanted] = words else {
        return desk.trouble("FILE STATE");
    };
    let text = desk.text(name);
    let mut parser = new_parser(desk);
    if feed_all(&mut parser, text.as_slice()).is_err() {
        desk.trouble("a file is refused");
    }
    desk.begin();
    let finished = parser.finish();
    desk.end(ending_of(&finished));
    match finished {
        Ok(file) => compare(desk, file, wanted),
        Err(_) => feed_again(desk, text.as_slice(), wanted),
    }
}

/// The file that a parser returns after it is fed these pieces.
fn fed(desk: &Desk, pieces: &[&[u8]]) -> Result<CifFile, FileFault> {
    let mut parser = new_parser(desk);
    for piece in pieces {
        parser.feed(piece)?;
    }
    parser.finish()
}

/// Runs a row with the arguments `FILE STATE`. The call reads the file in pieces, with
/// `read_pieces` or with a parser. If memory runs out, the record number is printed. This number
/// must be the same for `read_pieces` and for the parser, but no clause promises that.
pub(crate) fn read(desk: &Desk, call: &str, words: &[&str]) {
    let [name, wanted] = words else {
        return desk.trouble("FILE STATE");
    };
    let text = desk.text(name);
    let Ok(pieces) = text.chunks(STEP).collect::<Vec<&[u8]>>(desk.alloc()) else {
        return desk.trouble("want of memory");
    };
    let pieces = pieces.as_slice();
    desk.begin();
    let read = if call == "read_pieces" {
        read_pieces(desk.alloc(), pieces, MOST_RECORDS)
    } else {
        fed(desk, pieces)
    };
    desk.end(ending_of(&read));
    match read {
        Ok(file) => compare(desk, file, wanted),
        Err(fault) => {
            desk.print_record(fault.number);
            feed_again(desk, text.as_slice(), wanted);
        }
    }
}

/// Whether two files are equal.
fn are_same(one: &CifFile, other: &CifFile) -> bool {
    are_same_headers(one, other)
        && one.records() == other.records()
        && one.changes() == other.changes()
}

/// Whether the headers of two files are equal.
fn are_same_headers(one: &CifFile, other: &CifFile) -> bool {
    let (first, second) = (one.header(), other.header());
    first.day() == second.day()
        && first.minute() == second.minute()
        && first.reference() == second.reference()
        && first.last_reference() == second.last_reference()
        && first.extract() == second.extract()
}

/// Runs a row with the arguments `FILE STATE`. The call makes the state of the file. This state
/// must equal `STATE`.
pub(crate) fn of_file(desk: &Desk, words: &[&str]) {
    let [name, wanted] = words else {
        return desk.trouble("FILE STATE");
    };
    let text = desk.text(name);
    if let Some(file) = file_of(desk, text.as_slice()) {
        of_this_file(desk, file, text.as_slice(), wanted);
    }
}

/// Makes the state of the file that has this text.
fn of_this_file(desk: &Desk, file: CifFile, text: &[u8], wanted: &str) {
    desk.begin();
    let made = State::of_file(desk.alloc(), file);
    match made {
        Ok(state) => {
            desk.end(Ending::Done);
            compare_state(desk, &state, wanted);
        }
        Err(back) => {
            desk.end(Ending::Memory);
            report_returned(desk, &back, text);
            compare(desk, back, wanted);
        }
    }
}

/// Prints whether the file that `State::of_file` returned when memory ran out equals the file with
/// this text.
fn report_returned(desk: &Desk, back: &CifFile, text: &[u8]) {
    if let Some(file) = file_of(desk, text) {
        desk.report(are_same(back, &file), "the file is handed back");
    }
}
