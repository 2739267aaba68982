//! Rows that make many calls. There is one table for each kind of row: truncated texts, limits,
//! endless sources, and failing devices.
ghost use Rattle.std.specs.Prelude.{◌<◌, length};

use crate::answers::Answer;
use crate::asking::{Call, ask, call_of};
use crate::desk::Desk;
use crate::devices;
use crate::spans::Spans;
use crate::texts::{MOST_BYTES, has_text, office_of};
use cif_line::{Bytes, Endless};
use docker_cmd::Fault;
use docker_office::{Office, OfficeFault};

/// The numbers of bytes per read that are tried besides 1.
const STEPS: [usize; 2] = [7, 4096];

/// A call that an office makes under a limit, and the states that the office has before and after
/// the call.
#[derive(Clone, Copy, Drop)]
pub(crate) struct Asked<'a> {
    /// The call to make.
    pub(crate) call: Call,
    /// The text of the office's state before the call.
    pub(crate) before: &'a [u8],
    /// The text of the office's state after the call, if the call succeeds.
    pub(crate) after: &'a [u8],
    /// The most records or bytes that the source may hold.
    pub(crate) limit: u64,
}

impl<'a> Asked<'a> {
    /// The answer for a call that had this result and left the office in this state.
    pub(crate) fn judge(
        &self,
        desk: &Desk,
        office: &Office,
        done: Result<(), OfficeFault>,
    ) -> Answer {
        match done {
            Ok(()) => {
                if has_text(desk, office.state(), self.after) {
                    Answer::Done
                } else {
                    Answer::Unlike
                }
            }
            Err(fault) => {
                if has_text(desk, office.state(), self.before) {
                    Answer::Refused(Fault::Office(fault))
                } else {
                    Answer::Changed
                }
            }
        }
    }

    /// The answer for a source that holds this text and returns at most `step` bytes per read.
    fn answer(&self, desk: &Desk, text: &[u8], step: usize) -> Answer
        requires { 0 < step }
    {
        let mut office = office_of(desk, self.before);
        let done = ask(
            self.call,
            &mut office,
            &mut Bytes::new(text, step),
            self.limit,
        );
        self.judge(desk, &office, done)
    }

    /// The answer for a source that holds this text. Returns `Uneven` if the answer depends on the
    /// number of bytes per read.
    pub(crate) fn answer_to(&self, desk: &Desk, text: &[u8]) -> Answer {
        let mut answer = self.answer(desk, text, 1);
        for step in STEPS {
            if self.answer(desk, text, step) != answer {
                answer = Answer::Uneven;
            }
        }
        answer
    }

    /// The answer for a source that returns `front` and then repeats `again` without end.
    fn answer_without_end(&self, desk: &Desk, front: &[u8], again: &[u8], step: usize) -> Answer
        requires step { 0 < step }
        requires again { 0 < length again.now }
    {
        let mut office = office_of(desk, self.before);
        let mut source = Endless::new(front, again, step);
        let done = ask(self.call, &mut office, &mut source, self.limit);
        self.judge(desk, &office, done)
    }

    /// Like `answer_to`, for a source without end.
    fn answer_to_endless(&self, desk: &Desk, front: &[u8], again: &[u8]) -> Answer
        requires { 0 < length again.now }
    {
        let mut answer = self.answer_without_end(desk, front, again, 1);
        for step in STEPS {
            if self.answer_without_end(desk, front, again, step) != answer {
                answer = Answer::Uneven;
            }
        }
        answer
    }
}

/// Runs a row of this table.
pub(crate) fn do_row(desk: &Desk, table: &str, words: &[&str]) {
    match table {
        "cut" => cut(desk, words),
        "limit" => limit(desk, words),
        "endless" => endless(desk, words),
        "source" => devices::source(desk, words),
        "print" => devices::print(desk, words),
        "send" => devices::send(desk, words),
        "files" => devices::files(desk, words),
        "line" => devices::line(desk, words),
        _ => desk.trouble("no such table"),
    }
}

/// Runs a row with the arguments `CALL STATE TEXT STATE`. The call reads each prefix of the text.
fn cut(desk: &Desk, words: &[&str]) {
    let [call, own, name, wanted] = words else {
        return desk.trouble("CALL STATE TEXT STATE");
    };
    let (before, after, text) = (desk.text(own), desk.text(wanted), desk.text(name));
    let asked = Asked {
        call: call_of(call),
        before: before.as_slice(),
        after: after.as_slice(),
        limit: MOST_BYTES,
    };
    desk.begin();
    cut_all(desk, asked, text.as_slice());
}

/// Prints the answer for each prefix of a text.
fn cut_all(desk: &Desk, asked: Asked<'_>, text: &[u8]) {
    let mut spans = Spans::new();
    for n in 0..=text.len() {
        spans.add(desk, n as u64, asked.answer_to(desk, &text[..n]));
    }
    spans.report(desk);
}

/// The limit that is written as this word, or 0 if the word isn't a number.
fn limit_of(word: &str) -> u64 {
    word.parse::<u64>().unwrap_or(0)
}

/// Runs a row with the arguments `CALL STATE TEXT LIMIT`. The call reads the text under the limit,
/// and must refuse the text.
fn limit(desk: &Desk, words: &[&str]) {
    let [call, own, name, limit] = words else {
        return desk.trouble("CALL STATE TEXT LIMIT");
    };
    let (before, text) = (desk.text(own), desk.text(name));
    let asked = Asked {
        call: call_of(call),
        before: before.as_slice(),
        after: b"",
        limit: limit_of(limit),
    };
    desk.begin();
    desk.print(b"  ");
    asked.answer_to(desk, text.as_slice()).report(desk);
}

/// Runs a row with the arguments `CALL STATE FRONT AGAIN LIMIT`. Under the limit, the call reads a
/// source that returns the first text and then repeats the second text without end.
fn endless(desk: &Desk, words: &[&str]) {
    let [call, own, front, again, limit] = words else {
        return desk.trouble("CALL STATE FRONT AGAIN LIMIT");
    };
    let (before, front, again) = (desk.text(own), desk.text(front), desk.text(again));
    let asked = Asked {
        call: call_of(call),
        before: before.as_slice(),
        after: b"",
        limit: limit_of(limit),
    };
    desk.begin();
    desk.print(b"  ");
    endless_texts(desk, asked, front.as_slice(), again.as_slice());
}

/// Prints the answer for a source without end.
fn endless_texts(desk: &Desk, asked: Asked<'_>, front: &[u8], again: &[u8]) {
    if again.is_empty() {
        return desk.trouble("nothing comes again");
    }
    asked.answer_to_endless(desk, front, again).report(desk);
}
