//! Prints equal answers for consecutive numbers in one line, as a span of numbers with their
//! answer.

use crate::answers::Answer;
use crate::desk::Desk;

/// The current span: its first and its last number, and the answer for all its numbers. The answer
/// is `None` until the first number is added.
#[derive(Drop)]
pub(crate) struct Spans {
    from: u64,
    to: u64,
    answer: Option<Answer>,
}

impl Spans {
    /// An empty span, to which no number has been added.
    pub(crate) fn new() -> Spans {
        Spans {
            from: 0,
            to: 0,
            answer: None,
        }
    }

    /// Adds the answer for the next number. If the answer differs from the span's answer, the span
    /// is printed and another span begins.
    pub(crate) fn add(&mut self, desk: &Desk, number: u64, answer: Answer) {
        if self.answer != Some(answer) {
            self.report(desk);
            self.from = number;
        }
        self.to = number;
        self.answer = Some(answer);
    }

    /// Prints the current span: its numbers and its answer. Prints nothing if no number was added.
    pub(crate) fn report(&self, desk: &Desk) {
        if let Some(answer) = self.answer {
            desk.print_span(self.from, self.to);
            answer.report(desk);
        }
    }
}
