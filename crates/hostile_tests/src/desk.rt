//! Defines `Desk`, which finds the texts that a row names, and prints the row's results.

use crate::endings::Ending;
use crate::records::lines_of;
use cif_file::FileFault;
use std::alloc::Global;
use std::fs;
use std::io::Write;

/// A row, and the runtime in which the row runs.
#[derive(Drop)]
pub(crate) struct Desk<'a> {
    rt: HostRuntime,
    row: &'a str,
}

impl<'a> Desk<'a> {
    /// The `Desk` for this row.
    pub(crate) fn of(rt: &HostRuntime, row: &'a str) -> Desk<'a> {
        Desk { rt: *rt, row }
    }

    /// The allocator.
    pub(crate) fn alloc(&self) -> Global {
        self.rt.alloc()
    }

    /// The words of the row.
    pub(crate) fn words(&self) -> Vec<&'a str> {
        match self.row.split(' ').collect(self.alloc()) {
            Ok(words) => words,
            Err(_) => Vec::new(self.alloc()),
        }
    }

    /// The text with this name: a file or a docker that is made in `records.rt`, or a file in the
    /// folder `data`.
    pub(crate) fn text(&self, name: &str) -> Vec<u8> {
        match self.found(name) {
            Some(text) => text,
            None => {
                self.trouble(name);
                Vec::new(self.alloc())
            }
        }
    }

    /// Like `text`, but returns `None` if there is no text with this name.
    fn found(&self, name: &str) -> Option<Vec<u8>> {
        match lines_of(name) {
            Some(lines) => lines.text(self.alloc()).ok(),
            None => fs::read(&self.rt, name).ok(),
        }
    }

    /// Prints bytes in one write.
    pub(crate) fn print(&self, bytes: &[u8]) {
        let _ = self.rt.stdout().write_all(bytes);
    }

    /// Prints the row in one write. Between this write and the next write, only the row's call
    /// allocates memory.
    pub(crate) fn begin(&self) {
        let row = self.row;
        match format!(in self.alloc(); "{row}\n") {
            Ok(line) => self.print(line.as_bytes()),
            Err(_) => self.trouble("want of memory"),
        }
    }

    /// Prints how the row's call ended. This function allocates no memory.
    pub(crate) fn end(&self, ending: Ending) {
        self.print(ending.line());
    }

    /// Prints a statement. If the statement doesn't hold, `not so: ` is printed before the
    /// statement.
    pub(crate) fn report(&self, holds: bool, what: &str) {
        let front = if holds { "" } else { "not so: " };
        let _ = println!(self.rt; "  {front}{what}");
    }

    /// Prints why the row can't be run.
    pub(crate) fn trouble(&self, what: &str) {
        let _ = println!(self.rt; "  trouble: {what}");
    }

    /// Prints why a file is refused, as `record N: CAUSE`.
    pub(crate) fn print_fault(&self, fault: FileFault) {
        let _ = println!(self.rt; "  {fault}");
    }

    /// Prints the record at which memory ran out.
    pub(crate) fn print_record(&self, number: u32) {
        let _ = println!(self.rt; "  out of memory at record {number}");
    }

    /// Prints a range of consecutive numbers that have the same answer: its first and last number,
    /// or its only number. The caller then prints the answer.
    pub(crate) fn print_span(&self, from: u64, to: u64) {
        if from == to {
            let _ = print!(self.rt; "  {from}: ");
        } else {
            let _ = print!(self.rt; "  {from} to {to}: ");
        }
    }

    /// Whether these bytes are the text with this name.
    pub(crate) fn is_text(&self, bytes: &[u8], name: &str) -> bool {
        self.text(name).as_slice() == bytes
    }

    /// Prints the name of a text, and whether these bytes are that text.
    pub(crate) fn compare(&self, bytes: &[u8], name: &str) {
        self.report(self.is_text(bytes, name), name);
    }
}
