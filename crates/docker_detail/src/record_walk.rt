//! A walk over the records of a schedule, which finds the record of an event by its number.
ghost use Rattle.std.specs.Prelude.{◌≡◌, ℕ, ◌≤◌, ◌<◌, ◌^◌, None, All, length};
ghost use Rattle.std.specs.Option.{option_copied};
ghost use Rattle.docker_model.specs.records.Field.{HasGoodFields};
ghost use Rattle.docker_model.specs.docker.Event.{has_identity};
ghost use Rattle.docker_detail.specs.Meaning.{CanWalk, place_ahead, place_here};
ghost use Rattle.docker_detail.specs.Records.{change_after, first_of, place_from};

use cif_line::Line;
use train_choice::event_count;

/// A walk over the records of a schedule. It stands before one of the records, and keeps how many
/// events it has passed, and the last change en route among the records that it has passed.
#[derive(Debug, Drop)]
pub(crate) struct RecordWalk<'a> {
    rest: &'a [Line],
    passed: u64,
    change: Option<&'a Line>,
}

impl<'a> RecordWalk<'a> {
    /// A walk that stands before the first of these records.
    pub(crate) fn over(lines: &'a [Line]) -> RecordWalk<'a>
        requires good { All HasGoodFields lines.now }
        requires few { length lines.now < 2 ^ 32 }
        ensures ahead { (number : ℕ)
            → place_ahead result number ≡ place_from 0 None lines.entry.now number }
        ensures can { CanWalk result }
    {
        RecordWalk {
            rest: lines,
            passed: 0,
            change: None,
        }
    }

    /// Walks on to the record of the event with this number. The walk can then still find this
    /// event and each later one. It can't find an earlier event.
    pub(crate) fn walk_to(&mut self, number: u64)
        requires can { CanWalk self.old }
        ensures here { place_here self.new ≡ place_ahead self.old number }
        ensures ahead { (later : ℕ) → number ≤ later
            → place_ahead self.new later ≡ place_ahead self.old later }
        ensures can { CanWalk self.new }
    {
        while let Some((line, rest)) = self.rest.split_first() {
            let passed = self.passed + event_count(line);
            if number <= passed {
                return;
            }
            self.change = change_after(line, self.change);
            self.passed = passed;
            self.rest = rest;
        }
    }

    /// The record that the walk stands before.
    pub(crate) fn location(&self) -> Option<&'a Line>
        ensures { option_copied result ≡ first_of self.now.rest.now }
    {
        self.rest.first()
    }

    /// The change en route that is in force at this record.
    pub(crate) fn change(&self) -> Option<&'a Line>
        ensures { result ≡ self.now.change }
    {
        self.change
    }
}

/// The change en route that is in force after a record.
fn change_after<'a>(line: &'a Line, change: Option<&'a Line>) -> Option<&'a Line>
    ensures { option_copied result ≡ change_after line.entry.now (option_copied change.entry) }
{
    if has_identity(line, b"CR") {
        Some(line)
    } else {
        change
    }
}

/// Whether the record has this record identity.
pub(crate) fn has_identity(line: &Line, identity: &[u8; 2]) -> bool
    ensures { result ≡ has_identity identity.now line.now }
{
    line.bytes()[0..2] == identity[..]
}
