//! Prints what an office with this state knows. Each line has a name in columns 1 to 12 and a value
//! from column 14 on.
ghost use Rattle.std.specs.Prelude.{◌≡◌, ◌<◌, IfSome, option_map};
ghost use Rattle.docker_model.specs.records.Date.{IsDay};
ghost use Rattle.docker_join.specs.Meaning.{file_stamp_meant};
ghost use Rattle.docker_model.specs.lists.KnownText.{IsKnownText, count_line, full_line, horizon_line, horizon_text, last_day_line};
ghost use Rattle.state_lists.specs.Tallies.{known_lines};

use crate::tally::{Tally, tally_of};
use arrayvec::ArrayVec;
use cif_line::Day;
use docker_day::clock_text;
use docker_join::FileStamp;
use docker_state::State;
use fixed_text::put;
use itoa::Buffer;

/// The text that lists what an office with this state knows. Its capacity is enough for all lines,
/// whatever the counts.
pub type KnownText = ArrayVec<u8, 187>;

/// The text that lists what an office with this state knows. It has a line for the horizon, and one
/// line each for the numbers of live schedules, associations and timing points. If there is a full
/// extract, the newest one has a line. If a live schedule has a last day, there is a line for the
/// latest of these last days. The call counts all entries, and allocates nothing.
pub fn known_text(state: &State) -> KnownText
    ensures { IsKnownText state.now result.items }
{
    let tally = tally_of(state.entries());
    lines_of(state.horizon(), state.floor(), &tally)
}

/// The text of all lines. `full` is the newest full extract.
fn lines_of(horizon: u16, full: Option<FileStamp>, tally: &Tally) -> KnownText
    requires day { IsDay horizon }
    requires minute { IfSome full (λ stamp. stamp.minute < 1440) }
    ensures { result.items ≡ known_lines horizon (option_map file_stamp_meant full) tally.now }
{
    let mut text = ArrayVec::new();
    put(&mut text, horizon_line(horizon).as_slice());
    put(&mut text, full_line(full).as_slice());
    put(&mut text, last_line(tally.last).as_slice());
    put(
        &mut text,
        count_line(b"SCHEDULES   ", tally.schedules).as_slice(),
    );
    put(
        &mut text,
        count_line(b"ASSOCIATIONS", tally.associations).as_slice(),
    );
    put(
        &mut text,
        count_line(b"PLACES      ", tally.places).as_slice(),
    );
    text
}

/// The line of the horizon, with a line feed.
#[tactic(auto, unfolding(docker_model::specs::lists::KnownText::horizon_line))]
fn horizon_line(horizon: u16) -> ArrayVec<u8, 24>
    requires { IsDay horizon }
    ensures { result.items ≡ horizon_line horizon }
{
    let mut text = ArrayVec::new();
    put(&mut text, b"HORIZON      ");
    put(&mut text, horizon_text(horizon).as_slice());
    put(&mut text, b"\n");
    text
}

/// A horizon as a date, or `NONE` for 0, which means that no horizon was set.
fn horizon_text(horizon: u16) -> ArrayVec<u8, 10>
    requires { IsDay horizon }
    ensures { result.items ≡ horizon_text horizon }
{
    let mut text = ArrayVec::new();
    if horizon == 0 {
        put(&mut text, b"NONE");
        return text;
    }
    put(&mut text, &day_of(horizon).iso());
    text
}

/// The day with this number.
fn day_of(number: u16) -> Day
    requires { IsDay number }
    ensures { result ≡ number }
{
    match Day::from_number(number) {
        Some(day) => day,
        None => unreachable!(),
    }
}

/// The line of the newest full extract, with a line feed: date, time and reference. There is no
/// line if there is no full extract.
#[tactic(auto, unfolding(docker_model::specs::lists::KnownText::full_line))]
fn full_line(full: Option<FileStamp>) -> ArrayVec<u8, 37>
    requires { IfSome full (λ stamp. stamp.minute < 1440) }
    ensures { result.items ≡ full_line (option_map file_stamp_meant full) }
{
    let mut text = ArrayVec::new();
    if let Some(stamp) = full {
        put(&mut text, b"FULL         ");
        put(&mut text, &stamp.day.iso());
        put(&mut text, b" ");
        put(&mut text, &clock_text(stamp.minute));
        put(&mut text, b" ");
        put(&mut text, &stamp.reference);
        put(&mut text, b"\n");
    }
    text
}

/// The line for the latest day on which a schedule ends, with a line feed. There is no line if no
/// schedule has a last day.
#[tactic(auto, unfolding(docker_model::specs::lists::KnownText::last_day_line))]
fn last_line(last: Option<Day>) -> ArrayVec<u8, 24>
    ensures { result.items ≡ last_day_line last }
{
    let mut text = ArrayVec::new();
    if let Some(day) = last {
        put(&mut text, b"LAST         ");
        put(&mut text, &day.iso());
        put(&mut text, b"\n");
    }
    text
}

/// The line of a count, with a line feed.
#[tactic(auto, unfolding(docker_model::specs::lists::KnownText::count_line))]
fn count_line(name: &[u8; 12], count: usize) -> ArrayVec<u8, 34>
    ensures { result.items ≡ count_line name.now count }
{
    let mut text = ArrayVec::new();
    put(&mut text, name);
    put(&mut text, b" ");
    put(&mut text, Buffer::new().format(count).as_bytes());
    put(&mut text, b"\n");
    text
}
