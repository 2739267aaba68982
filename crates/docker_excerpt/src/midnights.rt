//! Whether a schedule passes midnight.
ghost use Rattle.std.specs.Prelude.{◌≡◌, nat_lt, All};
ghost use Rattle.docker_model.specs.records.Record.{HasKind, origin_location, intermediate_location, terminating_location};
ghost use Rattle.docker_model.specs.records.Field.{HasGoodFields};
ghost use Rattle.docker_model.specs.file.Journey.{midnights};
ghost use Rattle.docker_excerpt.specs.Midnights.{past, past_line};

use cif_line::{Kind, Line, Time, call, kind, origin, terminus};

/// Whether some time in these lines is below the time before it. The result has no meaning if a
/// line has a bad field.
pub(crate) fn passes_midnight(lines: &[Line]) -> bool
    ensures { All HasGoodFields lines.now → result ≡ nat_lt 0 (midnights lines.now) }
{
    let mut last = Some(0);
    let mut behind = lines;
    while let Some((line, rest)) = behind.split_first() {
        last = past_line(last, line);
        behind = rest;
    }
    last.is_none()
}

/// The last time after the times of one more line, in half minutes. Returns `None` once a time is
/// below the time before it.
fn past_line(last: Option<u16>, line: &Line) -> Option<u16>
    ensures { HasGoodFields line.now → result ≡ past_line last line.now }
{
    match kind(line) {
        Some(Kind::OriginLocation) => past_origin(last, line),
        Some(Kind::IntermediateLocation) => past_call(last, line),
        Some(Kind::TerminatingLocation) => past_terminus(last, line),
        _ => last,
    }
}

/// The last time after an origin, whose only time is its departure.
fn past_origin(last: Option<u16>, line: &Line) -> Option<u16>
    requires kind { HasKind origin_location line.now }
    ensures { HasGoodFields line.now → result ≡ past_line last line.now }
{
    match origin(line) {
        Ok(view) => past(last, Some(view.departure())),
        Err(_) => None,
    }
}

/// The last time after an intermediate location, which may have an arrival, a pass and a departure.
fn past_call(last: Option<u16>, line: &Line) -> Option<u16>
    requires kind { HasKind intermediate_location line.now }
    ensures { HasGoodFields line.now → result ≡ past_line last line.now }
{
    match call(line) {
        Ok(view) => {
            let arrived = past(last, view.arrival());
            let passed = past(arrived, view.pass());
            past(passed, view.departure())
        }
        Err(_) => None,
    }
}

/// The last time after a terminus, whose only time is its arrival.
fn past_terminus(last: Option<u16>, line: &Line) -> Option<u16>
    requires kind { HasKind terminating_location line.now }
    ensures { HasGoodFields line.now → result ≡ past_line last line.now }
{
    match terminus(line) {
        Ok(view) => past(last, Some(view.arrival())),
        Err(_) => None,
    }
}

/// The last time after one more time, if there is one.
fn past(last: Option<u16>, time: Option<Time>) -> Option<u16>
    ensures { result ≡ past last time }
{
    let Some(before) = last else {
        return None;
    };
    let Some(time) = time else {
        return Some(before);
    };
    if time.half_minutes() < before {
        return None;
    }
    Some(time.half_minutes())
}
