//! Calls that allocate memory while an office reads or prints.

use crate::asking::{ask, call_of};
use crate::desk::Desk;
use crate::endings::ending_of;
use crate::texts::{MOST_BYTES, compare_state, has_text, occasion_of, office_of, sink, source_of};
use cif_line::{Day, Sink, Tiploc};
use docker_office::{LedgerOffice, Office, OfficeFault, PlaceOffice};
use state_text::format::Format;

/// Runs a row with the arguments `STATE TEXT STATE`. An office with the first state reads the text,
/// and must then have the last state.
pub(crate) fn read(desk: &Desk, call: &str, words: &[&str]) {
    let [own, name, wanted] = words else {
        return desk.trouble("STATE TEXT STATE");
    };
    let call = call_of(call);
    let (before, text) = (desk.text(own), desk.text(name));
    let mut office = office_of(desk, before.as_slice());
    desk.begin();
    let done = ask(
        call,
        &mut office,
        &mut source_of(text.as_slice()),
        MOST_BYTES,
    );
    desk.end(ending_of(&done));
    if done.is_err() {
        report_same(desk, &office, before.as_slice());
        let again = ask(
            call,
            &mut office,
            &mut source_of(text.as_slice()),
            MOST_BYTES,
        );
        if again.is_err() {
            desk.trouble("refused again");
        }
    }
    compare_state(desk, office.state(), wanted);
}

/// Prints whether the state of an office still has the text `before`.
fn report_same(desk: &Desk, office: &Office, before: &[u8]) {
    let same = has_text(desk, office.state(), before);
    desk.report(same, "the office is as it was");
}

/// Runs a row with the arguments `STATE TIPLOC DATE DOCKER`. An office with the state prints the
/// docker.
pub(crate) fn print(desk: &Desk, words: &[&str]) {
    let [own, place, day, wanted] = words else {
        return desk.trouble("STATE TIPLOC DATE DOCKER");
    };
    let before = desk.text(own);
    let office = office_of(desk, before.as_slice());
    if !has_printed(desk, &office, [place, day, wanted], true) {
        report_same(desk, &office, before.as_slice());
        desk.report(true, "nothing is written");
        if !has_printed(desk, &office, [place, day, wanted], false) {
            desk.trouble("refused again");
        }
    }
}

/// Lets an office print a docker, and prints whether it is the expected docker. If `is_first` is
/// true, this is the row's call, and the call's ending is printed first. Returns false if the call
/// is refused and nothing is written.
fn has_printed(desk: &Desk, office: &Office, words: [&str; 3], is_first: bool) -> bool {
    let [place, day, wanted] = words;
    let Some((place, day)) = occasion_of(desk, place, day) else {
        return true;
    };
    let Some(mut kept) = sink(desk) else {
        return true;
    };
    if is_first {
        desk.begin();
    }
    let done = office.print(&place, day, &mut kept);
    if is_first {
        desk.end(ending_of(&done));
    }
    if done.is_err() && kept.bytes().is_empty() && kept.failures() == 0 {
        return false;
    }
    desk.report(done.is_ok() && desk.is_text(kept.bytes(), wanted), wanted);
    true
}

/// An office that has read the state with this text.
fn with_state(desk: &Desk, text: &[u8]) -> Result<Office, OfficeFault> {
    let source = &mut source_of(text);
    Office::read(desk.alloc(), Format::Dks2, source, MOST_BYTES)
}

/// Runs a row with the argument `STATE`. An office reads the state.
pub(crate) fn read_whole(desk: &Desk, words: &[&str]) {
    let [name] = words else {
        return desk.trouble("STATE");
    };
    let text = desk.text(name);
    desk.begin();
    let read = with_state(desk, text.as_slice());
    desk.end(ending_of(&read));
    match read {
        Ok(office) => compare_state(desk, office.state(), name),
        Err(_) => match with_state(desk, text.as_slice()) {
            Ok(office) => compare_state(desk, office.state(), name),
            Err(_) => desk.trouble("refused again"),
        },
    }
}

/// An office for the docker of a timing point and a day. The office has read the state with this
/// text.
fn at_place(desk: &Desk, text: &[u8], place: Tiploc, day: Day) -> Result<PlaceOffice, OfficeFault> {
    PlaceOffice::read(desk.alloc(), place, day, &mut source_of(text), MOST_BYTES)
}

/// Prints whether an office for one timing point prints this docker.
fn compare_docker(desk: &Desk, office: &PlaceOffice, wanted: &str) {
    if let Some(mut kept) = sink(desk) {
        let done = office.print(&mut kept).is_ok();
        desk.report(done && desk.is_text(kept.bytes(), wanted), wanted);
    }
}

/// Runs a row with the arguments `STATE TIPLOC DATE DOCKER`. An office for the timing point and the
/// day reads the state, and then prints the docker.
pub(crate) fn read_at_place(desk: &Desk, words: &[&str]) {
    let [name, place, day, wanted] = words else {
        return desk.trouble("STATE TIPLOC DATE DOCKER");
    };
    let text = desk.text(name);
    let Some((place, day)) = occasion_of(desk, place, day) else {
        return;
    };
    desk.begin();
    let read = at_place(desk, text.as_slice(), place, day);
    desk.end(ending_of(&read));
    match read {
        Ok(office) => compare_docker(desk, &office, wanted),
        Err(_) => match at_place(desk, text.as_slice(), place, day) {
            Ok(office) => compare_docker(desk, &office, wanted),
            Err(_) => desk.trouble("refused again"),
        },
    }
}

/// Runs a row with the arguments `STATE TIPLOC DATE DOCKER`. An office for the timing point and the
/// day has read the state, and prints the docker.
pub(crate) fn print_at_place(desk: &Desk, words: &[&str]) {
    let [name, place, day, wanted] = words else {
        return desk.trouble("STATE TIPLOC DATE DOCKER");
    };
    let text = desk.text(name);
    let Some((place, day)) = occasion_of(desk, place, day) else {
        return;
    };
    match at_place(desk, text.as_slice(), place, day) {
        Ok(office) => print_there(desk, &office, wanted),
        Err(_) => desk.trouble("an office's state is refused"),
    }
}

/// Lets an office for one timing point print its docker. If nothing was written, the office prints
/// a second time.
fn print_there(desk: &Desk, office: &PlaceOffice, wanted: &str) {
    let Some(mut kept) = sink(desk) else {
        return;
    };
    desk.begin();
    let done = office.print(&mut kept);
    desk.end(ending_of(&done));
    if done.is_err() && kept.bytes().is_empty() && kept.failures() == 0 {
        desk.report(true, "nothing is written");
        return compare_docker(desk, office, wanted);
    }
    desk.report(done.is_ok() && desk.is_text(kept.bytes(), wanted), wanted);
}

/// An office that has read only the ledger of the state with this text.
fn with_ledger(desk: &Desk, text: &[u8]) -> Result<LedgerOffice, OfficeFault> {
    LedgerOffice::read(desk.alloc(), &mut source_of(text), MOST_BYTES)
}

/// Prints whether an office that has only a ledger lists these files.
fn compare_files(desk: &Desk, office: &LedgerOffice, wanted: &str) {
    if let Some(mut kept) = sink(desk) {
        let done = office.files(&mut kept).is_ok();
        desk.report(done && desk.is_text(kept.bytes(), wanted), wanted);
    }
}

/// Runs a row with the arguments `STATE FILES`. An office reads the ledger of the state, and then
/// lists the files.
pub(crate) fn read_ledger(desk: &Desk, words: &[&str]) {
    let [name, wanted] = words else {
        return desk.trouble("STATE FILES");
    };
    let text = desk.text(name);
    desk.begin();
    let read = with_ledger(desk, text.as_slice());
    desk.end(ending_of(&read));
    match read {
        Ok(office) => compare_files(desk, &office, wanted),
        Err(_) => match with_ledger(desk, text.as_slice()) {
            Ok(office) => compare_files(desk, &office, wanted),
            Err(_) => desk.trouble("refused again"),
        },
    }
}
