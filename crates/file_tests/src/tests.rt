ghost use Rattle.std.specs.Prelude.{◌<◌};

use self::compare::{prints, same, same_in};
use cif_file::{
    Act, Body, Change, CifFile, FileCause, FileFault, FileParser, FileReadFault, Journey, Key,
    Lines, ScheduleKey, judge_file, read_pieces,
};
use cif_line::{Bytes, Day, Extract, Line, Stp, Tiploc, Uid};
use std::alloc::Global;
use std::process::Abort;
use test_records::files::{AMENDED, DELETED_AT_NO_TIME, MORNING, NIGHT, OPEN, PLACE, RENAMED};
use test_records::{
    AA_DIVIDE, BODY_OF_TA, BODY_OF_TI, BS, BS_CANCELLED, BS_DELETED, BS_NIGHT, BS_NO_DAY,
    BS_OVERLAY, CR_5E51, HD, HD_X, LI_0000, LI_0005, LI_0010, LN, LO, LO_0915, LO_2355, LO_2400,
    LT, LT_0020, TI_BLANK, TI_TAB, ZZ, text,
};

mod compare;
mod counts;
mod sources;
mod thin;

/// A line of 79 characters.
const SHORT: &[u8] =
    b"TIASHFELD         ASHFIELD CENTRAL                                             ";

/// A terminus at 00:01.
const LT_0001: &[u8] =
    b"LTBRAYTON 0001     2  FL                                                        ";

/// A terminus at 00:06.
const LT_0006: &[u8] =
    b"LTBRAYTON 0006     2  FL                                                        ";

/// A file with a schedule, its overlay and its cancellation.
const OVERLAID: &[&[u8]] = &[HD, BS, LO, LT, BS_OVERLAY, LO_0915, LT, BS_CANCELLED, ZZ];

/// A file in which an association stands between two schedules.
const LINKED: &[&[u8]] = &[
    HD, BS, LO, LT, AA_DIVIDE, BS_NIGHT, LO_2355, CR_5E51, LI_0010, LT_0020, ZZ,
];

/// The fault with this cause at this record.
fn at(number: u32, cause: FileCause) -> FileFault {
    FileFault { number, cause }
}

/// The key of C10001's schedule in `MORNING`.
fn schedule(rt: &impl Abort) -> Key {
    Key::Schedule(ScheduleKey {
        uid: Uid::from_field(b"C10001").expect(rt, "a UID"),
        runs_from: Day::from_number(23537).expect(rt, "a day"),
        stp: Stp::Permanent,
    })
}

/// The line with this text.
fn line(rt: &impl Abort, text: &[u8]) -> Line {
    Line::new(text).expect(rt, "a line")
}

/// Asserts that a file is `MORNING`.
fn check_morning(rt: &impl Abort, file: CifFile) {
    check_header(rt, &file);
    same(rt, file.records(), 5);
    same(rt, file.changes().len(), 1);
    let only = file.changes().first().expect(rt, "one change");
    same(rt, only.number, 2);
    same(rt, only.key, schedule(rt));
    check_lines(rt, &only.act);
    same(rt, file.into_changes().len(), 1);
}

/// Asserts that a file has the header of `MORNING`.
fn check_header(rt: &impl Abort, file: &CifFile) {
    let header = file.header();
    same(rt, header.day().number(), 23536);
    same(rt, header.minute(), 1260);
    same(rt, *header.reference(), *b"DFROC1A");
    same(rt, *header.last_reference(), *b"DFROC1Z");
    same(rt, header.extract(), Extract::Update);
}

/// The lines of the schedule that an act puts. Returns `None` for a deletion, or for a body that
/// isn't a schedule.
fn lines_of(act: &Act) -> Option<&Lines> {
    match act {
        Act::Put(Body::Schedule(lines)) => Some(lines),
        _ => None,
    }
}

/// Asserts that an act puts the three lines of the schedule in `MORNING`.
fn check_lines(rt: &impl Abort, act: &Act) {
    let lines = lines_of(act).expect(rt, "a schedule");
    same(rt, lines.len(), 3);
    same(rt, lines.is_empty(), false);
    let wanted = [line(rt, BS), line(rt, LO), line(rt, LT)];
    same(rt, lines.as_slice(), wanted.as_slice());
}

/// Reads a text in pieces of `step` bytes. Returns the text's fault, or `None` if it has none.
fn fault_by(alloc: Global, text: &[u8], step: usize) -> Option<FileFault>
    requires { 0 < step }
{
    let mut parser = FileParser::new(alloc, 1000);
    for piece in text.chunks(step) {
        if let Err(fault) = parser.feed(piece) {
            return Some(fault);
        }
    }
    parser.finish().err()
}

/// Checks a text from a source with `judge_file`. Returns why the text is refused, or `None` if it
/// is accepted.
fn judged_fault(alloc: Global, text: &[u8]) -> Option<FileReadFault> {
    let mut source = Bytes::new(text, 7);
    judge_file(alloc, &mut source, 1000).err()
}

/// Converts the fault of a text to the form in which `judge_file` returns it.
fn read_fault(fault: Option<FileFault>) -> Option<FileReadFault> {
    match fault {
        Some(fault) => Some(FileReadFault::File(fault)),
        None => None,
    }
}

/// Asserts that a text has this fault, or no fault. The text is read whole, in pieces of several
/// lengths, and by `judge_file`. After a fault, a parser must return the same fault at every call.
fn check_fault(rt: &impl Abort, alloc: Global, text: &[u8], wanted: Option<FileFault>, name: &str) {
    let whole = read_pieces(alloc, &[text], 1000).err();
    same_in(rt, name, whole, wanted);
    same_in(rt, name, fault_by(alloc, text, 1), wanted);
    same_in(rt, name, fault_by(alloc, text, 7), wanted);
    same_in(rt, name, fault_by(alloc, text, 4096), wanted);
    same_in(rt, name, judged_fault(alloc, text), read_fault(wanted));
    let mut parser = FileParser::new(alloc, 1000);
    if let Err(fault) = parser.feed(text) {
        same_in(rt, name, Some(fault), wanted);
        check_again(rt, &mut parser, fault, name);
    }
    same_in(rt, name, parser.finish().err(), wanted);
}

/// Asserts that a parser returns this fault again, whatever it is fed.
fn check_again(rt: &impl Abort, parser: &mut FileParser, fault: FileFault, name: &str) {
    same_in(rt, name, parser.feed(b""), Err(fault));
    same_in(rt, name, parser.feed(HD), Err(fault));
    same_in(rt, name, parser.feed(b"\n"), Err(fault));
}

/// Reads the file with these records. Returns its changes.
fn changes(rt: &impl Abort, alloc: Global, records: &[&[u8]]) -> Vec<Change> {
    let text = text(alloc, records, b"\n").expect(rt, "room");
    let file = read_pieces(alloc, &[text.as_slice()], 1000).expect(rt, "a file");
    same(rt, file.records() as usize, records.len());
    file.into_changes()
}

/// Asserts that a text of these records is refused with this fault.
fn is_refused(
    rt: &impl Abort,
    alloc: Global,
    records: &[&[u8]],
    number: u32,
    cause: FileCause,
    name: &str,
) {
    let text = text(alloc, records, b"\n").expect(rt, "room");
    let fault = at(number, cause);
    check_fault(rt, alloc, text.as_slice(), Some(fault), name);
}

/// The records of a text that is refused, the number of the record at fault, the cause, and a name
/// for the row.
type Refused = (&'static [&'static [u8]], u32, FileCause, &'static str);

const REFUSED: &[Refused] = &[
    (&[], 1, FileCause::NoEnd, "empty"),
    (&[BS], 1, FileCause::Place, "BS first"),
    (&[HD_X], 1, FileCause::Field(47), "indicator X"),
    (&[HD, SHORT], 2, FileCause::Length, "79 characters"),
    (&[HD, TI_TAB], 2, FileCause::Byte(20), "a tab"),
    (&[HD, LN], 2, FileCause::Kind, "LN"),
    (&[HD, ZZ, LI_0000], 3, FileCause::After, "LI after ZZ"),
    (&[HD, BS, LT], 3, FileCause::Place, "LT after BS"),
    (&[HD, BS, ZZ], 3, FileCause::Place, "ZZ after BS"),
    (&[HD, BS, LO_2400], 3, FileCause::Field(11), "2400"),
    (&[HD, BS], 3, FileCause::NoEnd, "an end after BS"),
    (&[HD, BS, LO, LT], 5, FileCause::NoEnd, "no ZZ"),
    (&[HD, BS_NO_DAY], 2, FileCause::Field(10), "29 February"),
    (
        &[HD, BS_NIGHT, LO_2355, LI_0010, LI_0005, LT_0001, ZZ],
        6,
        FileCause::Midnights,
        "three midnights",
    ),
];

/// Asserts that `MORNING`, with its five records, is refused if the limit is three records.
fn check_limit(rt: &impl Abort, alloc: Global) {
    let text = text(alloc, MORNING, b"\n").expect(rt, "room");
    let fault = read_pieces(alloc, &[text.as_slice()], 3).err();
    same(rt, fault, Some(at(4, FileCause::TooMany)));
}

#[test]
fn refused_texts(rt: HostRuntime) {
    for (records, number, cause, name) in REFUSED {
        is_refused(&rt, rt.alloc(), records, *number, *cause, name);
    }
    check_limit(&rt, rt.alloc());
}

/// Asserts that the file with these records makes these changes.
fn changes_are(rt: &impl Abort, alloc: Global, records: &[&[u8]], wanted: &[Change]) {
    let changes = changes(rt, alloc, records);
    same(rt, changes.as_slice(), wanted);
}

/// Asserts that the changes of the file with these records have these record numbers, in this
/// order.
fn changes_stand_at(rt: &impl Abort, alloc: Global, records: &[&[u8]], numbers: &[u32]) {
    let changes = changes(rt, alloc, records);
    same(rt, changes.len(), numbers.len());
    for (change, number) in changes.iter().zip(numbers) {
        same(rt, change.number, *number);
    }
}

/// A change that deletes this key. The second record of a file makes this change.
fn deletion(key: &Key) -> Change {
    Change {
        number: 2,
        key: *key,
        act: Act::Delete,
    }
}

/// A change that puts this body under the key of a timing point. The second record of a file makes
/// this change.
fn put(key: &Key, body: [u8; 63]) -> Change {
    Change {
        number: 2,
        key: *key,
        act: Act::Put(Body::Tiploc(body)),
    }
}

/// The records of a text that is accepted, and the numbers of the records that make changes.
type Accepted = (&'static [&'static [u8]], &'static [u32]);

const ACCEPTED: &[Accepted] = &[
    (NIGHT, &[2]),
    (
        &[HD, BS_NIGHT, LO_2355, LI_0010, LI_0005, LT_0006, ZZ],
        &[2],
    ),
    (OVERLAID, &[2, 5, 8]),
    (LINKED, &[2, 5, 6]),
];

#[test]
fn accepted_texts(rt: HostRuntime) {
    let deleted = [deletion(&schedule(&rt))];
    changes_are(&rt, rt.alloc(), DELETED_AT_NO_TIME, &deleted);
    for (records, numbers) in ACCEPTED {
        changes_stand_at(&rt, rt.alloc(), records, numbers);
    }
}

/// Asserts that a text is read as `MORNING`.
fn check_morning_text(rt: &impl Abort, alloc: Global, text: &[u8]) {
    let file = read_pieces(alloc, &[text], 5).expect(rt, "a file");
    check_morning(rt, file);
}

/// Asserts that the records of `MORNING`, each with this line end, are read as `MORNING`.
fn check_morning_ends(rt: &impl Abort, alloc: Global, end: &[u8]) {
    let whole = text(alloc, MORNING, end).expect(rt, "room");
    check_morning_text(rt, alloc, whole.as_slice());
}

/// Asserts that `MORNING` is accepted without a line feed after its last record.
fn check_morning_open(rt: &impl Abort, alloc: Global) {
    let mut whole = text(alloc, MORNING, b"\n").expect(rt, "room");
    whole.pop();
    check_morning_text(rt, alloc, whole.as_slice());
}

/// Asserts that `MORNING` is accepted in pieces of one byte.
fn check_morning_bytes(rt: &impl Abort, alloc: Global) {
    let whole = text(alloc, MORNING, b"\n").expect(rt, "room");
    let mut parser = FileParser::new(alloc, 4_294_967_294);
    for byte in &whole {
        parser.feed(&[*byte]).expect(rt, "a good byte");
    }
    let file = parser.finish().expect(rt, "a file");
    check_morning(rt, file);
}

#[test]
fn four_texts_of_one_file(rt: HostRuntime) {
    check_morning_ends(&rt, rt.alloc(), b"\n");
    check_morning_bytes(&rt, rt.alloc());
    check_morning_ends(&rt, rt.alloc(), b"\r\n");
    check_morning_open(&rt, rt.alloc());
}

/// The key of a timing point.
fn tiploc(rt: &impl Abort, code: &str) -> Key {
    Key::Tiploc(Tiploc::from_text(code).expect(rt, "a TIPLOC"))
}

#[test]
fn renames(rt: HostRuntime) {
    let alloc = rt.alloc();
    let old = tiploc(&rt, "ASHFELD");
    let new = tiploc(&rt, "ASHFLDN");
    changes_are(&rt, alloc, PLACE, &[put(&old, BODY_OF_TI)]);
    let renamed = [deletion(&old), put(&new, BODY_OF_TA)];
    changes_are(&rt, alloc, RENAMED, &renamed);
    changes_are(&rt, alloc, AMENDED, &[put(&old, BODY_OF_TI)]);
}

/// The fault of the first `length` bytes of `MORNING`. Each line has `width` bytes, including its
/// line end.
fn cut_fault(length: u32, width: u32) -> Option<FileFault>
    requires { 80 < width }
{
    let whole = length / width;
    let rest = length % width;
    if 0 < rest && rest < 80 {
        return Some(at(whole.saturating_add(1), FileCause::Length));
    }
    let records = if rest == 0 {
        whole
    } else {
        whole.saturating_add(1)
    };
    if records == 5 {
        return None;
    }
    Some(at(records.saturating_add(1), FileCause::NoEnd))
}

/// Asserts that each proper prefix of `MORNING` has the fault that `cut_fault` returns. Each line
/// has `width` bytes, including its line end.
fn check_cuts(rt: &impl Abort, alloc: Global, end: &[u8], width: u32)
    requires { 80 < width }
{
    let whole = text(alloc, MORNING, end).expect(rt, "room");
    let mut cut = Vec::new(alloc);
    let mut length: u32 = 0;
    for byte in &whole {
        let fault = cut_fault(length, width);
        check_fault(rt, alloc, cut.as_slice(), fault, "a cut text");
        cut.push(*byte).expect(rt, "room");
        length = length.saturating_add(1);
    }
    same(rt, length, width.saturating_mul(5));
    check_fault(rt, alloc, cut.as_slice(), None, "a whole text");
}

#[test]
fn cut_texts(rt: HostRuntime) {
    check_cuts(&rt, rt.alloc(), b"\n", 81);
    check_cuts(&rt, rt.alloc(), b"\r\n", 82);
}

/// Feeds an endless text to a parser with a limit of a thousand records. Asserts that the parser
/// accepts a thousand records and refuses the next one.
fn check_records_without_end(rt: &impl Abort, alloc: Global) {
    let mut parser = FileParser::new(alloc, 1000);
    let mut again = Ok(());
    same(rt, parser.feed(HD), Ok(()));
    same(rt, parser.feed(b"\n"), Ok(()));
    for number in 2..2000 {
        let _ = parser.feed(TI_BLANK);
        again = parser.feed(b"\n");
        same(rt, (number, again.is_ok()), (number, number <= 1000));
    }
    let fault = at(1001, FileCause::TooMany);
    same(rt, again, Err(fault));
    same(rt, parser.finish().err(), Some(fault));
}

/// The fault of the first `length` bytes of a line that never ends.
fn long_fault(length: u32) -> Option<FileFault> {
    if length <= 81 {
        None
    } else {
        Some(at(1, FileCause::Length))
    }
}

#[test]
fn texts_without_end(rt: HostRuntime) {
    check_records_without_end(&rt, rt.alloc());
    let mut parser = FileParser::new(rt.alloc(), 1000);
    for length in 1..200 {
        let fault = parser.feed(b"H").err();
        same(&rt, (length, fault), (length, long_fault(length)));
    }
}

#[test]
fn a_journey(rt: HostRuntime) {
    let mut journey = Journey::new();
    let basic = line(&rt, BS);
    let origin = line(&rt, LO);
    let terminus = line(&rt, LT);
    same(&rt, journey.complete(), false);
    same(&rt, journey.line(&basic), Ok(()));
    same(&rt, journey.complete(), false);
    same(&rt, journey.line(&terminus), Err(FileCause::Place));
    same(&rt, journey.complete(), false);
    same(&rt, journey.line(&origin), Ok(()));
    same(&rt, journey.complete(), false);
    same(&rt, journey.line(&terminus), Ok(()));
    same(&rt, journey.complete(), true);
}

/// The fault that a parser must return from this call on. `fed` is the fault of this call, if it
/// failed. If an earlier call returned the fault `wanting` because memory ran out, the result is
/// `wanting`. Otherwise, if `fed` is a fault, the result says that memory ran out at the record
/// with this number.
fn memory_fault_from(
    fed: Option<FileFault>,
    wanting: Option<FileFault>,
    number: u32,
) -> Option<FileFault> {
    match (wanting, fed) {
        (None, Some(_)) => Some(at(number, FileCause::Memory)),
        _ => wanting,
    }
}

/// Ends the input. Returns the file, or `None` if memory ran out. If `wanting` is a fault, asserts
/// that the parser returns it again. Otherwise, asserts that a fault, if there is one, says that
/// memory ran out at the record with this number.
fn file_at_end(
    rt: &impl Abort,
    parser: FileParser,
    wanting: Option<FileFault>,
    number: u32,
) -> Option<CifFile> {
    match parser.finish() {
        Ok(file) => {
            same_in(rt, "a file", wanting, None);
            Some(file)
        }
        Err(fault) => {
            let wanted = wanting.unwrap_or(at(number, FileCause::Memory));
            same_in(rt, "the end", fault, wanted);
            None
        }
    }
}

/// Feeds a parser these records one by one, with line feeds between them. Returns the file, or
/// `None` if memory runs out. If memory runs out, asserts that the parser returns a fault at the
/// line feed after the record that needed the memory. If the last record needed it, the fault must
/// be returned at the end of the input. Each later call must return the same fault.
fn file_or_out_of_memory(
    rt: &impl Abort,
    alloc: Global,
    front: &[&[u8]],
    last: &[u8],
) -> Option<CifFile> {
    let mut parser = FileParser::new(alloc, 1000);
    let mut wanting = None;
    let mut number: u32 = 1;
    for record in front {
        let fault = parser.feed(record).err();
        same(rt, (number, fault), (number, wanting));
        let fed = parser.feed(b"\n").err();
        wanting = memory_fault_from(fed, wanting, number);
        same(rt, (number, fed), (number, wanting));
        number = number.saturating_add(1);
    }
    let fault = parser.feed(last).err();
    same(rt, (number, fault), (number, wanting));
    file_at_end(rt, parser, wanting, number)
}

#[test]
fn out_of_memory(rt: HostRuntime) {
    if let Some(file) = file_or_out_of_memory(&rt, rt.alloc(), OPEN, ZZ) {
        check_morning(&rt, file);
    }
    if let Some(file) = file_or_out_of_memory(&rt, rt.alloc(), &[HD, BS_DELETED], ZZ) {
        same(&rt, file.changes().len(), 1);
    }
}

/// Asserts how a fault with this cause at record 7 is printed.
fn cause_prints(rt: &impl Abort, alloc: Global, cause: FileCause, wanted: &str) {
    prints(rt, alloc, at(7, cause), wanted);
}

#[test]
fn printed_faults(rt: HostRuntime) {
    let alloc = rt.alloc();
    cause_prints(&rt, alloc, FileCause::Length, "record 7: Length");
    cause_prints(&rt, alloc, FileCause::Byte(12), "record 7: Byte 12");
    cause_prints(&rt, alloc, FileCause::Kind, "record 7: Kind");
    cause_prints(&rt, alloc, FileCause::Place, "record 7: Place");
    cause_prints(&rt, alloc, FileCause::Field(23), "record 7: Field 23");
    cause_prints(&rt, alloc, FileCause::Midnights, "record 7: Midnights");
    cause_prints(&rt, alloc, FileCause::NoEnd, "record 7: NoEnd");
    cause_prints(&rt, alloc, FileCause::After, "record 7: After");
    cause_prints(&rt, alloc, FileCause::TooMany, "record 7: TooMany");
    cause_prints(&rt, alloc, FileCause::Memory, "record 7: Memory");
}
