//! Readers of records. A reader returns a view of the line if the line's checked fields are good.
//! Otherwise the reader returns the first column of the leftmost bad field.
ghost use Rattle.std.specs.Prelude.{◌≡◌, ◌↔◌, IsOk, IfOk, IfErr, IsSome, IfSome, Some, None};
ghost use Rattle.docker_model.specs.records.Clock.{half_minutes};
ghost use Rattle.docker_model.specs.records.Record.{HasKind, columns, header, association, basic_schedule, origin_location};
ghost use Rattle.docker_model.specs.records.Record.{intermediate_location, terminating_location, change_en_route};
ghost use Rattle.docker_model.specs.records.Field.{leftmost_bad_field};
ghost use Rattle.cif_line.specs.CallRead.{AreTimesOf};
ghost use Rattle.cif_line.specs.RecordRead.{ReadsAs};
ghost use Rattle.cif_line.specs.View.{IsTiplocRecord, bad_field_of};

use crate::association::Assoc;
use crate::basic_schedule::Basic;
use crate::call_fields::CallFields;
use crate::change_en_route::ChangeEnRoute;
use crate::check::{
    FieldFault, is_new_tiploc, is_stp_indicator, is_tiploc, is_transaction, is_update_indicator,
};
use crate::date::{is_date, is_date_day_first};
use crate::days::is_days;
use crate::header_record::Header;
use crate::identity::is_amendment;
use crate::intermediate_location::{Call, CallTimes};
use crate::line::Line;
use crate::origin_location::Origin;
use crate::terminating_location::Terminus;
use crate::time::{Time, is_clock, is_public_time};
use crate::time_field::TimeField;
use crate::tiploc_record::TiplocRecord;
use crate::until::is_end_date;

/// Reads a header (HD). The fault is the first column of the leftmost bad field: 23 for the date of
/// extract, 29 for the time of extract, 47 for the update indicator.
pub fn header(line: &Line) -> Result<Header<'_>, FieldFault>
    requires kind { HasKind header line.now }
    ensures { ReadsAs line.now result }
{
    match header_fault(line) {
        Some(column) => Err(FieldFault(column)),
        None => Ok(Header::of(line)),
    }
}

/// The first column of the leftmost bad field in a header. Returns `None` if all checked fields are
/// good.
fn header_fault(line: &Line) -> Option<u8>
    requires kind { HasKind header line.now }
    ensures { result ≡ leftmost_bad_field line.now }
{
    if !is_date_day_first(line.field(23)) {
        return Some(23);
    }
    if !is_clock(line.field(29)) {
        return Some(29);
    }
    if !is_update_indicator(line.field(47)) {
        return Some(47);
    }
    None
}

/// Reads a TIPLOC insert (TI), amendment (TA) or deletion (TD). The fault is the first column of
/// the leftmost bad field: 3 for the code, or 73 for an amendment's new code, which may be blank.
#[tactic(auto, using(crate::proofs::GoodFields::tiploc_views))]
pub fn tiploc(line: &Line) -> Result<TiplocRecord<'_>, FieldFault>
    requires kind { IsTiplocRecord line.now }
    ensures { ReadsAs line.now result }
{
    match tiploc_fault(line) {
        Some(column) => Err(FieldFault(column)),
        None => Ok(TiplocRecord::of(line)),
    }
}

/// The first column of the leftmost bad field in a TIPLOC record. Returns `None` if all checked
/// fields are good.
fn tiploc_fault(line: &Line) -> Option<u8>
    requires kind { IsTiplocRecord line.now }
    ensures { result ≡ leftmost_bad_field line.now }
{
    if !is_tiploc(line.field(3)) {
        return Some(3);
    }
    if is_amendment(line) && !is_new_tiploc(line.field(73)) {
        return Some(73);
    }
    None
}

/// Reads an association (AA). The fault is the first column of the leftmost bad field: 3 for the
/// transaction, 16 for the first date, 38 for the TIPLOC, 80 for the STP indicator. Unless the
/// record is a deletion, the fault may also be 22 for the end date or 28 for the weekdays.
pub fn assoc(line: &Line) -> Result<Assoc<'_>, FieldFault>
    requires kind { HasKind association line.now }
    ensures { ReadsAs line.now result }
{
    match assoc_fault(line) {
        Some(column) => Err(FieldFault(column)),
        None => Ok(Assoc::of(line)),
    }
}

/// The first column of the leftmost bad field in an association. Returns `None` if all checked
/// fields are good. In a deletion neither the end date nor the days-run field is checked.
fn assoc_fault(line: &Line) -> Option<u8>
    requires kind { HasKind association line.now }
    ensures { result ≡ leftmost_bad_field line.now }
{
    if !is_transaction(line.field(3)) {
        return Some(3);
    }
    if !is_date(line.field(16)) {
        return Some(16);
    }
    if !line.is_deletion() {
        if !is_end_date(line.field(22)) {
            return Some(22);
        }
        if !is_days(line.field(28)) {
            return Some(28);
        }
    }
    if !is_tiploc(line.field(38)) {
        return Some(38);
    }
    if !is_stp_indicator(line.field(80)) {
        return Some(80);
    }
    None
}

/// Reads a basic schedule (BS). The fault is the first column of the leftmost bad field: 3 for the
/// transaction, 10 for the runs-from date, 80 for the STP indicator. Unless the record is a
/// deletion, the fault may also be 16 for the runs-to date or 22 for the weekdays.
pub fn basic(line: &Line) -> Result<Basic<'_>, FieldFault>
    requires kind { HasKind basic_schedule line.now }
    ensures { ReadsAs line.now result }
{
    match basic_fault(line) {
        Some(column) => Err(FieldFault(column)),
        None => Ok(Basic::of(line)),
    }
}

/// The first column of the leftmost bad field in a basic schedule. Returns `None` if all checked
/// fields are good. In a deletion neither the runs-to date nor the days-run field is checked.
fn basic_fault(line: &Line) -> Option<u8>
    requires kind { HasKind basic_schedule line.now }
    ensures { result ≡ leftmost_bad_field line.now }
{
    if !is_transaction(line.field(3)) {
        return Some(3);
    }
    if !is_date(line.field(10)) {
        return Some(10);
    }
    if !line.is_deletion() {
        if !is_end_date(line.field(16)) {
            return Some(16);
        }
        if !is_days(line.field(22)) {
            return Some(22);
        }
    }
    if !is_stp_indicator(line.field(80)) {
        return Some(80);
    }
    None
}

/// Reads an origin (LO). The fault is the first column of the leftmost bad field: 3 for the TIPLOC,
/// 11 for the departure, 16 for the public departure. Only the public departure may be blank.
pub fn origin(line: &Line) -> Result<Origin<'_>, FieldFault>
    requires kind { HasKind origin_location line.now }
    ensures { ReadsAs line.now result }
{
    match end_time(line) {
        Err(column) => Err(FieldFault(column)),
        Ok(departure) => Ok(Origin::of(line, departure)),
    }
}

/// Reads a terminus (LT). The fault is the first column of the leftmost bad field: 3 for the
/// TIPLOC, 11 for the arrival, 16 for the public arrival. Only the public arrival may be blank.
pub fn terminus(line: &Line) -> Result<Terminus<'_>, FieldFault>
    requires kind { HasKind terminating_location line.now }
    ensures { ReadsAs line.now result }
{
    match end_time(line) {
        Err(column) => Err(FieldFault(column)),
        Ok(arrival) => Ok(Terminus::of(line, arrival)),
    }
}

/// The scheduled time of an origin or a terminus. The error is the first column of the leftmost bad
/// field. Both kinds of record have their checked fields in the same columns.
fn end_time(line: &Line) -> Result<Time, u8>
    ensures origin { IfOk result (λ time. bad_field_of origin_location line.now ≡ None) }
    ensures terminus { IfOk result (λ time. bad_field_of terminating_location line.now ≡ None) }
    ensures time { IfOk result (λ time. time ≡ half_minutes (columns 11 15 line.now)) }
    ensures bad_origin { IfErr result (λ column.
        bad_field_of origin_location line.now ≡ Some column) }
    ensures bad_terminus { IfErr result (λ column.
        bad_field_of terminating_location line.now ≡ Some column) }
{
    match good_end_time(line) {
        Some(time) => Ok(time),
        None => Err(end_fault(line)),
    }
}

/// The scheduled time of an origin or a terminus. Returns `None` if a checked field is bad. All
/// fields are tested together, without a branch for each field.
fn good_end_time(line: &Line) -> Option<Time>
    ensures origin { IsSome result ↔ (bad_field_of origin_location line.now ≡ None) }
    ensures terminus { IsSome result ↔ (bad_field_of terminating_location line.now ≡ None) }
    ensures time { IfSome result (λ time. time ≡ half_minutes (columns 11 15 line.now)) }
{
    let time = TimeField::read(line.field(11));
    if is_tiploc(line.field(3)) & time.is_time & is_public_time(line.field(16)) {
        time.time()
    } else {
        None
    }
}

/// The first column of the leftmost bad field in an origin or a terminus. The line must have a bad
/// field.
#[cold]
fn end_fault(line: &Line) -> u8
    requires bad { ¬ (bad_field_of origin_location line.now ≡ None) }
    ensures origin { bad_field_of origin_location line.now ≡ Some result }
    ensures terminus { bad_field_of terminating_location line.now ≡ Some result }
{
    if !is_tiploc(line.field(3)) {
        return 3;
    }
    if Time::from_field(line.field(11)).is_none() {
        return 11;
    }
    16
}

/// Reads an intermediate location (LI). The fault is the first column of the leftmost bad field: 3
/// for the TIPLOC, 11 for the arrival, 16 for the departure, 21 for the pass. It may also be 26 for
/// the public arrival or 30 for the public departure. Any of these times may be blank.
pub fn call(line: &Line) -> Result<Call<'_>, FieldFault>
    requires kind { HasKind intermediate_location line.now }
    ensures { ReadsAs line.now result }
{
    match good_call_times(line) {
        Some(times) => Ok(Call::of(line, times)),
        None => Err(FieldFault(call_fault(line))),
    }
}

/// The scheduled times of an intermediate location. Returns `None` if a checked field is bad. All
/// fields are tested together, without a branch for each field.
fn good_call_times(line: &Line) -> Option<CallTimes>
    ensures some { IsSome result ↔ (bad_field_of intermediate_location line.now ≡ None) }
    ensures times { IfSome result (AreTimesOf line.now) }
{
    let fields = CallFields::read(line.bytes());
    let are_good = is_tiploc(line.field(3)) & fields.are_good;
    if !are_good {
        return None;
    }
    Some(CallTimes {
        arrival: fields.arrival,
        departure: fields.departure,
        pass: fields.pass,
    })
}

/// The first column of the leftmost bad field in an intermediate location. The line must have a bad
/// field.
#[cold]
fn call_fault(line: &Line) -> u8
    requires bad { ¬ (bad_field_of intermediate_location line.now ≡ None) }
    ensures { bad_field_of intermediate_location line.now ≡ Some result }
{
    if !is_tiploc(line.field(3)) {
        return 3;
    }
    if Time::scheduled(line.field(11)).is_none() {
        return 11;
    }
    if Time::scheduled(line.field(16)).is_none() {
        return 16;
    }
    if Time::scheduled(line.field(21)).is_none() {
        return 21;
    }
    if !is_public_time(line.field(26)) {
        return 26;
    }
    30
}

/// Reads a change en route (CR). A CR record has no checked field, so reading never fails.
pub fn change(line: &Line) -> Result<ChangeEnRoute<'_>, FieldFault>
    requires kind { HasKind change_en_route line.now }
    ensures always { IsOk result }
    ensures read { ReadsAs line.now result }
{
    Ok(ChangeEnRoute::of(line))
}
