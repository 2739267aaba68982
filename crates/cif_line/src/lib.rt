//! The lines of a CIF extract, the fields in their columns, and views of their records, as
//! described in the CIF End User Specification. The crate re-exports `cif_device`, the devices from
//! which bytes are read and to which they are written.
#![tactic(auto)]

mod association;
mod basic_schedule;
mod calendar;
mod call_fields;
mod change_en_route;
mod check;
mod date;
mod day;
mod days;
mod digits;
mod field;
mod header_record;
mod identity;
mod intermediate_location;
mod kind_of_record;
mod letter;
mod line;
mod origin_location;
mod printable;
mod read;
mod terminating_location;
mod time;
mod time_field;
mod tiploc_code;
mod tiploc_record;
mod uid;
mod until;

pub use association::Assoc;
pub use basic_schedule::Basic;
pub use change_en_route::ChangeEnRoute;
pub use check::FieldFault;
pub use cif_device::{
    Bytes, Endless, Failed, FeedFault, Fuse, Kept, Memory, PIECE, Sink, Source, Taker, feed_all,
    write_all,
};
pub use day::Day;
pub use days::Days;
pub use header_record::Header;
pub use identity::kind;
pub use intermediate_location::Call;
pub use kind_of_record::Kind;
pub use letter::{Extract, Stp, Transaction};
pub use line::{Line, LineFault, is_printable};
pub use origin_location::Origin;
pub use read::{assoc, basic, call, change, header, origin, terminus, tiploc};
pub use terminating_location::Terminus;
pub use time::{Time, clock, is_clock, is_public_time};
pub use tiploc_code::Tiploc;
pub use tiploc_record::TiplocRecord;
pub use uid::Uid;
pub use until::{NO_END, Until};
