//! The calls in which an office reads a source.
ghost use Rattle.std.specs.Prelude.{◌<◌, ◌^◌, ◌-◌};

use crate::texts::MOST_RECORDS;
use cif_line::{Day, Source};
use docker_office::{Office, OfficeFault};

/// What an office does with a source.
#[derive(Clone, Copy, PartialEq, Eq)]
pub(crate) enum Call {
    /// The office takes a file.
    Take,
    /// The office receives a state.
    Receive,
    /// The office reloads a state.
    Reload,
    /// The office reloads a state and sets its horizon to 15 June 2024.
    ReloadUnder,
    /// The office reloads a state whose text is in the older format.
    Migrate,
}

/// The call with this name.
pub(crate) fn call_of(name: &str) -> Call {
    match name {
        "Office::take" => Call::Take,
        "Office::receive" => Call::Receive,
        "Office::reload" => Call::Reload,
        "Office::reload_under" => Call::ReloadUnder,
        _ => Call::Migrate,
    }
}

/// Lets an office make this call, with this limit on the number of records or bytes.
pub(crate) fn ask<S: Source>(
    call: Call,
    office: &mut Office,
    source: &mut S,
    limit: u64,
) -> Result<(), OfficeFault>
    requires { S.failures source.old < 2 ^ 64 - 1 }
{
    match call {
        Call::Take => office.take(source, records_of(limit)),
        Call::Receive => office.receive(source, limit),
        Call::Reload => office.reload(source, limit),
        Call::ReloadUnder => match Day::from_number(23_542) {
            Some(day) => office.reload_under(source, day, limit),
            None => Err(OfficeFault::Lapsed),
        },
        Call::Migrate => office.migrate(source, limit),
    }
}

/// The limit as a number of records. A limit above `MOST_RECORDS` becomes `MOST_RECORDS`.
fn records_of(limit: u64) -> u32
    ensures { result < 2 ^ 32 - 1 }
{
    match u32::try_from(limit) {
        Ok(records) => records.min(MOST_RECORDS),
        Err(_) => MOST_RECORDS,
    }
}
