//! Writes the list of a state's files: for each file a line of 33 columns and a line feed.
ghost use Rattle.std.specs.Prelude.{◌≡◌, ◌-◌, ◌^◌, ◌<◌, map, All, IsErr, OnOk, OnErr};
ghost use Rattle.cif_device.specs.Device.{CountsFailure, Takes, TakesPart};
ghost use Rattle.docker_model.specs.docker.DockerText.{ended, file_text, files_text};
ghost use Rattle.docker_model.specs.state.State.{IsGoodItem};
ghost use Rattle.docker_state.specs.Meaning.{item_meant};

use arrayvec::ArrayVec;
use cif_line::{Failed, Sink, write_all};
use docker_day::{LedgerItem, clock_text};
use fixed_text::{put, whole};

/// The number of bytes of a line: 33 columns and a line feed.
const WIDTH: usize = 34;

/// Writes a line for each ledger item, in order.
pub(crate) fn write_files<K: Sink>(items: &[LedgerItem], sink: &mut K) -> Result<(), Failed>
    requires failures { K.failures sink.old < 2 ^ 64 - 1 }
    requires good { All IsGoodItem (map item_meant items.now) }
    ensures whole { OnOk result (Takes (K.taken sink.old) (files_text (map item_meant items.now))
        (K.taken sink.new)) }
    ensures part { OnErr result (TakesPart (K.taken sink.old)
        (files_text (map item_meant items.now)) (K.taken sink.new)) }
    ensures failures { CountsFailure (IsErr result) (K.failures sink.old) (K.failures sink.new) }
{
    for item in items {
        write_all(sink, &line_of(item))?;
    }
    Ok(())
}

/// Returns the line of a ledger item, with a line feed: the day, the minute, the reference, the
/// update indicator and the last reference.
fn line_of(item: &LedgerItem) -> [u8; WIDTH]
    requires { item.now.minute < 1440 }
    ensures { result ≡ ended (file_text (item_meant item.now)) }
{
    let mut text = ArrayVec::new();
    put(&mut text, &item.day.iso());
    put(&mut text, b" ");
    put(&mut text, &clock_text(item.minute));
    put(&mut text, b" ");
    put(&mut text, &item.reference);
    put(&mut text, b" ");
    put(&mut text, &[item.indicator.letter(), b' ']);
    put(&mut text, &item.last_reference);
    put(&mut text, b"\n");
    whole(text)
}
