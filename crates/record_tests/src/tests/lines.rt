use super::compare::{prints, same};
use cif_line::{Line, LineFault};
use std::process::Abort;

fn fault_is(rt: &impl Abort, bytes: &[u8], wanted: LineFault) {
    same(rt, Line::new(bytes).err(), Some(wanted));
}

#[test]
fn lengths(rt: HostRuntime) {
    let line = Line::new(&[b'A'; 80]).expect(&rt, "a line");
    same(&rt, line.bytes(), &[b'A'; 80]);
    fault_is(&rt, &[b'A'; 79], LineFault::Length);
    fault_is(&rt, &[b'A'; 81], LineFault::Length);
    fault_is(&rt, &[b'\t'; 81], LineFault::Length);
    fault_is(&rt, b"", LineFault::Length);
}

#[test]
fn bytes_that_are_not_printable(rt: HostRuntime) {
    let mut bytes = [b' '; 80];
    bytes[79] = 0x7F;
    fault_is(&rt, &bytes, LineFault::Byte(80));
    bytes[19] = b'\t';
    fault_is(&rt, &bytes, LineFault::Byte(20));
    bytes[0] = 0xC3;
    fault_is(&rt, &bytes, LineFault::Byte(1));
}

#[test]
fn faults_in_words(rt: HostRuntime) {
    prints(&rt, rt.alloc(), LineFault::Length, "Length");
    prints(&rt, rt.alloc(), LineFault::Byte(20), "Byte 20");
}

// Asserts that a line may have this byte in each of the 80 columns. If `printable` is false,
// asserts instead that the byte is refused in each column.
fn byte_is(rt: &impl Abort, byte: u8, printable: bool) {
    for column in 0..80usize {
        let mut bytes = [b'A'; 80];
        bytes[column] = byte;
        let wanted = if printable {
            None
        } else {
            Some(LineFault::Byte(column as u8 + 1))
        };
        same(rt, Line::new(&bytes).err(), wanted);
    }
}

#[test]
fn lines_by_blocks(rt: HostRuntime) {
    byte_is(&rt, 0x00, false);
    byte_is(&rt, 0x1F, false);
    byte_is(&rt, 0x20, true);
    byte_is(&rt, 0x7E, true);
    byte_is(&rt, 0x7F, false);
    byte_is(&rt, 0x80, false);
    byte_is(&rt, 0xFF, false);
}
