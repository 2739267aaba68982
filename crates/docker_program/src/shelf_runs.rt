//! Runs commands on a shelf, a folder in memory. Contracts can say which texts a shelf's files
//! hold, so the contract of `perform` says exactly what is stored and printed.
ghost use Rattle.std.specs.Prelude.{◌≡◌, IfSome, length};
ghost use Rattle.docker_model.specs.file.Change.{changes};
ghost use Rattle.docker_model.specs.file.Text.{lines_of};
ghost use Rattle.docker_cmd.specs.CheckLine.{count_line};
ghost use Rattle.docker_program.specs.ShelfRuns.{IsTaken};

use crate::program::perform;
use cif_line::{Bytes, Kept};
use docker_host::{Host, Shelf};
use std::alloc::Global;

/// Adds an extract to a new shelf, runs `check` on the shelf, and returns what `check` printed: the
/// numbers of the extract's records and changes. Returns `None` if the status isn't 0, or if memory
/// ran out.
pub fn check_on_a_shelf(alloc: Global, extract: &[u8]) -> Option<Vec<u8>>
    ensures { IfSome result (λ printed. printed.items ≡ count_line
        (length (lines_of extract.now)) (length (changes (lines_of extract.now)))) }
{
    let mut folder = Shelf::new(alloc, 0);
    let Ok(()) = folder.put("FILE", extract) else {
        return None;
    };
    let Ok(output) = Kept::new(alloc, 100) else {
        return None;
    };
    let Ok(faults) = Kept::new(alloc, 0) else {
        return None;
    };
    let mut host = Host {
        input: Bytes::new(&[], 1),
        folder,
        output,
        faults,
    };
    if perform(alloc, &["check", "FILE"], &mut host) != 0 {
        return None;
    }
    host.folder.tell();
    Vec::from_slice(alloc, host.output.bytes()).ok()
}

/// Adds the text of a STATE file and an extract to a new shelf, runs `take` on the shelf, and
/// returns the shelf. The shelf's history records the text that was stored. A draft holds at most
/// `room` bytes. Returns `None` if the status isn't 0, or if memory ran out.
pub fn take_on_a_shelf(alloc: Global, state: &[u8], extract: &[u8], room: usize) -> Option<Shelf>
    ensures { IfSome result (λ shelf. IsTaken state.now extract.now shelf.events) }
{
    let mut folder = Shelf::new(alloc, room);
    let Ok(()) = folder.put("STATE", state) else {
        return None;
    };
    let Ok(()) = folder.put("FILE", extract) else {
        return None;
    };
    let (Ok(output), Ok(faults)) = (Kept::new(alloc, 0), Kept::new(alloc, 0)) else {
        return None;
    };
    let mut host = Host {
        input: Bytes::new(&[], 1),
        folder,
        output,
        faults,
    };
    if perform(alloc, &["take", "STATE", "FILE"], &mut host) != 0 {
        return None;
    }
    host.folder.tell();
    Some(host.folder)
}

#[cfg(test)]
mod tests {
    use super::{check_on_a_shelf, take_on_a_shelf};

    /// An update extract with one train from Ashfeld to Brayton.
    const EXTRACT: &str = "\
HDTPS.UDFROC1.PD2406090906242100DFROC1ADFROC1ZUA                                \n\
BSNC100012406102406141111100 POO1A10                                           P\n\
LOASHFELD 0900 09001  SL                                                        \n\
LTBRAYTON 0930 09301     TF                                                     \n\
ZZ                                                                              \n";

    /// The text of a STATE file of an office that knows no files.
    const STATE: &[u8] = b"DKS2\0\0\0\0\0\0\0\0\0\0\0\0\0\0\0\0\0\0";

    #[test]
    fn counts_of_an_extract(rt: HostRuntime) {
        let printed = check_on_a_shelf(rt.alloc(), EXTRACT.as_bytes()).expect(&rt, "status 0");
        let wanted: &[u8] = b"accepted: 5 records, 1 changes\n";
        assert!(rt; printed.as_slice() == wanted);
    }

    #[test]
    fn an_extract_that_is_cut_short(rt: HostRuntime) {
        let cut = &EXTRACT.as_bytes()[..324];
        assert!(rt; check_on_a_shelf(rt.alloc(), cut).is_none());
    }

    #[test]
    fn a_state_with_one_more_extract(rt: HostRuntime) {
        let taken = take_on_a_shelf(rt.alloc(), STATE, EXTRACT.as_bytes(), 1000);
        let shelf = taken.expect(&rt, "status 0");
        let stored = shelf.text("STATE").expect(&rt, "a text");
        let ledger: &[u8] = b"DKS2\0\0\0\0\0\0\0\0\0\x01";
        assert!(rt; stored.starts_with(ledger));
        assert!(rt; take_on_a_shelf(rt.alloc(), STATE, EXTRACT.as_bytes(), 30).is_none());
    }
}
