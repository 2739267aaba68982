//! The files of the examples, and commands on a shelf, a folder in memory.
ghost use Rattle.std.specs.Prelude.{◌≡◌, IfOk, OnOk, Some, true, codes};
ghost use Rattle.docker_cmd.specs.Words.{texts};
ghost use Rattle.docker_host.specs.Shelf.{IsShelfHistory, text_under};
ghost use Rattle.docker_program.specs.Program.{Performs};
ghost use Rattle.offices_agree.specs.TwoOffices.{HaveNotFailed};

use cif_line::{Bytes, Kept};
use docker_host::{Host, Shelf};
use docker_program::perform;
use std::alloc::Global;

/// A full extract of 8 June 2024. Two trains run from Monday to Friday. 1A10 leaves ASHFELD at 09:00
/// from platform 1, and 2B20 arrives at ASHFELD at 08:50.
const FULL: &str = "\
HDTPS.UDFROC1.PD2406080806242100DFROC1A       FA                                \n\
TIASHFELD         ASHFELD JUNCTION                                              \n\
BSNC100012406102406141111100 POO1A10                                           P\n\
LOASHFELD 0900 09001  SL                                                        \n\
LTBRAYTON 0930 09322  FL                                                        \n\
BSNC200022406102406141111100 POO2B20                                           P\n\
LOBRAYTON 0820 08201  UL                                                        \n\
LTASHFELD 0850 08502  UL                                                        \n\
ZZ                                                                              \n";

/// An update of 9 June 2024. 1A10 now leaves ASHFELD at 09:05 from platform 3.
const UPDATE: &str = "\
HDTPS.UDFROC1.PD2406090906242100DFROC1BDFROC1AUA                                \n\
BSRC100012406102406141111100 POO1A10                                           P\n\
LOASHFELD 0905 09053  SL                                                        \n\
LTBRAYTON 0935 09372  FL                                                        \n\
ZZ                                                                              \n";

/// The most bytes that a STATE file may have on the shelf.
const ROOM: usize = 2000;

/// The most bytes that an office may print.
pub(crate) const SCREEN: usize = 400;

/// The exit status if memory runs out.
pub(crate) const MEMORY: u8 = 3;

/// Returns a shelf with the two files.
pub(crate) fn shelf_of_files(alloc: Global) -> Result<Shelf, u8>
    ensures full { IfOk result (λ folder.
        text_under folder.events (codes "full.cif") ≡ Some FULL.now) }
    ensures update { IfOk result (λ folder.
        text_under folder.events (codes "update.cif") ≡ Some UPDATE.now) }
    ensures sound { IfOk result (λ folder. folder.failures ≡ 0) }
{
    let mut folder = Shelf::new(alloc, ROOM);
    let Ok(()) = folder.put("full.cif", FULL.as_bytes()) else {
        return Err(MEMORY);
    };
    let Ok(()) = folder.put("update.cif", UPDATE.as_bytes()) else {
        return Err(MEMORY);
    };
    Ok(folder)
}

/// Runs the program with these words. Returns the exit status as an error if it isn't 0.
pub(crate) fn enter(
    alloc: Global,
    words: &[&str],
    host: &mut Host<Bytes<'_>, Shelf, Kept, Kept>,
) -> Result<(), u8>
    requires sound { HaveNotFailed host.old }
    ensures performs { OnOk result (Performs (texts words.now) true host.old host.new 0) }
    ensures met { IsShelfHistory host.new.history }
    ensures sound { OnOk result (HaveNotFailed host.new) }
{
    let status = perform(alloc, words, host);
    host.folder.tell();
    if status != 0 {
        return Err(status);
    }
    Ok(())
}
