//! Opens a file, has an office read it, and closes it.
ghost use Rattle.std.specs.Prelude.{◌≡◌, ◌-◌, ◌^◌, ◌<◌, IfOk, Some};
ghost use Rattle.docker_cmd.specs.FaultLine.{IsCounted, result_status};
ghost use Rattle.docker_desk.specs.Desk.{EndsComparing, EndsReceiving, EndsReloading, EndsTaking, IsUnknownUnless};
ghost use Rattle.docker_desk.specs.Reading.{OpensOnce, StopsInFile, StopsInState, reading};

use crate::compared::Compared;
use crate::copying::{Begun, Copying};
use crate::matching::compared_with;
use cif_file::MOST_RECORDS;
use cif_line::Source;
use docker_cmd::{MOST_BYTES, Office, OfficeFault};
use docker_host::Folder;
use std::alloc::Global;
use std::marker::Brand;

/// Opens the named file once, and has the office take the file.
pub(crate) fn take_file<D: Folder>(
    office: &mut Office,
    name: &str,
    folder: &mut D,
) -> Result<(), OfficeFault>
    requires { D.failures folder.old < 2 ^ 64 - 1 }
    ensures opens { OpensOnce name.now StopsInFile (EndsTaking office.old office.new result)
        (D.history folder.old) (D.history folder.new) }
    ensures counted { IsCounted (result_status result)
        (D.failures folder.old) (D.failures folder.new) }
{
    let mut file = match folder.open(name) {
        Ok(file) => file,
        Err(cause) => return Err(cause.one_of(OfficeFault::Source, OfficeFault::Memory)),
    };
    let taken = office.take(&mut file, MOST_RECORDS);
    folder.close(file);
    taken
}

/// Opens the named file once, and has the office receive the state in it.
pub(crate) fn receive_state<D: Folder>(
    office: &mut Office,
    name: &str,
    folder: &mut D,
) -> Result<(), OfficeFault>
    requires { D.failures folder.old < 2 ^ 64 - 1 }
    ensures opens { OpensOnce name.now StopsInState (EndsReceiving office.old office.new result)
        (D.history folder.old) (D.history folder.new) }
    ensures counted { IsCounted (result_status result)
        (D.failures folder.old) (D.failures folder.new) }
{
    let mut file = match folder.open(name) {
        Ok(file) => file,
        Err(cause) => return Err(cause.one_of(OfficeFault::Source, OfficeFault::Memory)),
    };
    let received = office.receive(&mut file, MOST_BYTES);
    folder.close(file);
    received
}

/// Opens the named file once, and has the office receive the state in it. Also returns whether the
/// file held the text of the office's new state. The texts are compared only if `compares` is set
/// and there is memory for a copy of the file's text.
pub(crate) fn renew_state<D: Folder>(
    alloc: Global,
    office: &mut Office,
    name: &str,
    compares: bool,
    folder: &mut D,
) -> Result<Compared, OfficeFault>
    requires { D.failures folder.old < 2 ^ 64 - 1 }
    ensures opens { OpensOnce name.now StopsInState (EndsComparing office.old office.new result)
        (D.history folder.old) (D.history folder.new) }
    ensures compared { IfOk result (λ found. IsUnknownUnless compares found) }
    ensures counted { IsCounted (result_status result)
        (D.failures folder.old) (D.failures folder.new) }
{
    if !compares {
        return match receive_state(office, name, folder) {
            Ok(()) => Ok(Compared::Unknown),
            Err(fault) => Err(fault),
        };
    }
    match folder.open(name) {
        Ok(file) => {
            let (file, found) = receive_copied::<Brand, D::File>(alloc, office, file);
            folder.close(file);
            found
        }
        Err(cause) => Err(cause.one_of(OfficeFault::Source, OfficeFault::Memory)),
    }
}

/// Has the office receive the state in a source, and returns the source. Also returns whether the
/// source held the text of the office's new state.
fn receive_copied<B: Begun, S: Source>(
    alloc: Global,
    office: &mut Office,
    source: S,
) -> (S, Result<Compared, OfficeFault>)
    requires few { S.failures source < 2 ^ 64 - 1 }
    requires begun { S.left source ≡ B.bytes }
    ensures stops { StopsInState (reading (S.left source) (S.left result.0)) }
    ensures ends { EndsComparing office.old office.new result.1
        (Some (reading (S.left source) (S.left result.0))) }
    ensures counted { IsCounted (result_status result.1)
        (S.failures source) (S.failures result.0) }
{
    let mut copying: Copying<B, S> = Copying::new(alloc, source);
    let received = office.receive(&mut copying, MOST_BYTES);
    let (source, copy) = copying.into_parts();
    match received {
        Err(fault) => (source, Err(fault)),
        Ok(()) => {
            let found = compared_with(&copy, office);
            (source, Ok(found))
        }
    }
}

/// Opens the named file once, and has the office reload the state in it.
pub(crate) fn reload_state<D: Folder>(
    office: &mut Office,
    name: &str,
    folder: &mut D,
) -> Result<(), OfficeFault>
    requires { D.failures folder.old < 2 ^ 64 - 1 }
    ensures opens { OpensOnce name.now StopsInState (EndsReloading office.new result)
        (D.history folder.old) (D.history folder.new) }
    ensures counted { IsCounted (result_status result)
        (D.failures folder.old) (D.failures folder.new) }
{
    let mut file = match folder.open(name) {
        Ok(file) => file,
        Err(cause) => return Err(cause.one_of(OfficeFault::Source, OfficeFault::Memory)),
    };
    let read = office.reload(&mut file, MOST_BYTES);
    folder.close(file);
    read
}
