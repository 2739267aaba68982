//! A desk on the state of one office, and commands of another office. Both print the same docker.
ghost use Rattle.std.specs.Prelude.{◌≡◌, ◌++◌, OnOk, IfOk, codes, slice_index};
ghost use Rattle.offices_agree.specs.TwoOffices.{HaveNotFailed};
ghost use Rattle.offices_agree.specs.DeskAndOffice.{AreDone, LearnApart, ServesNorth, ShowsSouth};

use crate::commands::{MEMORY, SCREEN, enter, shelf_of_files};
use cif_line::{Bytes, Kept};
use docker_desk::laws::an_input_has_one_reading;
use docker_desk::serve;
use docker_host::{Host, SessionHost, Shelf, Streams};
use std::alloc::Global;

/// What the desk and the other office printed.
#[derive(Drop)]
pub struct Printed {
    /// The answers of the desk on the state of `north`.
    pub desk: Kept,
    /// What `south` printed.
    pub south: Kept,
}

/// What a session of the desk left.
#[derive(Drop)]
struct Served {
    folder: Shelf,
    answers: Kept,
}

/// What the two offices do before the desk starts. Each takes a file, and `south` takes its file
/// twice.
fn take_apart(alloc: Global, host: &mut Host<Bytes<'_>, Shelf, Kept, Kept>) -> Result<(), u8>
    requires sound { HaveNotFailed host.old }
    ensures learn { OnOk result (LearnApart host.old host.new) }
    ensures sound { OnOk result (HaveNotFailed host.new) }
{
    enter(alloc, &["new", "north"], host)?;
    enter(alloc, &["new", "south"], host)?;
    enter(alloc, &["take", "north", "full.cif"], host)?;
    enter(alloc, &["take", "south", "update.cif"], host)?;
    enter(alloc, &["take", "south", "update.cif"], host)?;
    Ok(())
}

/// Returns the status with which the answer at this place begins.
fn status_at(answers: &[u8], place: usize) -> u8
    ensures { result ≡ 0 → slice_index answers.now place ≡ 48 }
{
    match answers.get(place) {
        Some(b'0') => 0,
        Some(b'1') => 1,
        Some(b'2') => 2,
        Some(b'4') => 4,
        _ => MEMORY,
    }
}

/// Returns an error if a request was refused: the status of the answer to the first such request. An
/// answer that has status 0 and no text has six bytes.
fn all_done(answers: &[u8]) -> Result<(), u8>
    ensures { OnOk result (AreDone answers.now) }
{
    let merged = status_at(answers, 0);
    if merged != 0 {
        return Err(merged);
    }
    let saved = status_at(answers, 6);
    if saved != 0 {
        return Err(saved);
    }
    let printed = status_at(answers, 12);
    if printed != 0 {
        return Err(printed);
    }
    Ok(())
}

/// Serves a session of the desk on the state of `north`. The desk merges the state of `south`, saves
/// its own state and prints a docker. Returns the status as an error if a request is refused or the
/// session doesn't end with status 0.
fn serve_north(alloc: Global, folder: Shelf) -> Result<Served, u8>
    requires sound { folder.failures ≡ 0 }
    ensures serves { IfOk result (λ served.
        ServesNorth folder served.folder served.answers.taken) }
    ensures sound { IfOk result (λ served. served.folder.failures ≡ 0) }
{
    let (Ok(answers), Ok(faults)) = (Kept::new(alloc, SCREEN), Kept::new(alloc, 0)) else {
        return Err(MEMORY);
    };
    let requests = "merge south\nsave\nprint ASHFELD 2024-06-10\n";
    let mut host = SessionHost {
        streams: Streams::new(Bytes::new(requests.as_bytes(), 1), answers),
        folder,
        faults,
    };
    let status = serve(alloc, &["--write", "north"], &mut host);
    // These calls are made only for their contracts: each file held the text that was last placed
    // under its name, and the input has only one division into lines.
    host.folder.tell();
    an_input_has_one_reading();
    let SessionHost {
        streams,
        folder,
        ..
    } = host;
    let (_, answers) = streams.into_parts();
    if status != 0 {
        return Err(status);
    }
    all_done(answers.bytes())?;
    Ok(Served { folder, answers })
}

/// What `south` does after the session. It loses its state, starts with an empty one, merges the
/// state that the desk saved, and prints a docker.
fn lose_and_print(alloc: Global, host: &mut Host<Bytes<'_>, Shelf, Kept, Kept>) -> Result<(), u8>
    requires sound { HaveNotFailed host.old }
    ensures { OnOk result (ShowsSouth host.old host.new) }
{
    enter(alloc, &["new", "south"], host)?;
    enter(alloc, &["merge", "south", "north"], host)?;
    enter(alloc, &["print", "south", "ASHFELD", "2024-06-10"], host)?;
    Ok(())
}

/// A desk and an office that take different files still print the same docker. `north` takes the
/// full extract, in which 1A10 leaves ASHFELD at 09:00 from platform 1. `south` takes only the
/// update, which moves 1A10 to 09:05 and platform 3, and takes it twice by mistake. Then a desk
/// serves a session on the state of `north`: it merges the state of `south`, saves its state, and
/// prints the docker of ASHFELD for 10 June 2024. After that `south` loses its state, starts with an
/// empty one, merges the state of `north`, and prints this docker too.
///
/// If nothing fails, the texts of both stand in the contract. The desk's text is its three answers:
/// the headers of two answers without a text, and the header and the text of the third. If a command
/// fails or a request is refused, its status is returned.
pub fn desk_and_office_agree(alloc: Global) -> Result<Printed, u8>
    ensures { IfOk result (λ printed. (printed.desk.taken ≡ codes "0 0 0\n"
        ++ codes "0 0 0\n" ++ codes "0 4 228\n" ++ printed.south.taken)
        × (printed.south.taken ≡ codes "DOCKER ASHFELD 2024-06-10 ASHFELD JUNCTION              \n"
        ++ codes "0850  A 2B20 C20002 P   2       UL  0850 BRAYTON ASHFELD\n"
        ++ codes "0905  D 1A10 C10001 P   3   SL      0905 ASHFELD BRAYTON\n"
        ++ codes "END                                                     \n")) }
{
    let folder = shelf_of_files(alloc)?;
    let (Ok(output), Ok(faults)) = (Kept::new(alloc, SCREEN), Kept::new(alloc, 0)) else {
        return Err(MEMORY);
    };
    let mut host = Host {
        input: Bytes::new(&[], 1),
        folder,
        output,
        faults,
    };
    take_apart(alloc, &mut host)?;
    let Host {
        input,
        folder,
        output,
        faults,
    } = host;
    let Served {
        folder,
        answers: desk,
    } = serve_north(alloc, folder)?;
    let mut host = Host {
        input,
        folder,
        output,
        faults,
    };
    lose_and_print(alloc, &mut host)?;
    let Host { output: south, .. } = host;
    Ok(Printed { desk, south })
}

#[cfg(test)]
mod tests {
    use super::desk_and_office_agree;

    /// The answers of the desk.
    const ANSWERS: &str = "\
0 0 0\n\
0 0 0\n\
0 4 228\n\
DOCKER ASHFELD 2024-06-10 ASHFELD JUNCTION              \n\
0850  A 2B20 C20002 P   2       UL  0850 BRAYTON ASHFELD\n\
0905  D 1A10 C10001 P   3   SL      0905 ASHFELD BRAYTON\n\
END                                                     \n";

    /// The docker that `south` prints.
    const DOCKER: &str = "\
DOCKER ASHFELD 2024-06-10 ASHFELD JUNCTION              \n\
0850  A 2B20 C20002 P   2       UL  0850 BRAYTON ASHFELD\n\
0905  D 1A10 C10001 P   3   SL      0905 ASHFELD BRAYTON\n\
END                                                     \n";

    #[test]
    fn the_desk_prints_this_docker_too(rt: HostRuntime) {
        let printed = desk_and_office_agree(rt.alloc()).expect(&rt, "status 0");
        assert!(rt; printed.desk.bytes() == ANSWERS.as_bytes());
        assert!(rt; printed.south.bytes() == DOCKER.as_bytes());
    }
}
