//! Two offices that take different files and still print the same docker. Each step is a command as a
//! user types it, run on a shelf, a folder in memory.
ghost use Rattle.std.specs.Prelude.{◌≡◌, ◌++◌, OnOk, IfOk, codes};
ghost use Rattle.offices_agree.specs.TwoOffices.{HaveNotFailed, LearnBoth};

use crate::commands::{MEMORY, SCREEN, enter, shelf_of_files};
use cif_line::{Bytes, Kept};
use docker_host::{Host, Shelf};
use std::alloc::Global;

/// What each of the two offices printed.
#[derive(Drop)]
pub struct Dockers {
    /// What `north` printed.
    pub north: Kept,
    /// What `south` printed.
    pub south: Kept,
}

/// What the two offices do before they print. `south` takes its file twice. Then each office merges
/// the other's state. At last `south` loses its state, starts with an empty one, and merges the state
/// of `north`.
fn exchange(alloc: Global, host: &mut Host<Bytes<'_>, Shelf, Kept, Kept>) -> Result<(), u8>
    requires sound { HaveNotFailed host.old }
    ensures learn { OnOk result (LearnBoth host.old host.new) }
    ensures sound { OnOk result (HaveNotFailed host.new) }
{
    enter(alloc, &["new", "north"], host)?;
    enter(alloc, &["new", "south"], host)?;
    enter(alloc, &["take", "north", "full.cif"], host)?;
    enter(alloc, &["take", "south", "update.cif"], host)?;
    enter(alloc, &["take", "south", "update.cif"], host)?;
    enter(alloc, &["merge", "north", "south"], host)?;
    enter(alloc, &["merge", "south", "north"], host)?;
    enter(alloc, &["new", "south"], host)?;
    enter(alloc, &["merge", "south", "north"], host)?;
    Ok(())
}

/// Two station offices take different files, and still print the same docker. `north` takes the full
/// extract, in which 1A10 leaves ASHFELD at 09:00 from platform 1. `south` takes only the update,
/// which moves 1A10 to 09:05 and platform 3, and takes it twice by mistake. Each office merges the
/// other's state. Then `south` loses its state, starts with an empty one, and merges the state of
/// `north`. At the end both print the docker of ASHFELD for 10 June 2024.
///
/// If no command fails, both dockers are the text that stands in the contract. If a command fails,
/// its exit status is returned.
pub fn two_offices_agree(alloc: Global) -> Result<Dockers, u8>
    ensures { IfOk result (λ dockers. (dockers.north.taken ≡ dockers.south.taken)
        × (dockers.north.taken ≡ codes "DOCKER ASHFELD 2024-06-10 ASHFELD JUNCTION              \n"
        ++ codes "0850  A 2B20 C20002 P   2       UL  0850 BRAYTON ASHFELD\n"
        ++ codes "0905  D 1A10 C10001 P   3   SL      0905 ASHFELD BRAYTON\n"
        ++ codes "END                                                     \n")) }
{
    let folder = shelf_of_files(alloc)?;
    let (Ok(first), Ok(second), Ok(faults)) = (
        Kept::new(alloc, SCREEN),
        Kept::new(alloc, SCREEN),
        Kept::new(alloc, 0),
    ) else {
        return Err(MEMORY);
    };
    let mut host = Host {
        input: Bytes::new(&[], 1),
        folder,
        output: first,
        faults,
    };
    exchange(alloc, &mut host)?;
    enter(
        alloc,
        &["print", "north", "ASHFELD", "2024-06-10"],
        &mut host,
    )?;
    let Host {
        input,
        folder,
        output: north,
        faults,
    } = host;
    let mut host = Host {
        input,
        folder,
        output: second,
        faults,
    };
    enter(
        alloc,
        &["print", "south", "ASHFELD", "2024-06-10"],
        &mut host,
    )?;
    let Host { output: south, .. } = host;
    Ok(Dockers { north, south })
}

#[cfg(test)]
mod tests {
    use super::two_offices_agree;

    /// The docker that both offices print.
    const DOCKER: &str = "\
DOCKER ASHFELD 2024-06-10 ASHFELD JUNCTION              \n\
0850  A 2B20 C20002 P   2       UL  0850 BRAYTON ASHFELD\n\
0905  D 1A10 C10001 P   3   SL      0905 ASHFELD BRAYTON\n\
END                                                     \n";

    #[test]
    fn both_print_one_docker(rt: HostRuntime) {
        let dockers = two_offices_agree(rt.alloc()).expect(&rt, "status 0");
        assert!(rt; dockers.north.bytes() == DOCKER.as_bytes());
        assert!(rt; dockers.south.bytes() == DOCKER.as_bytes());
    }
}
