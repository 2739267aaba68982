//! A worked example of the contract of `serve`, on devices whose bytes contracts can state.
ghost use Rattle.std.specs.Prelude.{◌≡◌, ◌⊎◌, IfOk, codes};
ghost use Rattle.docker_desk.specs.Replies.{memory_answer};

use crate::program::serve;
use cif_line::{Bytes, Kept, Memory};
use docker_cmd::Office;
use docker_host::{SessionHost, Shelf, Streams};
use std::alloc::Global;

/// The most bytes that the text of an empty state may have.
const ROOM: usize = 100;

/// Serves a session on a shelf, and returns the answer if the session ends with status 0, and
/// `Memory` otherwise. The session is started with one word, `S`. The file `S` holds the text of
/// the state that knows no files. The input is the one line `files`. The answer lists no files,
/// unless memory ran out.
pub fn files_of_none(alloc: Global) -> Result<Kept, Memory>
    ensures { IfOk result (λ output. (output.taken ≡ codes "0 0 0\n")
        ⊎ (output.taken ≡ memory_answer)) }
{
    let office = Office::new(alloc);
    // This call is made only for its contract: the state is valid.
    let _state = office.state();
    let mut text = Kept::new(alloc, ROOM)?;
    let Ok(()) = office.send(&mut text) else {
        return Err(Memory);
    };
    let bytes = text.bytes();
    if bytes.len() > ROOM {
        return Err(Memory);
    }
    let mut folder = Shelf::new(alloc, 0);
    folder.put("S", bytes)?;
    let mut host = SessionHost {
        streams: Streams::new(Bytes::new(b"files\n", 1), Kept::new(alloc, ROOM)?),
        folder,
        faults: Kept::new(alloc, ROOM)?,
    };
    let status = serve(alloc, &["S"], &mut host);
    // This call is made only for its contract: each file held the text that was last placed under
    // its name.
    host.folder.tell();
    let SessionHost { streams, .. } = host;
    let (_, output) = streams.into_parts();
    if status != 0 {
        return Err(Memory);
    }
    Ok(output)
}
