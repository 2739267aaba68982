//! What the tests do with any kind of folder: real files, or files in memory.
ghost use Rattle.std.specs.Prelude.{◌<◌};

use crate::compare::same;
use cif_device::{Sink, Source, write_all};
use docker_host::{Drafted, Folder, OpenFault};
use std::alloc::Global;
use std::process::Abort;

/// Asserts that a folder has failed fewer than 100 times. From this fact the prover concludes that
/// the folder can count another failure, which the contracts of the folder's calls require.
pub(crate) fn has_few_failures<F: Folder>(rt: &impl Abort, folder: &F)
    ensures { F.failures folder.now < 100 }
{
    assert!(rt; folder.failures() < 100);
}

/// Reads the rest of a source. Returns `None` if the source fails, or doesn't end within 10,000
/// reads.
fn left_of<S: Source>(rt: &impl Abort, alloc: Global, source: &mut S) -> Option<Vec<u8>> {
    let mut text = Vec::new(alloc);
    let mut piece = [0u8; 64];
    for _ in 0..10_000 {
        assert!(rt; source.failures() < 100);
        let n = source.read(&mut piece).ok()?;
        if n == 0 {
            return Some(text);
        }
        text.extend_from_slice(&piece[..n]).expect(rt, "memory");
    }
    None
}

/// Opens the named file and reads it to its end. Returns `None` if opening or reading fails.
pub(crate) fn read<F: Folder>(
    rt: &impl Abort,
    alloc: Global,
    folder: &mut F,
    name: &str,
) -> Option<Vec<u8>> {
    has_few_failures(rt, folder);
    let mut file = folder.open(name).ok()?;
    let text = left_of(rt, alloc, &mut file);
    has_few_failures(rt, folder);
    assert!(rt; file.failures() < 100);
    folder.close(file);
    text
}

/// Asserts that the named file has this text.
pub(crate) fn holds<F: Folder>(
    rt: &impl Abort,
    alloc: Global,
    folder: &mut F,
    name: &str,
    text: &str,
) {
    let held = read(rt, alloc, folder, name).expect(rt, "a file that is read");
    same(rt, held.as_slice(), text.as_bytes());
}

/// Writes this text to a draft, and then puts the draft in the place of its file.
pub(crate) fn finish<F: Folder>(
    rt: &impl Abort,
    folder: &mut F,
    made: Drafted<'_, F::Draft>,
    text: &str,
) -> Result<(), OpenFault> {
    let mut made = made;
    has_few_failures(rt, folder);
    assert!(rt; made.draft.failures() < 100);
    let written = write_all(&mut made.draft, text.as_bytes());
    assert!(rt; made.draft.failures() < 100);
    if written.is_err() {
        folder.discard(made);
        return Err(OpenFault::Failed);
    }
    folder.complete(made).map_err(|_| OpenFault::Failed)
}

/// Writes this text to a draft, and replaces the named file with the draft. The draft is refused if
/// the file was replaced after the look `seen`.
pub(crate) fn store<F: Folder>(
    rt: &impl Abort,
    folder: &mut F,
    name: &str,
    seen: &F::Seen,
    text: &str,
) -> Result<(), OpenFault> {
    has_few_failures(rt, folder);
    let made = folder.create(name, seen)?;
    finish(rt, folder, made, text)
}

/// Looks at the named file and then stores this text in it. Asserts that the result is `answer`.
pub(crate) fn stores<F: Folder>(
    rt: &impl Abort,
    folder: &mut F,
    name: &str,
    text: &str,
    answer: Result<(), OpenFault>,
) {
    let seen = folder.look(name);
    same(rt, store(rt, folder, name, &seen, text), answer);
}
