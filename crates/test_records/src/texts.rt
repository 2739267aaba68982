//! Joins records into the text of a file.
ghost use Rattle.std.specs.Prelude.{◌≡◌, ◌++◌, IfOk};
ghost use Rattle.std.specs.List.{flat_map};

use std::alloc::{AllocError, Global};

/// The text of these records, each followed by this line end. Returns an error if the allocator
/// refuses memory.
pub fn text(alloc: Global, records: &[&[u8]], end: &[u8]) -> Result<Vec<u8>, AllocError>
    ensures { IfOk result (λ text.
        text.items ≡ flat_map (λ line. line.now ++ end.now) records.now) }
{
    let mut text = Vec::new(alloc);
    for line in records {
        text.extend_from_slice(line)?;
        text.extend_from_slice(end)?;
    }
    Ok(text)
}
