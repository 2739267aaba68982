//! The entries of a whole file, for proofs. The code here allocates nothing and does nothing at run
//! time.
ghost use Rattle.std.specs.Prelude.{◌≡◌};
ghost use Rattle.docker_excerpt.specs.Values.{state_of_read};

use crate::thin_file::ThinFile;
use state_text::Given;

/// All entries of the state of a whole file, although `_file` has kept only some of the file's
/// changes. The entries exist only for proofs.
pub(crate) fn given_of(_file: &ThinFile) -> Given
    ensures { result.entries ≡ (state_of_read _file.now.file).entries }
{
    Given {}
}
