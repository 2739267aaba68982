//! The reader of CIF files. It reads the whole grammar, from a source or in pieces of any length.
//! If the text isn't a CIF file, the reader returns the fault of the text. The crate re-exports
//! `cif_change`.
#![tactic(auto)]

mod calling;
mod fault;
mod file;
mod keeper;
mod read;
mod records;

pub use calling::calls_at;
pub use cif_change::{Act, AssocKey, Body, Change, FileCause, Journey, Key, Lines, ScheduleKey};
pub use fault::{FileFault, FileReadFault};
pub use file::CifFile;
pub use file::count::FileCount;
pub use file::ended::Ended;
pub use file::header_line::HeaderLine;
pub use file::parts::FileParts;
pub use keeper::ChangeKeeper;
pub use keeper::opened::{Opened, body_of};
pub use keeper::single::{Single, SingleChanges, changes_of};
pub use read::judge::judge_file;
pub use read::parser::FileParser;
pub use read::pieces::read_pieces;
pub use read::{read_file, read_kept};
pub use records::MOST_RECORDS;
