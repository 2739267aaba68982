//! The parts of a CIF file that was read.
use crate::file::header_line::HeaderLine;
use cif_change::Change;

/// The parts of a CIF file: its header, the number of its records, and its changes.
#[derive(Debug, Drop)]
pub struct FileParts {
    /// The line of the header.
    pub header: HeaderLine,
    /// How many records the file has, including the header and the trailer.
    pub records: u32,
    /// The changes that the records make. `CifFile::into_parts` returns them in the order of the
    /// records.
    pub changes: Vec<Change>,
}
