//! A CIF file that was read, with its changes.
ghost use Rattle.std.specs.Prelude.{◌≡◌, map};
ghost use Rattle.cif_change.specs.Meaning.{change_meant};
ghost use Rattle.cif_file.specs.FileRead.{FileRead, IsRead};
ghost use Rattle.cif_file.specs.MadeChanges.{ArePartsOfFile, file_of_parts};

pub(crate) mod count;
pub(crate) mod ended;
pub(crate) mod header_line;
pub(crate) mod parts;

use crate::file::parts::FileParts;
use cif_change::Change;
use cif_line::Header;
use std::marker::Model;

/// A CIF file: its header, and the changes that its records make.
#[derive(Debug, Drop)]
pub struct CifFile {
    parts: FileParts,
}

impl Model for CifFile {
    ghost Value = { FileRead };

    ghost view = { λ file. file_of_parts file.parts };

    ghost invariant = { λ file. ArePartsOfFile file.parts };
}

impl CifFile {
    /// A view of the header.
    pub fn header(&self) -> Header<'_>
        ensures { result ≡ self.now.header_line }
    {
        self.parts.header.view()
    }

    /// How many records the file has, including the header and the trailer.
    pub fn records(&self) -> u32
        ensures count { result ≡ self.now.record_count }
        ensures read { IsRead self.now }
    {
        self.parts.records
    }

    /// The changes, in the order of their records.
    pub fn changes(&self) -> &[Change]
        ensures changes { map change_meant result.now ≡ self.now.changes_made }
        ensures read { IsRead self.now }
    {
        self.parts.changes.as_slice()
    }

    /// Takes the changes out of the file, in the order of their records.
    pub fn into_changes(self) -> Vec<Change>
        ensures { map change_meant result.items ≡ self.changes_made }
    {
        let FileParts { changes, .. } = self.into_parts();
        changes
    }

    /// Takes the file apart into its header, the number of its records, and its changes.
    pub fn into_parts(self) -> FileParts
        ensures file { file_of_parts result ≡ self }
        ensures parts { ArePartsOfFile result }
    {
        let CifFile { parts } = self;
        parts
    }
}

impl FileParts {
    /// Makes the file again from its parts.
    pub fn into_file(self) -> CifFile
        requires { ArePartsOfFile self }
        ensures { result ≡ file_of_parts self }
    {
        CifFile { parts: self }
    }
}
