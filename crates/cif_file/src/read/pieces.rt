//! Reads a CIF file that is given in pieces.
ghost use Rattle.std.specs.Prelude.{◌≤◌, map, IfOk, IfErr};
ghost use Rattle.std.specs.List.{concat};
ghost use Rattle.cif_file.specs.ParserRead.{IsOfFileText, IsRefused};

use crate::fault::FileFault;
use crate::file::CifFile;
use crate::read::parser::FileParser;
use crate::records::MOST_RECORDS;
use std::alloc::Global;

/// Reads the file that the pieces form when they are joined. It may have at most `limit` records.
/// The result doesn't depend on where the text is cut into pieces.
pub fn read_pieces(alloc: Global, pieces: &[&[u8]], limit: u32) -> Result<CifFile, FileFault>
    requires { limit ≤ MOST_RECORDS }
    ensures ok { IfOk result (λ file.
        IsOfFileText file limit (concat (map (λ piece. piece.now) pieces.now))) }
    ensures err { IfErr result (λ fault.
        IsRefused limit (concat (map (λ piece. piece.now) pieces.now)) fault) }
{
    let mut parser = FileParser::new(alloc, limit);
    for piece in pieces {
        parser.feed(piece)?;
    }
    parser.finish()
}
