//! Reads a UID from a word.
ghost use Rattle.std.specs.Prelude.{◌≡◌, ◌↔◌, IsSome, IfSome};
ghost use Rattle.docker_model.specs.records.Record.{IsTextOfLength};

use cif_line::Uid;

/// The UID that is written as this word. Returns `None` if the word isn't six printable bytes.
pub fn uid_of_word(word: &str) -> Option<Uid>
    ensures some { IsSome result ↔ IsTextOfLength 6 word.now }
    ensures value { IfSome result (λ uid. uid ≡ word.now) }
{
    let Ok(field) = <[u8; 6]>::try_from(word.as_bytes()) else {
        return None;
    };
    Uid::from_field(&field)
}
