//! The words of a session: the words with which a desk is started.
ghost use Rattle.std.specs.Prelude.{◌≡◌, ◌↔◌, IfSome, IsNone, IsTrue, codes};
ghost use Rattle.docker_cmd.specs.Words.{texts};
ghost use Rattle.docker_desk.specs.Requests.{NamesFile};
ghost use Rattle.docker_desk.specs.Serving.{NameNoSession, NamesSession};

use crate::requests::file_named;

/// The meaning of a session's words.
#[derive(Clone, Copy, Debug)]
pub struct SessionWords<'a> {
    /// The name of the state's file.
    pub name: &'a str,
    /// Whether the desk may take files, merge states, set a horizon and save.
    pub may_write: bool,
}

/// Reads the words of a session: the name of the state's file, with `--write` before it if the desk
/// may write. Returns `None` if the words have another form.
pub fn session_words_in<'a>(words: &[&'a str]) -> Option<SessionWords<'a>>
    ensures named { IfSome result (λ it.
        NamesSession (texts words.now) it.name.now it.may_write) }
    ensures none { IsNone result → NameNoSession (texts words.now) }
{
    match words {
        [name] => session_words_of(name, false),
        [option, name] => {
            if !is_write(option) {
                return None;
            }
            session_words_of(name, true)
        }
        _ => None,
    }
}

/// Returns the session words for this file, or `None` if a state's file can't have this name.
fn session_words_of(name: &str, may_write: bool) -> Option<SessionWords<'_>>
    ensures named { IfSome result (λ it. (it.name.now ≡ name.now)
        × (it.may_write ≡ may_write) × NamesFile name.now name.now) }
    ensures none { IsNone result → ¬ NamesFile name.now name.now }
{
    let name = file_named(name)?;
    Some(SessionWords { name, may_write })
}

/// Whether the word is `--write`.
fn is_write(word: &str) -> bool
    ensures { IsTrue result ↔ (word.now ≡ codes "--write") }
{
    word == "--write"
}
