//! Divides a line into words.
ghost use Rattle.std.specs.Prelude.{◌≡◌, [], ◌∷◌, IfSome, IsNone, ◌↔◌, false, option_map};
ghost use Rattle.docker_cmd.specs.JobLine.{words_in};
ghost use Rattle.docker_desk.specs.Requests.{HasOneWord, HasTwoWords, after_word, first_word, without_spaces};

use docker_cmd::split_at_space;

/// Returns the text without its leading spaces.
fn without_spaces(text: &str) -> &str
    ensures { result.now ≡ without_spaces text.now }
{
    let mut rest = text;
    while let Some((piece, behind)) = split_at_space(rest) {
        if !piece.is_empty() {
            return rest;
        }
        rest = behind;
    }
    rest
}

/// Returns the first word of a text, and the text after it without leading spaces. Returns `None`
/// if the text has no words.
pub(crate) fn next_word(text: &str) -> Option<(&str, &str)>
    ensures none { IsNone result → (words_in text.now ≡ []) × (first_word text.now ≡ []) }
    ensures word { IfSome result (λ cut. cut.0.now ≡ first_word text.now) }
    ensures behind { IfSome result (λ cut. cut.1.now ≡ after_word text.now) }
    ensures words { IfSome result (λ cut. words_in text.now ≡ cut.0.now ∷ words_in cut.1.now) }
{
    let text = without_spaces(text);
    if text.is_empty() {
        return None;
    }
    match split_at_space(text) {
        Some((word, behind)) => Some((word, without_spaces(behind))),
        None => Some((text, "")),
    }
}

/// Returns the words of a text that has exactly two words; otherwise `None`.
pub(crate) fn two_words(text: &str) -> Option<(&str, &str)>
    ensures { HasTwoWords text.now
        (option_map (λ words. (words.0.now, words.1.now)) result) }
{
    let (first, behind) = next_word(text)?;
    let (second, behind) = next_word(behind)?;
    if has_word(behind) {
        return None;
    }
    Some((first, second))
}

/// Returns the word of a text that has exactly one word; otherwise `None`.
pub(crate) fn one_word(text: &str) -> Option<&str>
    ensures { HasOneWord text.now (option_map (λ word. word.now) result) }
{
    let (word, behind) = next_word(text)?;
    if has_word(behind) {
        return None;
    }
    Some(word)
}

/// Whether the text has a word: any byte other than a space.
pub(crate) fn has_word(text: &str) -> bool
    ensures { (result ≡ false) ↔ (words_in text.now ≡ []) }
{
    next_word(text).is_some()
}
