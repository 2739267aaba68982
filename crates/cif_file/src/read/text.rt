//! Finds line ends, and cuts a text at them.
ghost use Rattle.std.specs.Prelude.{◌≡◌, ◌==◌, ◌<◌, IfSome, List, ℕ, length, position, MatchOption};
ghost use Rattle.cif_laws.specs.CompleteLines.{HasNoFeed};
ghost use Rattle.cif_file.specs.Cut.{IsCut, BeginsWithEnd, BeginsWithEighty};
ghost use Rattle.std.specs.Str.Lines.{strip_carriage_return};

/// How many bytes a record has without its line end.
const RECORD: usize = 80;

/// The line without a carriage return at its end. At most one carriage return is removed.
pub(crate) fn without_return(piece: &[u8]) -> &[u8]
    ensures line { result.now ≡ strip_carriage_return piece.now }
{
    match piece {
        [line @ .., b'\r'] => line,
        _ => piece,
    }
}

/// The index of the first line feed. The search tests one byte after another.
fn line_feed(text: &[u8]) -> Option<usize>
    ensures place { result ≡ position (λ byte. byte == 10) text.now }
    ensures within { IfSome result (λ at. at < length text.now) }
{
    text.iter().position(|byte| *byte == b'\n')
}

/// The bytes before the first line feed, and the bytes after it. Returns `None` if there is no line
/// feed.
pub(crate) fn split_line(text: &[u8]) -> Option<(&[u8], &[u8])>
    ensures { MatchOption result (HasNoFeed text.now)
        (λ parts. IsCut text.now parts.0.now parts.1.now) }
{
    let end = line_feed(text)?;
    Some((&text[..end], &text[end + 1..]))
}

/// The bytes after the line end with which a text begins: a line feed, or a carriage return and a
/// line feed. Returns `None` if the text doesn't begin with a line end.
fn after_line_end(text: &[u8]) -> Option<&[u8]>
    ensures { MatchOption result ((rest : List ℕ) → ¬ BeginsWithEnd text.now rest)
        (λ rest. BeginsWithEnd text.now rest.now) }
{
    match text {
        [b'\n', rest @ ..] => Some(rest),
        [b'\r', b'\n', rest @ ..] => Some(rest),
        _ => None,
    }
}

/// The first 80 bytes of a text, and the bytes after the line end that follows them. Returns `None`
/// if no line end follows the first 80 bytes. No search is needed.
pub(crate) fn split_eighty(text: &[u8]) -> Option<(&[u8], &[u8])>
    ensures { MatchOption result
        ((line rest : List ℕ) → ¬ BeginsWithEighty text.now line rest)
        (λ parts. BeginsWithEighty text.now parts.0.now parts.1.now) }
{
    if text.len() < RECORD {
        return None;
    }
    let rest = after_line_end(&text[RECORD..])?;
    Some((&text[..RECORD], rest))
}
