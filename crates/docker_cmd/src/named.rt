//! What a word can name: a row of a table, or a timing point or a day.
ghost use Rattle.std.specs.Prelude.{◌≡◌, List, IfSome, IsNone};
ghost use Rattle.std.specs.Option.{option_copied};
ghost use Rattle.std.specs.Str.{bytes_eq};
ghost use Rattle.docker_cmd.specs.Words.{NamesDay, NamesPlace, Text, is_plain_word, word_named};

use cif_line::{Day, Tiploc};

/// A word of a table. Each value of the type stands for one row, for example for a subcommand.
pub trait TableWord: Copy {
    // All words of the table, in the order of its rows.
    ghost words: { List Self };

    // The name of a word.
    ghost name_of: { Self → Text };

    /// Returns all words of the table, in the order of its rows.
    fn all<'a>() -> &'a [Self]
        ensures { result.now ≡ words };

    /// Returns the word's name.
    fn name<'a>(self) -> &'a str
        ensures { result.now ≡ name_of self };
}

/// Returns the word of the table with this name, if there is one.
pub fn word_named<W: TableWord>(name: &str) -> Option<W>
    ensures { result ≡ word_named W.name_of W.words name.now }
{
    first_named(W::all(), name).copied()
}

/// Returns the first of these words that has this name.
#[tactic(auto, unfolding(crate::specs::Words::word_named))]
fn first_named<'a, W: TableWord>(words: &'a [W], name: &str) -> Option<&'a W>
    ensures { option_copied result ≡ word_named W.name_of words.now name.now }
{
    words.iter().find(|word| is_named(**word, name))
}

/// Whether a word has this name.
fn is_named<'a, W: TableWord>(word: W, name: &'a str) -> bool
    ensures { result ≡ bytes_eq (W.name_of word) name.now }
{
    let own: &'a str = word.name();
    own == name
}

/// Returns the timing point and the day that these words name, or `None` if the first word isn't a
/// timing point or the second word isn't a day.
pub fn place_and_day(tiploc: &str, date: &str) -> Option<(Tiploc, Day)>
    ensures pair { IfSome result (λ pair. NamesPlace tiploc.now pair.0 × NamesDay date.now pair.1) }
    ensures none { IsNone result → (place : _) (day : _) → NamesPlace tiploc.now place
        → ¬ NamesDay date.now day }
{
    let place = Tiploc::from_text(tiploc)?;
    let day = Day::from_iso(date)?;
    Some((place, day))
}

/// Whether the word isn't empty and doesn't begin with a hyphen. Such a word can't be taken for an
/// option.
pub fn is_plain(word: &str) -> bool
    ensures { result ≡ is_plain_word word.now }
{
    !word.is_empty() && !word.starts_with('-')
}
