//! The table of requests, and the request in a line.
ghost use Rattle.std.specs.Prelude.{◌≡◌, ◌≢◌, ◌↔◌, ℕ, List, [], option_map, IfSome, IsNone, IsSome, true};
ghost use Rattle.docker_cmd.specs.JobLine.{IsLineText, words_in};
ghost use Rattle.docker_desk.specs.Queries.{AreIdentityAndDay, ArePlaceAndDay, AreTrainAndDay, NamesIdentity, NamesTrain};
ghost use Rattle.docker_desk.specs.Requests.{AsksFor, FindsRequest, MakesRequest, NamesFile, is_writing, request_meant, row_meant, row_of, usage_line};
ghost use Rattle.docker_cmd.specs.Words.{NamesDay, OfOne, OfTwo};

use crate::query::{DockerKind, Query};
use crate::words::{has_word, next_word, one_word, two_words};
use cif_line::{Day, Tiploc, Uid};
use docker_cmd::{TableWord, is_plain, text_of, word_named};

/// The verbs: the words that name requests.
#[derive(Clone, Copy, PartialEq, Eq, Debug)]
pub enum Verb {
    /// Prints the docker of this kind, for a timing point and a day.
    Docker(DockerKind),
    /// Shows the schedule that is chosen for a train on a day.
    Train,
    /// Lists the trains that have a train identity and start on a day.
    Trains,
    /// Lists the files that are known.
    Files,
    /// Lists the timing points that are known, with the number of live schedules that call at each.
    Places,
    /// Shows the horizon, the newest full extract, the latest last day of a live schedule, and the
    /// numbers of live entries.
    Known,
    /// Joins the state with the state that the state's file holds now.
    Renew,
    /// Takes the named file into the state.
    Take,
    /// Joins the state with the state in the named file.
    Merge,
    /// Sets a horizon. The state keeps its own horizon if that is later.
    Horizon,
    /// Writes the state to its file.
    Save,
}

/// A row of the table of requests.
#[derive(Clone, Copy, Debug)]
pub(crate) struct RequestRow<'a> {
    /// The word that names the request.
    pub(crate) name: &'a str,
    /// The names of the words after the verb, as the usage line shows them.
    pub(crate) ids: &'a [&'a str],
    /// Whether the request is allowed only if the desk may write.
    pub(crate) writes: bool,
}

impl<'a> RequestRow<'a> {
    /// Makes a row from these columns.
    fn of(name: &'a str, ids: &'a [&'a str], writes: bool) -> RequestRow<'a>
        ensures name { result.name.now ≡ name.now }
        ensures ids { result.ids.now ≡ ids.now }
        ensures writes { result.writes ≡ writes }
    {
        RequestRow { name, ids, writes }
    }
}

impl TableWord for Verb {
    ghost use Rattle.docker_desk.specs.Requests as requests;

    ghost words = { requests.verbs };

    ghost name_of = { requests.name_of };

    fn all<'a>() -> &'a [Verb] {
        &[
            Verb::Docker(DockerKind::Ordinary),
            Verb::Docker(DockerKind::Permanent),
            Verb::Docker(DockerKind::Detailed),
            Verb::Docker(DockerKind::PermanentDetailed),
            Verb::Train,
            Verb::Trains,
            Verb::Files,
            Verb::Places,
            Verb::Known,
            Verb::Renew,
            Verb::Take,
            Verb::Merge,
            Verb::Horizon,
            Verb::Save,
        ]
    }

    fn name<'a>(self) -> &'a str {
        self.row().name
    }
}

impl Verb {
    /// Returns the verb's row in the table.
    pub(crate) fn row<'a>(self) -> RequestRow<'a>
        ensures { row_meant result ≡ row_of self }
    {
        match self {
            Verb::Docker(kind) => RequestRow::of(kind.word(), &["TIPLOC", "DATE"], false),
            Verb::Train => RequestRow::of("train", &["UID", "DATE"], false),
            Verb::Trains => RequestRow::of("trains", &["IDENTITY", "DATE"], false),
            Verb::Files => RequestRow::of("files", &[], false),
            Verb::Places => RequestRow::of("places", &[], false),
            Verb::Known => RequestRow::of("known", &[], false),
            Verb::Renew => RequestRow::of("renew", &[], false),
            Verb::Take => RequestRow::of("take", &["FILE"], true),
            Verb::Merge => RequestRow::of("merge", &["OTHER"], true),
            Verb::Horizon => RequestRow::of("horizon", &["DATE"], true),
            Verb::Save => RequestRow::of("save", &[], true),
        }
    }

    /// Whether the verb's requests are allowed only if the desk may write.
    fn is_writing(self) -> bool
        ensures { result ≡ is_writing self }
    {
        self.row().writes
    }

    /// Whether a desk may carry out the verb's requests. `may_write` says whether the desk may
    /// write.
    fn is_allowed(self, may_write: bool) -> bool
        ensures { (result ≡ true) ↔ (is_writing self ≡ true → may_write ≡ true) }
    {
        may_write || !self.is_writing()
    }
}

/// Returns the usage line: each verb, and the names of the words after it.
pub(crate) fn usage<'a>() -> &'a [u8]
    ensures { result.now ≡ usage_line }
{
    b"desk: usage: [--write] STATE, and then a line for each request: print TIPLOC DATE | permanent TIPLOC DATE | detail TIPLOC DATE | permanent-detail TIPLOC DATE | train UID DATE | trains IDENTITY DATE | files | places | known | renew | with --write take FILE | merge OTHER | horizon DATE | save\n"
}

/// A request, with what it asks for, or with the day or the file that it names.
#[derive(Clone, Copy, Debug)]
pub enum Request<'a> {
    /// Shows something, and changes nothing.
    Show(Query),
    /// `renew`: joins the state with the state that the state's file holds now.
    Renew,
    /// `take`: takes the file with this name into the state.
    Take(&'a str),
    /// `merge`: joins the state with the state in the file with this name.
    Merge(&'a str),
    /// `horizon`: sets a horizon.
    Horizon {
        /// The day.
        day: Day,
    },
    /// `save`: writes the state to its file.
    Save,
}

/// Returns the request in a line. Returns `None` if the line isn't a request, or if the request is
/// allowed only to a desk that may write and this desk may not.
pub fn request_in(line: &[u8], may_write: bool) -> Option<Request<'_>>
    requires { IsLineText line.now }
    ensures { AsksFor may_write line.now (option_map request_meant result) }
{
    let (name, rest) = next_word(text_of(line))?;
    let verb: Verb = word_named(name)?;
    if verb.is_allowed(may_write) {
        return request_of(verb, rest);
    }
    None
}

/// Returns the request with this verb, if the rest of the line fits the verb.
fn request_of(verb: Verb, rest: &str) -> Option<Request<'_>>
    ensures { FindsRequest (MakesRequest verb rest.now) (option_map request_meant result) }
{
    match verb {
        Verb::Docker(kind) => {
            let (place, day) = place_and_day(rest)?;
            Some(Request::Show(Query::Docker { kind, place, day }))
        }
        Verb::Train => {
            let (uid, day) = train_and_day(rest)?;
            Some(Request::Show(Query::Train { uid, day }))
        }
        Verb::Trains => {
            let (identity, day) = identity_and_day(rest)?;
            Some(Request::Show(Query::Trains { identity, day }))
        }
        Verb::Files => {
            alone(rest)?;
            Some(Request::Show(Query::Files))
        }
        Verb::Places => {
            alone(rest)?;
            Some(Request::Show(Query::Places))
        }
        Verb::Known => {
            alone(rest)?;
            Some(Request::Show(Query::Known))
        }
        Verb::Renew => {
            alone(rest)?;
            Some(Request::Renew)
        }
        Verb::Take => Some(Request::Take(file_named(rest)?)),
        Verb::Merge => Some(Request::Merge(file_named(rest)?)),
        Verb::Horizon => {
            let day = day_alone(rest)?;
            Some(Request::Horizon { day })
        }
        Verb::Save => {
            alone(rest)?;
            Some(Request::Save)
        }
    }
}

/// Returns the timing point and the day that the rest of the line names, or `None` if the rest
/// isn't exactly a timing point and a day.
fn place_and_day(rest: &str) -> Option<(Tiploc, Day)>
    ensures some { IfSome result (λ it. OfTwo (ArePlaceAndDay it.0 it.1) (words_in rest.now)) }
    ensures none { IsNone result → (place : List ℕ) (day : ℕ)
        → ¬ OfTwo (ArePlaceAndDay place day) (words_in rest.now) }
{
    let (tiploc, date) = two_words(rest)?;
    if !is_plain(tiploc) {
        return None;
    }
    docker_cmd::place_and_day(tiploc, date)
}

/// Returns the UID and the day that the rest of the line names, or `None` if the rest isn't exactly
/// a UID and a day.
fn train_and_day(rest: &str) -> Option<(Uid, Day)>
    ensures some { IfSome result (λ it. OfTwo (AreTrainAndDay it.0 it.1) (words_in rest.now)) }
    ensures none { IsNone result → (uid : List ℕ) (day : ℕ)
        → ¬ OfTwo (AreTrainAndDay uid day) (words_in rest.now) }
{
    let (word, date) = two_words(rest)?;
    let uid = train_named(word)?;
    let day = Day::from_iso(date)?;
    Some((uid, day))
}

/// Returns the train identity and the day that the rest of the line names, or `None` if the rest
/// isn't exactly a train identity and a day.
fn identity_and_day(rest: &str) -> Option<([u8; 4], Day)>
    ensures some { IfSome result (λ it. OfTwo (AreIdentityAndDay it.0 it.1) (words_in rest.now)) }
    ensures none { IsNone result → (identity : List ℕ) (day : ℕ)
        → ¬ OfTwo (AreIdentityAndDay identity day) (words_in rest.now) }
{
    let (word, date) = two_words(rest)?;
    let identity = identity_named(word)?;
    let day = Day::from_iso(date)?;
    Some((identity, day))
}

/// Returns the day that the rest of the line names, or `None` if the rest isn't exactly a day.
fn day_alone(rest: &str) -> Option<Day>
    ensures some { IfSome result (λ day. OfOne (λ date. NamesDay date day) (words_in rest.now)) }
    ensures none { IsNone result → (day : ℕ)
        → ¬ OfOne (λ date. NamesDay date day) (words_in rest.now) }
{
    let date = one_word(rest)?;
    Day::from_iso(date)
}

/// Returns `Some` if the rest of the line has no words.
fn alone(rest: &str) -> Option<()>
    ensures alone { IsSome result → words_in rest.now ≡ [] }
    ensures more { IsNone result → words_in rest.now ≢ [] }
{
    if has_word(rest) {
        return None;
    }
    Some(())
}

/// Returns the UID that a word names, or `None` if the word isn't a UID.
fn train_named(word: &str) -> Option<Uid>
    ensures named { IfSome result (λ uid. NamesTrain word.now uid) }
    ensures none { IsNone result → (uid : List ℕ) → ¬ NamesTrain word.now uid }
{
    let word = word.as_bytes();
    if word.len() != 6 {
        return None;
    }
    let mut bytes = [0; 6];
    bytes.copy_from_slice(word);
    Uid::from_field(&bytes)
}

/// Returns the train identity that a word names, or `None` if the word doesn't have four bytes.
fn identity_named(word: &str) -> Option<[u8; 4]>
    ensures named { IfSome result (λ identity. NamesIdentity word.now identity) }
    ensures none { IsNone result → (identity : List ℕ) → ¬ NamesIdentity word.now identity }
{
    let word = word.as_bytes();
    if word.len() != 4 {
        return None;
    }
    let mut identity = [0; 4];
    identity.copy_from_slice(word);
    Some(identity)
}

/// Returns the file that a text names, or `None` if the text is empty, begins with a hyphen, or is
/// `stdin`.
pub fn file_named(text: &str) -> Option<&str>
    ensures named { IfSome result (λ file. NamesFile text.now file.now) }
    ensures none { IsNone result → (file : List ℕ) → ¬ NamesFile text.now file }
{
    if is_plain(text) & (text != "stdin") {
        return Some(text);
    }
    None
}
