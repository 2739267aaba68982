//! One-letter fields in a header (HD), a basic schedule (BS) or an association (AA).
ghost use Rattle.std.specs.Prelude.{◌≡◌, ◌↔◌, IsSome, IfSome, IsTrue, [], ◌∷◌};
ghost use Rattle.docker_model.specs.records.Field.{is_update_indicator, is_transaction, is_stp_letter};
ghost use Rattle.cif_line.specs.Letter.{extract_letter, transaction_letter, stp_letter};

/// What an extract contains, as the update indicator in its header (HD) says.
#[derive(Clone, Copy, PartialEq, Eq, Debug)]
pub enum Extract {
    /// F, a full extract: everything.
    Full,
    /// U, an update: what changed since an earlier extract.
    Update,
}

impl Extract {
    /// The kind of extract for which `F` or `U` stands. Returns `None` for any other byte.
    pub fn from_letter(letter: u8) -> Option<Extract>
        ensures some { IsSome result ↔ IsTrue (is_update_indicator (letter ∷ [])) }
        ensures value { IfSome result (λ extract. extract_letter extract ≡ letter) }
    {
        match letter {
            b'F' => Some(Extract::Full),
            b'U' => Some(Extract::Update),
            _ => None,
        }
    }

    /// The letter, `F` or `U`.
    pub fn letter(&self) -> u8
        ensures { result ≡ extract_letter self.now }
    {
        match self {
            Extract::Full => b'F',
            Extract::Update => b'U',
        }
    }
}

/// The transaction of a basic schedule (BS) or an association (AA): whether the record adds,
/// deletes or revises the schedule or association with its key.
#[derive(Clone, Copy, PartialEq, Eq, Debug)]
pub enum Transaction {
    /// N, new.
    New,
    /// D, delete.
    Delete,
    /// R, revise.
    Revise,
}

impl Transaction {
    /// The transaction for which `N`, `D` or `R` stands. Returns `None` for any other byte.
    pub fn from_letter(letter: u8) -> Option<Transaction>
        ensures some { IsSome result ↔ IsTrue (is_transaction (letter ∷ [])) }
        ensures value { IfSome result (λ transaction. transaction_letter transaction ≡ letter) }
    {
        match letter {
            b'N' => Some(Transaction::New),
            b'D' => Some(Transaction::Delete),
            b'R' => Some(Transaction::Revise),
            _ => None,
        }
    }

    /// The letter, `N`, `D` or `R`.
    pub fn letter(&self) -> u8
        ensures { result ≡ transaction_letter self.now }
    {
        match self {
            Transaction::New => b'N',
            Transaction::Delete => b'D',
            Transaction::Revise => b'R',
        }
    }
}

/// The STP (short term plan) indicator of a basic schedule (BS) or an association (AA). Indicators
/// are ordered by letter. If several schedules of a train run on a day, the schedule whose
/// indicator comes first is chosen. The same rule chooses one of several associations of a group.
#[derive(Clone, Copy, PartialEq, Eq, PartialOrd, Ord, Debug)]
pub enum Stp {
    /// C, a cancellation.
    Cancellation,
    /// N, new: only in the short term plan.
    New,
    /// O, an overlay, which replaces the permanent schedule or association on its days.
    Overlay,
    /// P, permanent.
    Permanent,
}

impl Stp {
    /// The STP indicator that the letter `C`, `N`, `O` or `P` stands for. Returns `None` for any
    /// other byte.
    pub fn from_letter(letter: u8) -> Option<Stp>
        ensures some { IsSome result ↔ IsTrue (is_stp_letter letter) }
        ensures value { IfSome result (λ stp. stp_letter stp ≡ letter) }
    {
        match letter {
            b'C' => Some(Stp::Cancellation),
            b'N' => Some(Stp::New),
            b'O' => Some(Stp::Overlay),
            b'P' => Some(Stp::Permanent),
            _ => None,
        }
    }

    /// The letter, `C`, `N`, `O` or `P`.
    pub fn letter(&self) -> u8
        ensures { result ≡ stp_letter self.now }
    {
        match self {
            Stp::Cancellation => b'C',
            Stp::New => b'N',
            Stp::Overlay => b'O',
            Stp::Permanent => b'P',
        }
    }
}
