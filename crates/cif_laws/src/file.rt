//! Laws of files, their texts, their faults and their changes. A law is a function with an empty
//! body. Its contract states a fact, which holds for all values of the variables.
ghost use Rattle.std.specs.Prelude.{◌≡◌, ℕ, ◌+◌, ◌*◌, List, [], ◌∷◌, ◌++◌, ◌↔◌, ◌≤◌, ◌⊎◌, All, Contains, length};
ghost use Rattle.std.specs.List.{AllPairs};
ghost use Rattle.docker_model.specs.records.Record.{IsRecord};
ghost use Rattle.docker_model.specs.file.Text.{lines_of};
ghost use Rattle.cif_laws.specs.RecordText.{IsTextOf};
ghost use Rattle.docker_model.specs.file.FileFault.{FileCause, FileFault, IsFileFault, IsFileText};
ghost use Rattle.cif_laws.specs.ScheduleFault.{IsScheduleFault};
ghost use Rattle.docker_model.specs.file.FaultSoFar.{IsFaultSoFar};
ghost use Rattle.docker_model.specs.file.Change.{Change, Body, put, schedule_body, changes, changes_of_record};
ghost use Rattle.cif_laws.specs.UnitChange.{changes_of_unit, changes_of_units, change_of_schedule};
ghost use Rattle.docker_model.specs.state.State.{IsBodyOf};
ghost use Rattle.docker_model.specs.file.File.{IsFile, IsSchedule, BeginsFile, BeginsSchedule, most_records};
ghost use Rattle.cif_laws.specs.LawTerms.{BeginsWithin};

/// Records are the lines of a text if and only if the text consists of these records, each with its
/// line end.
pub fn text_of_records()
    ensures { (records : List (List ℕ)) (text : List ℕ) → All IsRecord records
        → IsTextOf records text ↔ (lines_of text ≡ records) }
{}

/// A text has at most one fault. The text of a file within the limit has no fault.
pub fn one_file_fault()
    ensures one { (limit : ℕ) (text : List ℕ) (first second : FileFault)
        → IsFileFault limit text first → IsFileFault limit text second → first ≡ second }
    ensures none { (limit : ℕ) (text : List ℕ) (file : List (List ℕ)) (fault : FileFault)
        → IsFileText limit text file → ¬ IsFileFault limit text fault }
{}

/// Each text is the text of a file within the limit, or has a fault.
pub fn file_or_fault()
    ensures { (limit : ℕ) (text : List ℕ) → ((file : List (List ℕ)) × IsFileText limit text file)
        ⊎ ((fault : FileFault) × IsFileFault limit text fault) }
{}

/// If a change of a file puts the body of a schedule, the lines of the body are a schedule. Each
/// body that a change puts belongs to the key of the change.
pub fn schedule_body_is_schedule()
    ensures schedule { (file : List (List ℕ)) (change : Change) (lines : List (List ℕ))
        → IsFile file → length file ≤ most_records → Contains (changes file) change
        → change.act ≡ put (schedule_body lines) → IsSchedule lines }
    ensures agrees { (file : List (List ℕ)) (change : Change) (body : Body)
        → IsFile file → length file ≤ most_records → Contains (changes file) change
        → change.act ≡ put body → IsBodyOf change.key body }
{}

/// The changes of a file are the changes of its units, in order. A change has the number of the
/// first record of its unit, which is 2 for the first unit. A schedule makes exactly one change,
/// which deletes its key or puts all its records.
pub fn changes_by_units()
    ensures units { (file : List (List ℕ)) (is : IsFile file)
        → changes file ≡ changes_of_units 2 is.units }
    ensures schedule { (number : ℕ) (basic : List ℕ) (others : List (List ℕ))
        → IsSchedule (basic ∷ others)
        → changes_of_unit number (basic ∷ others) ≡ change_of_schedule number basic others ∷ [] }
{}

/// Two changes of one record have different keys, whatever records follow the record. So two
/// changes of a file that belong to the same record have different keys.
pub fn keys_of_record_differ()
    ensures record { (number : ℕ) (line : List ℕ) (following : List (List ℕ))
        → AllPairs (λ (first second : Change). ¬ (first.key ≡ second.key))
        (changes_of_record number line following) }
    ensures file { (file : List (List ℕ))
        → AllPairs (λ (first second : Change). first.number ≡ second.number
        → ¬ (first.key ≡ second.key)) (changes file) }
{}

/// It is decidable whether records begin some file, whether they are a file, whether they begin
/// some schedule, and whether they are a schedule.
pub fn begins_or_not()
    ensures file { (records : List (List ℕ)) → BeginsFile records ⊎ ¬ BeginsFile records }
    ensures schedule { (lines : List (List ℕ)) → BeginsSchedule lines ⊎ ¬ BeginsSchedule lines }
    ensures whole_file { (records : List (List ℕ)) → IsFile records ⊎ ¬ IsFile records }
    ensures whole_schedule { (lines : List (List ℕ)) → IsSchedule lines ⊎ ¬ IsSchedule lines }
{}

/// After records that begin a schedule, one more record either continues the schedule or is at
/// fault, never both. The fault at a record has exactly one cause.
pub fn schedule_goes_on_or_fault()
    ensures either { (earlier : List (List ℕ)) (line : List ℕ)
        → BeginsSchedule earlier → IsRecord line → BeginsSchedule (earlier ++ line ∷ [])
        ⊎ ((cause : FileCause) × IsScheduleFault earlier line cause) }
    ensures one { (earlier : List (List ℕ)) (line : List ℕ) (first second : FileCause)
        → IsScheduleFault earlier line first → IsScheduleFault earlier line second
        → first ≡ second }
    ensures none { (earlier : List (List ℕ)) (line : List ℕ) (cause : FileCause)
        → BeginsSchedule (earlier ++ line ∷ []) → ¬ IsScheduleFault earlier line cause }
{}

/// A fault that the first bytes of a text determine is the fault of the whole text. These bytes
/// determine at most one fault.
pub fn reported_fault_stays()
    ensures so_far { (limit : ℕ) (text more : List ℕ) (fault : FileFault)
        → IsFaultSoFar limit text fault → IsFaultSoFar limit (text ++ more) fault }
    ensures in_the_end { (limit : ℕ) (text more : List ℕ) (fault : FileFault)
        → IsFaultSoFar limit text fault → IsFileFault limit (text ++ more) fault }
    ensures one { (limit : ℕ) (text : List ℕ) (first second : FileFault)
        → IsFaultSoFar limit text first → IsFaultSoFar limit text second → first ≡ second }
{}

/// The first bytes of a text either determine a fault or satisfy `BeginsWithin`, never both.
/// `BeginsWithin` says that the complete lines begin some file and are within the limit, and that
/// at most 81 bytes follow the last line feed.
pub fn no_fault_in_complete_lines()
    ensures either { (limit : ℕ) (text : List ℕ)
        → ((fault : FileFault) × IsFaultSoFar limit text fault) ⊎ BeginsWithin limit text }
    ensures none { (limit : ℕ) (text : List ℕ) (fault : FileFault)
        → BeginsWithin limit text → ¬ IsFaultSoFar limit text fault }
{}

/// If the first bytes of a text determine no fault, their number is at most `82 * limit + 81`. Here
/// `limit` is the greatest number of records that a file may have.
pub fn text_without_fault_is_bounded()
    ensures { (limit : ℕ) (text : List ℕ) → ((fault : FileFault) → ¬ IsFaultSoFar limit text fault)
        → length text ≤ 82 * limit + 81 }
{}
