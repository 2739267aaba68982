//! Laws of thinning, which drops the changes of a file that the docker of one place on one day
//! doesn't need. Each change is judged by itself. A law is a function with an empty body. Its
//! contract states a fact, which holds for all values of the variables.
ghost use Rattle.std.specs.Prelude.{◌≡◌, ℕ, ◌-◌, ◌^◌, ◌<◌, ◌≤◌, Contains, List, [], ◌∷◌, ◌++◌, ◌↔◌, length, fold, true, false};
ghost use Rattle.docker_model.specs.records.Record.{IsRecord, HasKind, basic_schedule, origin_location, terminating_location};
ghost use Rattle.docker_model.specs.records.Field.{HasGoodFields, as_new};
ghost use Rattle.docker_model.specs.file.Journey.{calls_at};
ghost use Rattle.docker_model.specs.file.File.{IsFile, first_record, most_records};
ghost use Rattle.docker_model.specs.file.Change.{Key, ScheduleKey, delete, put, Body, tiploc_body, association_body, schedule_body, Change, changes};
ghost use Rattle.docker_model.specs.state.Order.{IsBelow, IsAtMost};
ghost use Rattle.docker_model.specs.state.Op.{key_cmp, op_of};
ghost use Rattle.docker_model.specs.state.Table.{Table, empty_table, after_change, after_file};
ghost use Rattle.docker_model.specs.state.State.{State, IsValid, IsGoodKey, IsOpOf, IsJoin, IsScheduleOf, IsBodyOf, live_table, HasGoodBodies};
ghost use Rattle.docker_model.specs.state.Summary.{IsSummary};
ghost use Rattle.docker_model.specs.docker.DockerLine.{DockerLine};
ghost use Rattle.docker_model.specs.docker.DockerList.{IsDockerList};
ghost use Rattle.docker_model.specs.docker.DockerText.{IsDockerText};
ghost use Rattle.docker_laws.specs.NearDay.{runs_near, may_reach};
ghost use Rattle.docker_laws.specs.Excerpt.{IsExcerpt};
ghost use Rattle.docker_laws.specs.StandIn.{IsStandIn, StandsFor};
ghost use Rattle.docker_laws.specs.Thinning.{ends_elsewhere, thin_lines, lines_for, body_for, may_matter, thinned, thin_act, thin_change};
ghost use Rattle.docker_laws.specs.Thinning.{thin_changes, table_of, IsThinning, HasNoChangeOf, AreAtMost, without, IsStateOfChanges, wanted_changes, HasUidsOf};
ghost use Rattle.docker_laws.specs.Thinning.{shortened};
ghost use Rattle.docker_laws.specs.FileSummary.{summary_of};

/// Suppose that the bodies of a table are well formed. For a place and a day, the table and its
/// thinned table have the same docker. The bodies of the thinned table are well formed too.
pub fn thinned_table_has_one_docker()
    ensures list { (place : List ℕ) (day : ℕ) (live : Table) (lines : List DockerLine)
        → HasGoodBodies live → IsDockerList live place day lines
        ↔ IsDockerList (thinned place day live) place day lines }
    ensures text { (place : List ℕ) (day : ℕ) (live : Table) (text : List ℕ)
        → HasGoodBodies live → IsDockerText live place day text
        ↔ IsDockerText (thinned place day live) place day text }
    ensures good { (place : List ℕ) (day : ℕ) (live : Table)
        → HasGoodBodies live → HasGoodBodies (thinned place day live) }
{}

/// Suppose that a table is thinned for a place and a day, and that an excerpt of the thinned table
/// is made for the place. The excerpt and the whole table have the same docker for the place and
/// the day.
pub fn excerpt_of_thinned_has_one_docker()
    ensures list { (place : List ℕ) (day : ℕ) (live part : Table) (lines : List DockerLine)
        → HasGoodBodies live → IsExcerpt place (thinned place day live) part
        → IsDockerList live place day lines ↔ IsDockerList part place day lines }
    ensures text { (place : List ℕ) (day : ℕ) (live part : Table) (text : List ℕ)
        → HasGoodBodies live → IsExcerpt place (thinned place day live) part
        → IsDockerText live place day text ↔ IsDockerText part place day text }
{}

/// If one table may replace another for a place and a day, both have the same docker for that place
/// and that day. The bodies of both tables must be well formed. A table may be replaced by its
/// thinned table.
pub fn stand_in_has_one_docker()
    ensures list { (place : List ℕ) (day : ℕ) (live part : Table) (lines : List DockerLine)
        → HasGoodBodies live → HasGoodBodies part → StandsFor place day live part
        → IsDockerList live place day lines ↔ IsDockerList part place day lines }
    ensures text { (place : List ℕ) (day : ℕ) (live part : Table) (text : List ℕ)
        → HasGoodBodies live → HasGoodBodies part → StandsFor place day live part
        → IsDockerText live place day text ↔ IsDockerText part place day text }
    ensures thinned { (place : List ℕ) (day : ℕ) (live : Table)
        → HasGoodBodies live → StandsFor place day live (thinned place day live) }
{}

/// Of a schedule that calls at a place, a valid state may keep only the records that the docker of
/// the place and a day needs. A schedule that runs on no start day near the day may be left out. The
/// state is still valid, and has the same docker for this place and day.
pub fn shortened_state_has_one_docker()
    ensures valid { (place : List ℕ) (day : ℕ) (state : State)
        → IsValid state → IsValid (shortened place day state) }
    ensures list { (place : List ℕ) (day : ℕ) (state : State) (lines : List DockerLine)
        → IsValid state → IsDockerList (live_table state) place day lines
        ↔ IsDockerList (live_table (shortened place day state)) place day lines }
    ensures text { (place : List ℕ) (day : ℕ) (state : State) (text : List ℕ)
        → IsValid state → IsDockerText (live_table state) place day text
        ↔ IsDockerText (live_table (shortened place day state)) place day text }
{}

/// For the docker of a place and a day, the records of a schedule that `lines_for` keeps may
/// replace the schedule. It may also be replaced by any records that have the same first record and
/// don't call at the place. But then it may not call there itself, or no event of it may be on the
/// day. The first record, followed by any origin and any terminus with good fields, forms a
/// schedule with the same key.
pub fn stand_in_of_a_schedule()
    ensures needed { (place : List ℕ) (day : ℕ) (lines : List (List ℕ))
        → HasKind basic_schedule (first_record lines)
        → IsStandIn place day lines (lines_for place day lines) }
    ensures other_day { (place : List ℕ) (day : ℕ) (whole lines : List (List ℕ))
        → first_record lines ≡ first_record whole → may_reach day whole ≡ false
        → calls_at place lines ≡ false → IsStandIn place day whole lines }
    ensures first { (place : List ℕ) (day : ℕ) (whole lines : List (List ℕ))
        → first_record lines ≡ first_record whole → calls_at place whole ≡ false
        → calls_at place lines ≡ false → IsStandIn place day whole lines }
    ensures ends { (key : ScheduleKey) (lines : List (List ℕ)) → IsScheduleOf key lines
        → (first last : List ℕ) → IsRecord first → IsRecord last
        → HasKind origin_location first → HasKind terminating_location last
        → HasGoodFields first → HasGoodFields last
        → IsScheduleOf key (first_record lines ∷ first ∷ last ∷ []) }
{}

/// A body, and the body that the docker of a place needs instead of it, belong to the same key. The
/// thin records of a schedule form a schedule with the same key and the same first record. They
/// don't call at the place if the schedule doesn't.
pub fn thin_body_is_of_its_key()
    ensures of_key { (place : List ℕ) (key : ScheduleKey) (lines : List (List ℕ))
        → IsScheduleOf key lines → IsScheduleOf key (thin_lines place (first_record lines)) }
    ensures body { (place : List ℕ) (day : ℕ) (key : Key) (body : Body)
        → IsBodyOf key body → IsBodyOf key (body_for place day body) }
    ensures ends { (place : List ℕ) → calls_at place (ends_elsewhere place) ≡ false }
    ensures elsewhere { (place : List ℕ) (lines : List (List ℕ)) → calls_at place lines ≡ false
        → calls_at place (thin_lines place (first_record lines)) ≡ false }
{}

/// If a schedule runs on no start day near the day, the thin form of its put is a deletion.
/// Otherwise, if the schedule doesn't call at the place, or no event of it may be on the day, the
/// thin form is a put of the thin records. Any other act is unchanged. Whether a schedule runs on a
/// start day near the day doesn't depend on its transaction.
pub fn thin_act_by_case()
    ensures deletes { (place : List ℕ) (day : ℕ) → thin_act place day delete ≡ delete }
    ensures tiploc { (place : List ℕ) (day : ℕ) (bytes : List ℕ)
        → thin_act place day (put (tiploc_body bytes)) ≡ put (tiploc_body bytes) }
    ensures association { (place : List ℕ) (day : ℕ) (line : List ℕ)
        → thin_act place day (put (association_body line)) ≡ put (association_body line) }
    ensures far { (place : List ℕ) (day : ℕ) (lines : List (List ℕ))
        → runs_near day (first_record lines) ≡ false
        → thin_act place day (put (schedule_body lines)) ≡ delete }
    ensures calls { (place : List ℕ) (day : ℕ) (lines : List (List ℕ))
        → runs_near day (first_record lines) ≡ true → calls_at place lines ≡ true
        → may_reach day lines ≡ true
        → thin_act place day (put (schedule_body lines)) ≡ put (schedule_body lines) }
    ensures thin { (place : List ℕ) (day : ℕ) (lines : List (List ℕ))
        → runs_near day (first_record lines) ≡ true → calls_at place lines ≡ false
        → thin_act place day (put (schedule_body lines))
        ≡ put (schedule_body (thin_lines place (first_record lines))) }
    ensures other_day { (place : List ℕ) (day : ℕ) (lines : List (List ℕ))
        → runs_near day (first_record lines) ≡ true → may_reach day lines ≡ false
        → thin_act place day (put (schedule_body lines))
        ≡ put (schedule_body (thin_lines place (first_record lines))) }
    ensures renewed { (day : ℕ) (line : List ℕ)
        → runs_near day (as_new line) ≡ runs_near day line }
{}

/// A thinning can be made change by change. A change to a key that can't matter to the docker of
/// the place may be dropped, and any other change may be kept in its thin form. A deletion may be
/// dropped if no change to its key is kept. When a key is deleted or put again, the kept changes to
/// that key may be removed.
pub fn thinning_change_by_change()
    ensures first { (place : List ℕ) (day : ℕ) → IsThinning place day [] [] }
    ensures elsewhere { (place : List ℕ) (day : ℕ) (all kept : List Change) (change : Change)
        → IsThinning place day all kept → may_matter place change.key ≡ false
        → IsThinning place day (all ++ change ∷ []) kept }
    ensures keeps { (place : List ℕ) (day : ℕ) (all kept : List Change) (change : Change)
        → IsThinning place day all kept → may_matter place change.key ≡ true
        → IsThinning place day (all ++ change ∷ []) (kept ++ thin_change place day change ∷ []) }
    ensures drops { (place : List ℕ) (day : ℕ) (all kept : List Change) (change : Change)
        → IsThinning place day all kept → thin_act place day change.act ≡ delete
        → HasNoChangeOf change.key kept → IsThinning place day (all ++ change ∷ []) kept }
    ensures removes { (place : List ℕ) (day : ℕ) (all kept : List Change) (change : Change)
        → IsThinning place day all kept → thin_act place day change.act ≡ delete
        → IsThinning place day (all ++ change ∷ []) (without change.key kept) }
    ensures replaces { (place : List ℕ) (day : ℕ) (all kept : List Change) (change : Change)
        → IsThinning place day all kept → may_matter place change.key ≡ true
        → IsThinning place day (all ++ change ∷ [])
        (without change.key kept ++ thin_change place day change ∷ []) }
    ensures more { (place : List ℕ) (day : ℕ) (all kept more : List Change)
        → IsThinning place day all kept
        → IsThinning place day (all ++ more) (kept ++ thin_changes place day more) }
    ensures whole { (place : List ℕ) (day : ℕ) (all : List Change)
        → IsThinning place day all (thin_changes place day all) }
{}

/// If a key is above the keys of all kept changes, no change to this key is kept. So a reader that
/// knows the greatest key of the kept changes may drop a deletion of a higher key without a search.
pub fn nothing_kept_of_a_key_above()
    ensures none { (highest key : Key) (kept : List Change)
        → AreAtMost highest kept → IsBelow key_cmp highest key → HasNoChangeOf key kept }
    ensures first { (highest : Key) → AreAtMost highest [] }
    ensures more { (highest : Key) (kept : List Change) (change : Change)
        → AreAtMost highest kept → IsAtMost key_cmp change.key highest
        → AreAtMost highest (kept ++ change ∷ []) }
    ensures raised { (highest : Key) (kept : List Change) (change : Change)
        → AreAtMost highest kept → IsBelow key_cmp highest change.key
        → AreAtMost change.key (kept ++ change ∷ []) }
{}

/// A reader may keep the thin forms of only some changes. The table after the kept changes equals
/// the thinned table after all changes. Applying the thin changes to a thinned table gives the same
/// table as applying all changes to the table and then thinning the result. The kept changes of a
/// file are well formed.
pub fn kept_changes_make_the_thinned_table()
    ensures table { (place : List ℕ) (day : ℕ) (all kept : List Change) (key : Key)
        → IsThinning place day all kept
        → table_of kept key ≡ thinned place day (table_of all) key }
    ensures over { (place : List ℕ) (day : ℕ) (table : Table) (all : List Change) (key : Key)
        → fold after_change (thinned place day table) (thin_changes place day all) key
        ≡ thinned place day (fold after_change table all) key }
    ensures file { (file : List (List ℕ)) → table_of (changes file) ≡ after_file empty_table file }
    ensures good { (place : List ℕ) (day : ℕ) (file : List (List ℕ)) (kept : List Change)
        (change : Change) → IsFile file → length file ≤ most_records
        → IsThinning place day (changes file) kept → Contains kept change
        → IsGoodKey change.key × IsOpOf change.key (op_of change.act) }
    ensures numbers { (place : List ℕ) (day : ℕ) (file : List (List ℕ)) (kept : List Change)
        (change : Change) → IsFile file → length file ≤ most_records
        → IsThinning place day (changes file) kept → Contains kept change
        → (2 ≤ change.number) × (change.number < 2 ^ 32 - 1) }
{}

/// A state that is made from the kept changes of a file is valid. Its live table is the table of
/// the file, thinned for the place and the day. The state and the summary of the file have the same
/// docker for the place and the day.
pub fn state_of_thinning_has_one_docker()
    ensures valid { (place : List ℕ) (day : ℕ) (file : List (List ℕ)) (kept : List Change)
        (part : State) → IsFile file → length file ≤ most_records
        → IsThinning place day (changes file) kept → IsStateOfChanges file kept part
        → IsValid part }
    ensures live { (place : List ℕ) (day : ℕ) (file : List (List ℕ)) (kept : List Change)
        (part : State) → IsThinning place day (changes file) kept → IsStateOfChanges file kept part
        → live_table part ≡ thinned place day (after_file empty_table file) }
    ensures list { (place : List ℕ) (day : ℕ) (file : List (List ℕ)) (kept : List Change)
        (part whole : State) → IsFile file → length file ≤ most_records
        → IsThinning place day (changes file) kept → IsStateOfChanges file kept part
        → IsSummary (file ∷ []) 0 whole → (lines : List DockerLine)
        → IsDockerList (live_table whole) place day lines
        ↔ IsDockerList (live_table part) place day lines }
    ensures text { (place : List ℕ) (day : ℕ) (file : List (List ℕ)) (kept : List Change)
        (part whole : State) → IsFile file → length file ≤ most_records
        → IsThinning place day (changes file) kept → IsStateOfChanges file kept part
        → IsSummary (file ∷ []) 0 whole → (text : List ℕ)
        → IsDockerText (live_table whole) place day text
        ↔ IsDockerText (live_table part) place day text }
{}

/// Of the changes of a thinning, those to schedules that the docker of the place doesn't need may be
/// dropped. The other changes of a file make a valid state. This state and the summary of the file
/// have the same docker for the place and the day.
pub fn wanted_changes_have_one_docker()
    ensures valid { (place : List ℕ) (day : ℕ) (file : List (List ℕ)) (kept : List Change)
        (uids : List (List ℕ)) (part : State) → IsFile file → length file ≤ most_records
        → IsThinning place day (changes file) kept
        → IsStateOfChanges file (wanted_changes uids kept) part → IsValid part }
    ensures list { (place : List ℕ) (day : ℕ) (file : List (List ℕ)) (kept : List Change)
        (uids : List (List ℕ)) (part whole : State) → IsFile file → length file ≤ most_records
        → IsThinning place day (changes file) kept → HasUidsOf place kept uids
        → IsStateOfChanges file (wanted_changes uids kept) part
        → IsSummary (file ∷ []) 0 whole → (lines : List DockerLine)
        → IsDockerList (live_table whole) place day lines
        ↔ IsDockerList (live_table part) place day lines }
    ensures text { (place : List ℕ) (day : ℕ) (file : List (List ℕ)) (kept : List Change)
        (uids : List (List ℕ)) (part whole : State) → IsFile file → length file ≤ most_records
        → IsThinning place day (changes file) kept → HasUidsOf place kept uids
        → IsStateOfChanges file (wanted_changes uids kept) part
        → IsSummary (file ∷ []) 0 whole → (text : List ℕ)
        → IsDockerText (live_table whole) place day text
        ↔ IsDockerText (live_table part) place day text }
{}

/// `summary_of` computes the summary of one file, and this summary is valid. The join of an empty
/// state with a valid state is the valid state. The live table of the summary of a file equals the
/// table after the file's changes.
pub fn summary_of_one_file()
    ensures is { (file : List (List ℕ)) → IsSummary (file ∷ []) 0 (summary_of file) }
    ensures valid { (file : List (List ℕ)) → IsFile file → length file ≤ most_records
        → IsValid (summary_of file) }
    ensures joined { (state : State) → IsValid state
        → IsJoin (record { horizon = 0; ledger = []; entries = [] }) state state }
    ensures live { (file : List (List ℕ)) (state : State) → IsSummary (file ∷ []) 0 state
        → live_table state ≡ after_file empty_table file }
{}
