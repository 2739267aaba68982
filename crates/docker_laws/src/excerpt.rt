//! Laws of excerpts, which leave out entries of a state that the dockers of one place, or of one
//! day, don't need. A walk over a state's entries in key order computes an excerpt. In key order,
//! the schedules of one UID are next to each other. Here they are called a *run*. The walk keeps or
//! drops each run as a whole. A law is a function with an empty body. Its contract states a fact,
//! which holds for all values of the variables.
ghost use Rattle.std.specs.Prelude.{◌≡◌, ℕ, List, [], ◌∷◌, ◌++◌, ◌↔◌, ◌||◌, ◌⊎◌, Contains, filter, Bool, true, false, if◌then◌else◌};
ghost use Rattle.docker_model.specs.file.Change.{Key, schedule_key, ScheduleKey};
ghost use Rattle.docker_model.specs.state.Stamp.{LedgerItem, Stamp};
ghost use Rattle.docker_model.specs.state.Op.{Entry};
ghost use Rattle.docker_model.specs.state.Table.{Table};
ghost use Rattle.docker_model.specs.state.Lapse.{IsDayRefused};
ghost use Rattle.docker_model.specs.state.State.{State, IsValid, IsOpOf, AreAscending, AreEntries, live_table, HasGoodBodies};
ghost use Rattle.docker_model.specs.state.StatePart.{IsAboveEntries, IsStampHere};
ghost use Rattle.docker_model.specs.docker.DockerLine.{DockerLine};
ghost use Rattle.docker_model.specs.docker.DockerList.{IsDockerList};
ghost use Rattle.docker_model.specs.docker.DockerText.{IsDockerText};
ghost use Rattle.docker_laws.specs.NearDay.{may_count, near_entries, near_state};
ghost use Rattle.docker_laws.specs.Thinning.{excerpt_on};
ghost use Rattle.docker_laws.specs.Excerpt.{IsNeeded, IsExcerpt, IsSublist, IsExcerptState};
ghost use Rattle.docker_laws.specs.ExcerptWalk.{ExcerptSoFar, nothing_kept, is_here, has_uid, names_in, is_call, is_run_calling, is_run_needed};
ghost use Rattle.docker_laws.specs.ExcerptWalk.{kept_after_run, goes_on, next_kept, kept_from, kept_so_far, excerpt_for, HasKept};

/// A table and each of its excerpts for a place have the same docker for that place on each day.
pub fn excerpt_has_one_docker()
    ensures list { (place : List ℕ) (live part : Table) (day : ℕ) (lines : List DockerLine)
        → IsExcerpt place live part
        → IsDockerList live place day lines ↔ IsDockerList part place day lines }
    ensures text { (place : List ℕ) (live part : Table) (day : ℕ) (text : List ℕ)
        → IsExcerpt place live part
        → IsDockerText live place day text ↔ IsDockerText part place day text }
    ensures good { (place : List ℕ) (live part : Table)
        → IsExcerpt place live part → HasGoodBodies live → HasGoodBodies part }
{}

/// An excerpt of a valid state for a place is valid. It has the same dockers for the place as the
/// state, and the program refuses them for the same days. The relation "is an excerpt of" is
/// reflexive and transitive.
pub fn excerpt_of_state()
    ensures valid { (place : List ℕ) (state part : State)
        → IsValid state → IsExcerptState place state part → IsValid part }
    ensures refused { (place : List ℕ) (state part : State) (day : ℕ)
        → IsExcerptState place state part
        → IsDayRefused state.horizon day ↔ IsDayRefused part.horizon day }
    ensures list { (place : List ℕ) (state part : State) (day : ℕ) (lines : List DockerLine)
        → IsExcerptState place state part
        → IsDockerList (live_table state) place day lines
        ↔ IsDockerList (live_table part) place day lines }
    ensures text { (place : List ℕ) (state part : State) (day : ℕ) (text : List ℕ)
        → IsExcerptState place state part
        → IsDockerText (live_table state) place day text
        ↔ IsDockerText (live_table part) place day text }
    ensures itself { (place : List ℕ) (state : State) → IsExcerptState place state state }
    ensures again { (place : List ℕ) (state part smaller : State)
        → IsExcerptState place state part → IsExcerptState place part smaller
        → IsExcerptState place state smaller }
{}

/// The result of a walk over a state's entries in key order is an excerpt of the state. An entry of
/// the state is in the excerpt if and only if the docker of the place may depend on its key. The
/// excerpt of a valid state is valid, and has the same dockers for the place as the state.
pub fn walk_leaves_excerpt()
    ensures is { (place : List ℕ) (state : State)
        → AreAscending state.entries → IsExcerptState place state (excerpt_for place state) }
    ensures members { (place : List ℕ) (state : State) (key : Key) (entry : Entry)
        → AreAscending state.entries → Contains (excerpt_for place state).entries (key, entry)
        ↔ (Contains state.entries (key, entry) × IsNeeded (live_table state) place key) }
    ensures valid { (place : List ℕ) (state : State)
        → IsValid state → IsValid (excerpt_for place state) }
    ensures list { (place : List ℕ) (state : State) (day : ℕ) (lines : List DockerLine)
        → IsValid state → IsDockerList (live_table state) place day lines
        ↔ IsDockerList (live_table (excerpt_for place state)) place day lines }
    ensures text { (place : List ℕ) (state : State) (day : ℕ) (text : List ℕ)
        → IsValid state → IsDockerText (live_table state) place day text
        ↔ IsDockerText (live_table (excerpt_for place state)) place day text }
{}

/// The walk that computes an excerpt can stop after any entry and continue from there. The result
/// is the same as without the stop. The walk has a list of kept entries, and a run: the entries for
/// the schedules of the current UID. The kept entries, followed by the run, are a sublist of the
/// entries that the walk has passed. If a state may have the passed entries, it may also have this
/// sublist.
pub fn excerpt_in_a_walk()
    ensures none { (place : List ℕ) → kept_so_far place [] ≡ nothing_kept }
    ensures more { (place : List ℕ) (entries : List (Key × Entry)) (entry : Key × Entry)
        → kept_so_far place (entries ++ entry ∷ [])
        ≡ next_kept place (kept_so_far place entries) entry }
    ensures end { (place : List ℕ) (state : State) → (excerpt_for place state).entries
        ≡ kept_after_run place (kept_so_far place state.entries) }
    ensures from { (place : List ℕ) (front rest : List (Key × Entry))
        → kept_from place (kept_so_far place front) rest
        ≡ kept_after_run place (kept_so_far place (front ++ rest)) }
    ensures from_more { (place : List ℕ) (so_far : ExcerptSoFar) (entry : Key × Entry)
        (rest : List (Key × Entry)) → kept_from place so_far (entry ∷ rest)
        ≡ kept_from place (next_kept place so_far entry) rest }
    ensures from_end { (place : List ℕ) (so_far : ExcerptSoFar)
        → kept_from place so_far [] ≡ kept_after_run place so_far }
    ensures within { (place : List ℕ) (entries : List (Key × Entry))
        → IsSublist ((kept_so_far place entries).kept ++ (kept_so_far place entries).run) entries }
    ensures after_run { (place : List ℕ) (so_far : ExcerptSoFar)
        → IsSublist (kept_after_run place so_far) (so_far.kept ++ so_far.run) }
    ensures good { (place : List ℕ) (ledger : List LedgerItem) (entries : List (Key × Entry))
        → AreEntries ledger entries → AreEntries ledger ((kept_so_far place entries).kept
        ++ (kept_so_far place entries).run) }
{}

/// Each step of the walk that computes an excerpt handles one entry. The walk collects the
/// schedules of one UID in a run. At a TIPLOC or an association the run is empty, because TIPLOCs
/// and associations come before all schedules in key order. A TIPLOC or an association is kept if
/// it is at the place. A schedule with the run's UID is appended to the run. A schedule with
/// another UID ends the run and begins the next run.
pub fn excerpt_by_entry()
    ensures no_run { (place : List ℕ) (state : State) (key : Key)
        → IsAboveEntries state key → ((uid : List ℕ) → has_uid uid key ≡ false)
        → (kept_so_far place state.entries).run ≡ [] }
    ensures here { (place : List ℕ) (so_far : ExcerptSoFar) (key : Key) (entry : Entry)
        → is_here place key ≡ true → so_far.run ≡ [] → next_kept place so_far (key, entry)
        ≡ record { kept = so_far.kept ++ (key, entry) ∷ []; run = [] } }
    ensures elsewhere { (place : List ℕ) (so_far : ExcerptSoFar) (key : Key) (entry : Entry)
        → ((uid : List ℕ) → has_uid uid key ≡ false) → is_here place key ≡ false
        → so_far.run ≡ [] → next_kept place so_far (key, entry) ≡ so_far }
    ensures joins { (place : List ℕ) (so_far : ExcerptSoFar) (key : ScheduleKey) (entry : Entry)
        → goes_on so_far.run key.uid ≡ true → next_kept place so_far (schedule_key key, entry)
        ≡ record { kept = so_far.kept; run = so_far.run ++ (schedule_key key, entry) ∷ [] } }
    ensures begins { (place : List ℕ) (so_far : ExcerptSoFar) (key : ScheduleKey) (entry : Entry)
        → goes_on so_far.run key.uid ≡ false → next_kept place so_far (schedule_key key, entry)
        ≡ record { kept = kept_after_run place so_far; run = (schedule_key key, entry) ∷ [] } }
{}

/// A run consists of all entries for the schedules of one UID. At the end of a run, the walk keeps
/// the whole run if it is needed, and otherwise drops it. A run is needed if its UID belongs to the
/// associated train of a live association at the place, or if one of its live schedules calls at
/// the place.
pub fn run_of_one_uid()
    ensures keeps { (place : List ℕ) (so_far : ExcerptSoFar)
        → is_run_needed place so_far ≡ true
        → kept_after_run place so_far ≡ so_far.kept ++ so_far.run }
    ensures drops { (place : List ℕ) (so_far : ExcerptSoFar)
        → is_run_needed place so_far ≡ false → kept_after_run place so_far ≡ so_far.kept }
    ensures none { (place : List ℕ) (so_far : ExcerptSoFar) → so_far.run ≡ []
        → kept_after_run place so_far ≡ so_far.kept }
    ensures needed { (place : List ℕ) (so_far : ExcerptSoFar) (key : ScheduleKey) (entry : Entry)
        (others : List (Key × Entry)) → so_far.run ≡ (schedule_key key, entry) ∷ others
        → (is_run_needed place so_far ≡ true) ↔ (Contains (names_in so_far.kept) key.uid
        ⊎ ((one : Key × Entry) × Contains so_far.run one × (is_call place one.1.op ≡ true))) }
    ensures calls { (place : List ℕ) (run : List (Key × Entry)) (entry : Key × Entry)
        → is_run_calling place (run ++ entry ∷ [])
        ≡ (is_run_calling place run || is_call place entry.1.op) }
    ensures names { (place : List ℕ) (entries : List (Key × Entry))
        → names_in (kept_so_far place entries).kept
        ≡ names_in (filter (λ (entry : Key × Entry). is_here place entry.0) entries) }
    ensures names_stay { (place : List ℕ) (entries : List (Key × Entry)) (key : ScheduleKey)
        (entry : Entry) → names_in
        (kept_so_far place (entries ++ (schedule_key key, entry) ∷ [])).kept
        ≡ names_in (kept_so_far place entries).kept }
    ensures more_names { (entries : List (Key × Entry)) (entry : Key × Entry)
        → names_in (entries ++ entry ∷ []) ≡ names_in entries ++ names_in (entry ∷ []) }
    ensures one_uid { (place : List ℕ) (entries : List (Key × Entry)) (uid : List ℕ)
        (one : Key × Entry) → goes_on (kept_so_far place entries).run uid ≡ true
        → Contains (kept_so_far place entries).run one → has_uid uid one.0 ≡ true }
{}

/// A loop can compute the excerpt from three values: the kept entries, a run, and a flag that says
/// whether the docker needs the run. The run consists of all entries for the schedules of the
/// current UID. At the start the kept entries and the run are empty. At the end the entries of the
/// excerpt are the kept entries, followed by the run if it is needed.
pub fn excerpt_in_a_loop()
    ensures first { (place : List ℕ) → HasKept place [] [] [] false }
    ensures alone { (place : List ℕ) (state : State) (kept run : List (Key × Entry))
        (needed : Bool) (key : Key) → HasKept place state.entries kept run needed
        → IsAboveEntries state key → ((uid : List ℕ) → has_uid uid key ≡ false) → run ≡ [] }
    ensures here { (place : List ℕ) (state : State) (kept run : List (Key × Entry))
        (needed : Bool) (key : Key) (entry : Entry) → HasKept place state.entries kept run needed
        → IsAboveEntries state key → ((uid : List ℕ) → has_uid uid key ≡ false)
        → is_here place key ≡ true → HasKept place (state.entries ++ (key, entry) ∷ [])
        (kept ++ (key, entry) ∷ []) [] false }
    ensures elsewhere { (place : List ℕ) (state : State) (kept run : List (Key × Entry))
        (needed : Bool) (key : Key) (entry : Entry) → HasKept place state.entries kept run needed
        → IsAboveEntries state key → ((uid : List ℕ) → has_uid uid key ≡ false)
        → is_here place key ≡ false
        → HasKept place (state.entries ++ (key, entry) ∷ []) kept [] false }
    ensures joins { (place : List ℕ) (entries kept run : List (Key × Entry)) (needed : Bool)
        (key : ScheduleKey) (entry : Entry) → HasKept place entries kept run needed
        → goes_on run key.uid ≡ true
        → HasKept place (entries ++ (schedule_key key, entry) ∷ []) kept
        (run ++ (schedule_key key, entry) ∷ []) (needed || is_call place entry.op) }
    ensures begins { (place : List ℕ) (entries kept run : List (Key × Entry)) (needed : Bool)
        (key : ScheduleKey) (entry : Entry) (named : Bool)
        → HasKept place entries kept run needed → goes_on run key.uid ≡ false
        → (named ≡ true) ↔ Contains (names_in kept) key.uid
        → HasKept place (entries ++ (schedule_key key, entry) ∷ [])
        (if needed then kept ++ run else kept) ((schedule_key key, entry) ∷ [])
        (named || is_call place entry.op) }
    ensures last { (place : List ℕ) (state : State) (kept run : List (Key × Entry))
        (needed : Bool) → HasKept place state.entries kept run needed
        → (excerpt_for place state).entries ≡ (if needed then kept ++ run else kept) }
    ensures within { (place : List ℕ) (entries kept run : List (Key × Entry)) (needed : Bool)
        → HasKept place entries kept run needed → IsSublist (kept ++ run) entries }
    ensures good { (place : List ℕ) (entries kept run : List (Key × Entry)) (needed : Bool)
        (ledger : List LedgerItem) → HasKept place entries kept run needed
        → AreEntries ledger entries → AreEntries ledger (kept ++ run) }
{}

/// If entries are left out of a valid state, the state is still valid. An entry that may follow the
/// entries of a state may also follow a sublist of these entries. Each entry of a valid state may
/// follow the entries before it.
pub fn some_of_entries()
    ensures more { (state : State) (key : Key) (entry : Entry)
        → AreEntries state.ledger state.entries → IsStampHere state key entry.stamp
        → IsOpOf key entry.op
        → AreEntries state.ledger (state.entries ++ (key, entry) ∷ []) }
    ensures still { (state part : State) (key : Key) (stamp : Stamp)
        → IsSublist part.entries state.entries → part.ledger ≡ state.ledger
        → IsStampHere state key stamp → IsStampHere part key stamp }
    ensures behind { (state : State) (key : Key) (entry : Entry) (rest : List (Key × Entry))
        → AreEntries state.ledger (state.entries ++ (key, entry) ∷ rest)
        → IsStampHere state key entry.stamp × IsOpOf key entry.op }
    ensures some { (ledger : List LedgerItem) (some all : List (Key × Entry))
        → AreEntries ledger all → IsSublist some all → AreEntries ledger some }
    ensures valid { (state part : State) → IsValid state → part.horizon ≡ state.horizon
        → part.ledger ≡ state.ledger → IsSublist part.entries state.entries → IsValid part }
{}

/// Schedules that run on no start day near a day may be left out of a valid state. The state
/// without them is valid and has the same dockers on the day. Its horizon is unchanged, so the
/// program refuses dockers for the same days.
pub fn near_state_has_one_docker()
    ensures valid { (day : ℕ) (state : State) → IsValid state → IsValid (near_state day state) }
    ensures refused { (day other : ℕ) (state : State)
        → IsDayRefused state.horizon other ↔ IsDayRefused (near_state day state).horizon other }
    ensures list { (place : List ℕ) (day : ℕ) (state : State) (lines : List DockerLine)
        → IsValid state → IsDockerList (live_table state) place day lines
        ↔ IsDockerList (live_table (near_state day state)) place day lines }
    ensures text { (place : List ℕ) (day : ℕ) (state : State) (text : List ℕ)
        → IsValid state → IsDockerText (live_table state) place day text
        ↔ IsDockerText (live_table (near_state day state)) place day text }
{}

/// The excerpt of a valid state for a place and a day is valid, and has the same docker for this
/// place and day as the state. Its horizon is unchanged, so the program refuses dockers for the
/// same days.
pub fn excerpt_on_has_one_docker()
    ensures valid { (place : List ℕ) (day : ℕ) (state : State)
        → IsValid state → IsValid (excerpt_on place day state) }
    ensures refused { (place : List ℕ) (day other : ℕ) (state : State)
        → IsDayRefused state.horizon other
        ↔ IsDayRefused (excerpt_on place day state).horizon other }
    ensures list { (place : List ℕ) (day : ℕ) (state : State) (lines : List DockerLine)
        → IsValid state → IsDockerList (live_table state) place day lines
        ↔ IsDockerList (live_table (excerpt_on place day state)) place day lines }
    ensures text { (place : List ℕ) (day : ℕ) (state : State) (text : List ℕ)
        → IsValid state → IsDockerText (live_table state) place day text
        ↔ IsDockerText (live_table (excerpt_on place day state)) place day text }
{}

/// The entries of a state that may count on a day can be found entry by entry. Each entry that may
/// count is appended to the result, and any other entry leaves the result unchanged.
pub fn near_by_entry()
    ensures none { (day : ℕ) → near_entries day [] ≡ [] }
    ensures stays { (day : ℕ) (entries : List (Key × Entry)) (entry : Key × Entry)
        → may_count day entry.1.op ≡ true
        → near_entries day (entries ++ entry ∷ []) ≡ near_entries day entries ++ entry ∷ [] }
    ensures goes { (day : ℕ) (entries : List (Key × Entry)) (entry : Key × Entry)
        → may_count day entry.1.op ≡ false
        → near_entries day (entries ++ entry ∷ []) ≡ near_entries day entries }
{}
