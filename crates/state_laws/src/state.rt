//! Laws of states: summaries, joins, horizons, and the table of a summary. A law is a function with
//! an empty body. Its contract states a fact, which holds for all values of the variables.
ghost use Rattle.std.specs.Prelude.{◌≡◌, ℕ, ◌+◌, List, ◌++◌, ◌↔◌, ◌≤◌, All, Contains, Option, length, map, max};
ghost use Rattle.docker_model.specs.file.Change.{Key};
ghost use Rattle.docker_model.specs.state.Stamp.{FileStamp, IsFloor};
ghost use Rattle.docker_model.specs.state.Lapse.{lapse, lapse_entry, lapse_entries, lapse_table};
ghost use Rattle.docker_model.specs.state.Order.{IsAtMost};
ghost use Rattle.docker_model.specs.state.Op.{Op, op_cmp, Entry};
ghost use Rattle.docker_model.specs.state.State.{State, IsGreatestAmong, raise_horizon, IsValid, IsJoin, live_table};
ghost use Rattle.docker_model.specs.records.Date.{IsDay};
ghost use Rattle.docker_model.specs.state.Summary.{IsSummary, HaveDistinctMoments};
ghost use Rattle.docker_model.specs.state.Table.{Table, IsPlainTable};
ghost use Rattle.docker_model.specs.file.File.{IsFile, most_records};
ghost use Rattle.state_laws.specs.LawTerms.{first_full_stamp};

/// For each horizon, a set of files has at most one summary. The order of the list of files makes
/// no difference.
pub fn one_summary()
    ensures { (files others : List (List (List ℕ)))
        → ((file : List (List ℕ)) → Contains files file ↔ Contains others file) → (horizon : ℕ)
        (one two : State) → IsSummary files horizon one → IsSummary others horizon two → one ≡ two }
{}

/// The join of two summaries is the summary of both sets of files together, with the greater of the
/// two horizons.
pub fn join_of_summaries()
    ensures { (files others : List (List (List ℕ))) (g h : ℕ) (one two joined : State)
        → IsSummary files g one → IsSummary others h two → IsJoin one two joined
        → IsSummary (files ++ others) (max g h) joined }
{}

/// If the files of a set have distinct moments, lapsing their plain table with a horizon gives the
/// live table of their summary with this horizon.
pub fn live_table_of_summary()
    ensures none { (files : List (List (List ℕ))) (state : State)
        → IsSummary files 0 state → HaveDistinctMoments files
        → IsPlainTable files (live_table state) }
    ensures lapsed { (files : List (List (List ℕ))) (horizon : ℕ) (state : State) (table : Table)
        → IsSummary files horizon state → IsPlainTable files table
        → live_table state ≡ lapse_table horizon table }
{}

/// A set of files with distinct moments has exactly one plain table.
pub fn one_plain_table()
    ensures some { (files : List (List (List ℕ))) → HaveDistinctMoments files
        → (table : Table) × IsPlainTable files table }
    ensures one { (files : List (List (List ℕ))) (one two : Table)
        → IsPlainTable files one → IsPlainTable files two → one ≡ two }
{}

/// The join of states is commutative, associative and, for valid states, idempotent. Two states
/// have at most one join.
pub fn laws_of_join()
    ensures commutative { (a b c : State) → IsJoin a b c → IsJoin b a c }
    ensures associative { (a b c ab bc left right : State) → IsJoin a b ab → IsJoin ab c left
        → IsJoin b c bc → IsJoin a bc right → left ≡ right }
    ensures idempotent { (a : State) → IsValid a → IsJoin a a a }
    ensures one { (a b c d : State) → IsJoin a b c → IsJoin a b d → c ≡ d }
{}

/// The join of two valid states is valid.
pub fn join_is_valid()
    ensures { (first second joined : State) → IsValid first → IsValid second
        → IsJoin first second joined → IsValid joined }
{}

/// The ledger of a valid state has exactly one floor: the file stamp of its first full extract, or
/// `None` if the ledger has no full extract.
pub fn floor_of_ledger()
    ensures one { (state : State) (first second : Option FileStamp)
        → IsValid state → IsFloor state.ledger first → IsFloor state.ledger second
        → first ≡ second }
    ensures first { (state : State) → IsValid state
        → IsFloor state.ledger (first_full_stamp state.ledger) }
{}

/// If each file of a set has at most 4,294,967,294 records, the summary of the set, with any day
/// number as its horizon, is a valid state.
pub fn summary_is_valid()
    ensures { (files : List (List (List ℕ))) (horizon : ℕ) (state : State)
        → IsDay horizon → All IsFile files → All (λ file. length file ≤ most_records) files
        → IsSummary files horizon state → IsValid state }
{}

/// Lapsing is monotone: it preserves the order of ops, so it maps the greatest op of a list to the
/// greatest op of the lapsed list. Lapsing is idempotent. Lapsing with one horizon and then with
/// another equals lapsing with the greater of the two horizons. With the horizon 0, lapsing leaves
/// each op unchanged.
pub fn laws_of_lapse()
    ensures order { (horizon : ℕ) (first second : Op) → IsAtMost op_cmp first second
        → IsAtMost op_cmp (lapse horizon first) (lapse horizon second) }
    ensures again { (horizon : ℕ) (op : Op) → lapse horizon (lapse horizon op) ≡ lapse horizon op }
    ensures twice { (second first : ℕ) (op : Op)
        → lapse second (lapse first op) ≡ lapse (max second first) op }
    ensures none { (op : Op) → lapse 0 op ≡ op }
    ensures greatest { (horizon : ℕ) (ops : List Op) (op : Op)
        → Contains ops op → ((other : Op) → Contains ops other → IsAtMost op_cmp other op)
        → Contains (map (lapse horizon) ops) (lapse horizon op)
        × ((other : Op) → Contains (map (lapse horizon) ops) other
        → IsAtMost op_cmp other (lapse horizon op)) }
    ensures of_key { (horizon : ℕ) (entries : List (Key × Entry)) (key : Key) (entry : Entry)
        → IsGreatestAmong entries key entry
        → IsGreatestAmong (lapse_entries horizon entries) key (lapse_entry horizon entry) }
{}

/// If a horizon is a day number, a valid state is still valid after this horizon is set. Setting a
/// horizon that isn't greater than the state's horizon leaves a valid state unchanged, since all
/// bodies that ended before the state's horizon have lapsed already.
pub fn laws_of_setting()
    ensures valid { (horizon : ℕ) (state : State) → IsDay horizon → IsValid state
        → IsValid (raise_horizon horizon state) }
    ensures not_greater { (horizon : ℕ) (state : State) → IsValid state → horizon ≤ state.horizon
        → raise_horizon horizon state ≡ state }
    ensures stays { (state : State) (key : Key) (entry : Entry)
        → IsValid state → Contains state.entries (key, entry)
        → lapse_entry state.horizon entry ≡ entry }
{}

/// Setting a horizon on a summary gives the summary with the greater of the two horizons.
pub fn setting_on_summary()
    ensures { (files : List (List (List ℕ))) (g h : ℕ) (state : State)
        → IsSummary files g state → IsSummary files (max g h) (raise_horizon h state) }
{}
