//! Laws of receiving a state from a stream: the entries that are staged, and the state after a
//! commit. A law is a function with an empty body. Its contract states a fact, which holds for all
//! values of the variables.
ghost use Rattle.std.specs.Prelude.{◌≡◌, ◌+◌, List, [], ◌∷◌, ◌++◌, ◌↔◌, Contains, Option, Some};
ghost use Rattle.docker_model.specs.file.Change.{Key};
ghost use Rattle.docker_model.specs.state.Stamp.{LedgerItem, FileStamp, IsFloor, IsKept};
ghost use Rattle.docker_model.specs.state.Op.{Entry, key_cmp};
ghost use Rattle.docker_model.specs.state.State.{State, AreAscending, IsValid, IsJoin, raise_horizon, entry_at};
ghost use Rattle.state_laws.specs.LawTerms.{without_horizon, HoldsOnceCommitted};
ghost use Rattle.std.specs.declared.cmp.Ordering.TheVariants.{Less};
ghost use Rattle.state_laws.specs.Staging.{IsGreaterThan, IsToStage, IsStaged, IsCommit, staged_state};

/// A state is received in three steps: all its entries are passed on for staging, the staged
/// entries are committed, and then its horizon is set. The result is the join of the receiving
/// state with the received state. Before the horizon is set, the result is the join of the
/// receiving state with the received state without its horizon. The state after the commit is also
/// the join of the receiving state with a state that has only the received ledger items and the
/// staged entries.
pub fn staging_and_commit_is_join()
    ensures join { (own received : State) (floor : Option FileStamp) (staged : List (Key × Entry))
        (after : State)
        → HoldsOnceCommitted own received floor staged after
        (IsJoin own received (raise_horizon received.horizon after)) }
    ensures before_horizon { (own received : State) (floor : Option FileStamp)
        (staged : List (Key × Entry)) (after : State)
        → HoldsOnceCommitted own received floor staged after
        (IsJoin own (without_horizon received) after) }
    ensures stays_valid { (own received : State) (floor : Option FileStamp)
        (staged : List (Key × Entry)) (after : State)
        → HoldsOnceCommitted own received floor staged after (IsValid after) }
    ensures valid { (own received : State) (floor : Option FileStamp) (staged : List (Key × Entry))
        → IsValid received → IsStaged own floor received.entries staged
        → IsValid (staged_state received.ledger staged) }
    ensures by_join { (own received : State) (floor : Option FileStamp)
        (staged : List (Key × Entry)) (after : State) → AreAscending own.entries
        → IsFloor (own.ledger ++ received.ledger) floor → IsStaged own floor received.entries staged
        → IsJoin own (staged_state received.ledger staged) after
        → IsCommit own received.ledger staged after }
    ensures one_staged { (own : State) (floor : Option FileStamp)
        (offered first second : List (Key × Entry)) → IsStaged own floor offered first
        → IsStaged own floor offered second → first ≡ second }
    ensures one_commit { (own : State) (items : List LedgerItem) (staged : List (Key × Entry))
        (first second : State) → IsCommit own items staged first → IsCommit own items staged second
        → first ≡ second }
{}

/// The horizon of a received state may be set last. If the horizon of a state is removed and set
/// again, the result is the same state. If a received state is joined without its horizon, and this
/// horizon is set afterwards, the result is the join of the receiving state with the whole received
/// state.
pub fn horizon_is_set_last()
    ensures state { (state : State) → IsValid state
        → raise_horizon state.horizon (without_horizon state) ≡ state }
    ensures join { (own received joined : State) → IsJoin own (without_horizon received) joined
        → IsJoin own received (raise_horizon received.horizon joined) }
{}

/// Entries are staged one by one, as they are offered for staging. As long as no entry has been
/// offered, no entry is staged. An offered entry is staged if it isn't below the floor, and the
/// receiving state has no equal or greater entry for the same key.
pub fn offers_are_staged()
    ensures none { (own : State) (floor : Option FileStamp) → IsStaged own floor [] [] }
    ensures test { (own : State) → AreAscending own.entries → (floor : Option FileStamp) (key : Key)
        (entry : Entry) → IsToStage own floor key entry
        ↔ (IsKept floor entry.stamp.file × IsGreaterThan (entry_at own key) entry) }
    ensures staged { (own : State) (floor : Option FileStamp) (offered staged : List (Key × Entry))
        (key : Key) (entry : Entry) → IsStaged own floor offered staged
        → ((other : Key × Entry) → Contains staged other → key_cmp other.0 key ≡ Less)
        → IsToStage own floor key entry → IsStaged own floor (offered ++ (key, entry) ∷ [])
        (staged ++ (key, entry) ∷ []) }
    ensures left_out { (own : State) (floor : Option FileStamp)
        (offered staged : List (Key × Entry)) (key : Key) (entry : Entry)
        → IsStaged own floor offered staged → ¬ IsToStage own floor key entry
        → IsStaged own floor (offered ++ (key, entry) ∷ []) staged }
    ensures own { (own : State) (floor : Option FileStamp) → IsStaged own floor own.entries [] }
    ensures entry { (state : State) → AreAscending state.entries → (key : Key) (entry : Entry)
        → (entry_at state key ≡ Some entry) ↔ Contains state.entries (key, entry) }
{}
