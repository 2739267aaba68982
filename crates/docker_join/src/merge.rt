//! Values that can be joined in any order, any number of times.
ghost use Rattle.std.specs.Prelude.{◌≡◌, IfOk, IfErr};

use std::alloc::Global;

/// A type whose values can be joined. For valid values the join is commutative, associative and
/// idempotent, as long as it doesn't run out of memory.
///
/// The programs join only states. The crates also implement the trait, with the same laws, for file
/// stamps, stamps, entries and tables. A program that uses these crates can join such values, too.
pub trait Merge: Sized {
    // Says that a value is valid. The laws hold for valid values.
    ghost is_valid: { Self → Type 0 };

    // Says that the third value is the join of the first two.
    ghost is_join: { Self → Self → Self → Type 0 };

    /// Joins two values. If memory runs out, returns both unchanged.
    fn join(self, alloc: Global, other: Self) -> Result<Self, (Self, Self)>
        ensures ok { IfOk result (is_join self other) }
        ensures err { IfErr result (λ both. (both.0 ≡ self) × (both.1 ≡ other)) };

    // the join of two valid values is valid
    ghost closed: { (a b c : Self) → is_valid a → is_valid b → is_join a b c → is_valid c };

    // two valid values have at most one join
    ghost one: { (a b c d : Self) → is_valid a → is_valid b → is_join a b c → is_join a b d
        → c ≡ d };

    ghost commutative: { (a b c : Self) → is_valid a → is_valid b → is_join a b c → is_join b a c };

    ghost associative: { (a b c ab bc left right : Self) → is_valid a → is_valid b → is_valid c
        → is_join a b ab → is_join ab c left → is_join b c bc → is_join a bc right → left ≡ right };

    ghost idempotent: { (a : Self) → is_valid a → is_join a a a };
}

/// A type whose values can be joined without allocating memory.
pub trait Pick: Merge {
    // the value that `pick` returns
    ghost picked: { Self → Self → Self };

    /// Joins two values.
    fn pick(self, other: Self) -> Self
        ensures { result ≡ picked self other };

    ghost joins: { (a b : Self) → Self.is_join a b (picked a b) };
}
