// Kinds of label. A label says whose figures a value may depend on; a reader is a label too, and may read
// what is labelled at or below it.
#![tactic(auto)]

ghost use Rattle.std.specs.Prelude.{◌≡◌, ◌≤◌};
ghost use Rattle.labels.specs.Kind.{Kind, Lawful};

pub mod grades;
pub mod makers;

pub use grades::Grade;
pub use makers::MakerSet;

// A kind of label: an order with joins, a lowest label and a rank. Everything above is written once, for every kind.
// The rank's bound is no law of every value but told by the calls: the logic's values of a type may be larger than any that
// memory holds.
pub trait Label: Copy {
    ghost kind: { Kind Self };

    ghost lawful: { Lawful kind };

    // The rank's bound is told here for every label that there is to compare.
    fn at_or_below(self, other: Self) -> bool
        ensures value { result ≡ kind.below self other }
        ensures ranked { kind.rank self ≤ kind.greatest };

    fn join(self, other: Self) -> Self
        ensures value { result ≡ kind.join self other }
        ensures ranked { kind.rank result ≤ kind.greatest };

    fn lowest() -> Self
        ensures value { result ≡ kind.lowest }
        ensures ranked { kind.rank result ≤ kind.greatest };
}
