// What a set of numbers for one register answers.
ghost use Rattle.std.specs.Prelude.{◌≡◌, ℕ};
ghost use Rattle.number_sets.specs.Exact.{ExactSets};
ghost use Rattle.number_sets.specs.Pairs.{both, turned};
ghost use Rattle.number_sets.specs.Sets.{NumberSets, LawfulSets};

use model::expression::{Op, Rel};
use model::range::Range;
use model::side::{Factor, Sign};

// What a condition leaves of its two sides: a struct, for a tuple would not say which is which.
#[derive(Clone, Copy)]
pub struct Pair<V> {
    pub left: V,
    pub right: V,
}

impl<V: Copy> Pair<V> {
    // Both sides, if neither is missing.
    pub fn both(left: Option<V>, right: Option<V>) -> Option<Pair<V>>
        ensures { result ≡ both left right }
    {
        Some(Pair {
            left: left?,
            right: right?,
        })
    }

    // The two sides the other way round.
    pub fn turned(self) -> Pair<V>
        ensures { result ≡ turned self }
    {
        Pair {
            left: self.right,
            right: self.left,
        }
    }
}

// A set that is not empty; where an operation leaves nothing, it answers none.
pub trait NumberSet: Copy {
    // How often a set can be widened at most.
    const MOST_WIDENINGS: u32;

    ghost MOST_WIDENINGS: { ℕ };

    ghost sets: { NumberSets Self };

    fn whole() -> Self
        ensures { result ≡ sets.whole };

    fn single(n: i32) -> Self
        ensures { result ≡ sets.single n };

    fn apply(self, op: Op, other: Self) -> Option<Self>
        ensures { result ≡ sets.apply op self other };

    fn fits(self, op: Op, other: Self) -> bool
        ensures { result ≡ sets.fits op self other };

    fn kept(self, rel: Rel, other: Self) -> Option<Pair<Self>>
        ensures { result ≡ sets.kept rel self other };

    fn meet(self, other: Self) -> Option<Self>
        ensures { result ≡ sets.meet self other };

    fn narrow(self, range: Range) -> Option<Self>
        ensures { result ≡ sets.narrow self range };

    fn hull(self, other: Self) -> Self
        ensures { result ≡ sets.hull self other };

    fn widen(self, other: Self) -> Self
        ensures { result ≡ sets.widen self other };

    fn inside(self, other: Self) -> bool
        ensures { result ≡ sets.inside self other };

    // a·v + b·w ≤ c for all numbers v of this set and w of the other; not a whole side, for sets know no axes
    fn bounds(self, a: Sign, b: Factor, other: Self, c: i32) -> bool
        ensures { result ≡ sets.bounds a self b other c };

    fn range(self, range: Range) -> Range
        ensures { result ≡ sets.range self range };

    ghost widenings: { MOST_WIDENINGS ≡ sets.most };

    ghost lawful: { LawfulSets sets };

    ghost exact: { ExactSets sets };
}
