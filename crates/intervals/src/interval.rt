// One interval of whole numbers.
ghost use Rattle.std.specs.Prelude.{pos, neg_ℤ, ◌≤ℤ◌};
ghost use Rattle.model.specs.Limits.{limit};

mod bounds;
mod conditions;
pub mod numbers;
mod results;
mod spans;

// The numbers from lo to hi: at least one, and none beyond the limit. 64 bits hold a product of two ends.
#[derive(Clone, Copy)]
pub struct Interval {
    pub lo: i64,
    pub hi: i64,
    ghost low: { neg_ℤ (pos limit) ≤ℤ lo },
    ghost ordered: { lo ≤ℤ hi },
    ghost high: { hi ≤ℤ pos limit },
}
