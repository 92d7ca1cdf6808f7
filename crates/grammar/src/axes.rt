// The values that the words of a move give its axes.
use model::axes::Axes;
use model::expression::Value;

/// A value for each axis that the move names.
pub type AxisValues = Axes<Option<Value>>;
