// What a sweep carries from line to line, but for the lent store.
use model::ending::Failure;
use model::range::Range;
use model::register::AXES;

#[derive(Clone, Copy)]
pub struct Pass<D> {
    // the number of the next line, from 1
    pub line: usize,
    // means every environment that a run can bring to the next line
    pub current: D,
    // whether a loop's state grew
    pub changed: bool,
    // the lowest failing line
    pub failing: Option<Failure>,
    // for each axis the least and the greatest value that moves gave it
    pub hulls: [Option<Range>; AXES],
}
