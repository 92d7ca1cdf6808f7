// What a run comes to, and why it fails.

// A value beyond the greatest length, or the lowest side, from 0, that a position breaks.
#[derive(Clone, Copy)]
pub enum Cause {
    Arithmetic,
    Travel(usize),
}

// The line, from 1, and its cause.
#[derive(Clone, Copy)]
pub struct Failure {
    pub line: usize,
    pub cause: Cause,
}

// What a run of at most so many steps comes to.
#[derive(Clone, Copy)]
pub enum Ending {
    Ended,
    Running,
    Stopped(Failure),
}
