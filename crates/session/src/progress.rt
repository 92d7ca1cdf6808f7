// What a step of a run is answered.

use model::axes::Position;

/// What a step of a run did. A run under a certificate meets no fault, so there is no case for one.
#[derive(Clone, Copy)]
pub enum Progress {
    /// the run went over a line that commands nothing
    WentOn,
    /// the run commanded this position, in micrometres
    Commanded(Position),
    /// the run is past the last line, and stays there
    Ended,
}
