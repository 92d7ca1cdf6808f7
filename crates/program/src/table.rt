// The lines of a program, and the table of its blocks, which says what the lines say.
ghost use Rattle.std.specs.Prelude.{◌≡◌, true, []};
ghost use Rattle.program.specs.Racks.{listed};
ghost use Rattle.program.specs.Refusals.{all_taken};
ghost use Rattle.program.specs.Agree.{Agrees};
ghost use Rattle.program.specs.Written.{all_written};

use crate::rack::Rack;
use model::block::Block;
use model::line::Line;

mod entry;
mod growth;
mod lookup;

/// How many lines a program has at most.
pub const MAX_LINES: usize = 128;

/// How many blocks a program has at most.
pub const MAX_BLOCKS: usize = 16;

/// The lines that were taken, and the blocks that they open. Nothing changes a table but its next line.
#[derive(Clone, Copy)]
pub struct Program {
    lines: Rack<Line, MAX_LINES>,
    blocks: Rack<Block, MAX_BLOCKS>,
    ghost taken: { all_taken [] (listed lines) ≡ true },
    ghost written: { all_written (listed lines) ≡ true },
    ghost agrees: { ∥ Agrees (listed lines) (listed blocks) ∥₁ },
}
