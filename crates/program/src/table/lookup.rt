// What a table holds, and the block of a label.
ghost use Rattle.std.specs.Prelude.{◌≡◌, ◌<◌, true, length, IfSome, nat_le};
ghost use Rattle.model.specs.Blocks.{labels, block_number, block_of, closed};
ghost use Rattle.model.specs.Programs.{Closed};
ghost use Rattle.program.specs.Agree.{Last};
ghost use Rattle.program.specs.Held.{held, held_blocks};
ghost use Rattle.program.specs.Limits.{max_lines};

use crate::table::Program;
use model::block::Block;
use model::line::Line;

impl Program {
    /// The lines, in the order in which they were taken.
    pub fn lines(&self) -> &[Line]
        ensures { result.now ≡ held self.now }
    {
        self.lines.as_slice()
    }

    // Whether the next line is refused, whatever it is.
    pub(super) fn is_full(&self) -> bool
        ensures { result ≡ nat_le max_lines (length (held self.now)) }
    {
        self.lines.is_full()
    }

    /// How many blocks the lines open.
    pub fn block_count(&self) -> usize
        ensures { result ≡ length (labels (held self.now)) }
    {
        self.blocks.len()
    }

    /// The number of the block that has the label, from 0 in the order in which they open; none if no line opens such a block.
    pub fn block_number(&self, label: u16) -> Option<usize>
        ensures is { result ≡ block_number (held self.now) label }
        ensures within { IfSome result (λ i. i < length (labels (held self.now))) }
    {
        self.blocks
            .as_slice()
            .iter()
            .position(|block| block.label == label)
    }

    /// The block that has the label: its kind, its condition, and the numbers of its lines, from 1; none if no line opens such a block.
    pub fn block(&self, label: u16) -> Option<Block>
        ensures { result ≡ block_of (held self.now) label }
    {
        let number = self.block_number(label)?;
        Some(self.blocks.as_slice()[number])
    }

    // The number of the last block that has no end.
    pub(super) fn innermost(&self) -> Option<usize>
        ensures { Last (held_blocks self.now) result }
    {
        self.blocks
            .as_slice()
            .iter()
            .rposition(|block| block.end.is_none())
    }

    /// Whether no block is open. Then the blocks are nested, and each has its end.
    pub fn is_closed(&self) -> bool
        ensures is { result ≡ closed (held self.now) }
        ensures closed { result ≡ true → Closed (held self.now) }
    {
        self.innermost().is_none()
    }
}
