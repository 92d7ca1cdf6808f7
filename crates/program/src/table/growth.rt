// How a table is begun, and how it takes its next line.
ghost use Rattle.std.specs.Prelude.{◌≡◌, ◌<◌, false, ◌&&◌, [], ◌∷◌, ◌++◌, length, is_some, IfSome, is_ok, Some, ◌==◌, slice_index_or};
ghost use Rattle.model.specs.declared.block.Role.TheVariants.{Opens, Ends, Neither};
ghost use Rattle.model.specs.Blocks.{role_of, open_blocks, labels};
ghost use Rattle.model.specs.Written.{WrittenLine};
ghost use Rattle.program.specs.Agree.{Last, no_block};
ghost use Rattle.program.specs.Held.{held, held_blocks};
ghost use Rattle.program.specs.Limits.{max_lines};
ghost use Rattle.program.specs.Refusals.{same_kind, fits, role_answer, push_answer, pushed};

use crate::rack::Rack;
use crate::refusal::TableRefusal;
use crate::table::Program;
use model::block::{Block, BlockKind, Role, role_of};
use model::expression::{Condition, Rel, Term};
use model::line::Line;

// What stands past the last block.
const NO_BLOCK: Block = Block {
    kind: BlockKind::While,
    label: 0,
    condition: Condition {
        rel: Rel::Eq,
        left: Term::Number(0),
        right: Term::Number(0),
    },
    first: 0,
    end: None,
};

// Whether an end of this kind and label is the block's own.
fn is_ended_by(block: Block, kind: BlockKind, label: u16) -> bool
    ensures { result ≡ (same_kind block.kind kind && block.label == label) }
{
    block.kind == kind && block.label == label
}

impl Program {
    /// A program without a line.
    pub fn new() -> Program
        ensures { held result ≡ [] }
    {
        Program {
            lines: Rack::new(Line::Plain),
            blocks: Rack::new(NO_BLOCK),
        }
    }

    // The number of the innermost open block, if an end of this kind and label fits it. Kind and label are compared together here
    // alone; blocks are looked up by label, so the two are no struct.
    fn fitting(&self, kind: BlockKind, label: u16) -> Option<usize>
        ensures test { is_some result ≡ fits (open_blocks (held self.now)) kind label }
        ensures last { IfSome result (λ i. Last (held_blocks self.now) (Some i) × ((slice_index_or (held_blocks self.now) i no_block).label ≡ label)) }
    {
        let number = self.innermost()?;
        is_ended_by(self.blocks.as_slice()[number], kind, label).then_some(number)
    }

    // Each of the three ways to grow leaves lines and blocks in agreement, so each is told that there is room, and adds the line itself.

    // Adds a line that is no block's first or end.
    fn keep(&mut self, line: Line)
        requires room { length (held self.old) < max_lines }
        requires written { WrittenLine line }
        requires role { role_of line ≡ Neither }
        ensures { held self.new ≡ held self.old ++ (line ∷ []) }
    {
        self.lines.push(line);
    }

    // Adds a line that opens a block, unless the label is had or the table of blocks is full.
    fn open(
        &mut self,
        line: Line,
        kind: BlockKind,
        label: u16,
        condition: Condition,
    ) -> Result<(), TableRefusal>
        requires room { length (held self.old) < max_lines }
        requires written { WrittenLine line }
        requires role { role_of line ≡ Opens kind label condition }
        ensures says { result ≡ role_answer (open_blocks (held self.old)) (labels (held self.old)) (Opens kind label condition) }
        ensures held { held self.new ≡ pushed result (held self.old) line }
        ensures same { is_ok result ≡ false → self.new ≡ self.old }
    {
        if self.block_number(label).is_some() {
            return Err(TableRefusal::Label);
        }
        if self.blocks.is_full() {
            return Err(TableRefusal::Blocks);
        }
        let first = self.lines.len() + 1;
        self.blocks.push(Block {
            kind,
            label,
            condition,
            first,
            end: None,
        });
        self.lines.push(line);
        Ok(())
    }

    // Adds a line that ends the innermost open block, unless it is no end of that.
    fn end(&mut self, line: Line, kind: BlockKind, label: u16) -> Result<(), TableRefusal>
        requires room { length (held self.old) < max_lines }
        requires written { WrittenLine line }
        requires role { role_of line ≡ Ends kind label }
        ensures says { result ≡ role_answer (open_blocks (held self.old)) (labels (held self.old)) (Ends kind label) }
        ensures held { held self.new ≡ pushed result (held self.old) line }
        ensures same { is_ok result ≡ false → self.new ≡ self.old }
    {
        let Some(number) = self.fitting(kind, label) else {
            return Err(TableRefusal::End);
        };
        let end = Some(self.lines.len() + 1);
        let block = self.blocks.as_slice()[number];
        self.blocks.set(number, Block { end, ..block });
        self.lines.push(line);
        Ok(())
    }

    // Adds a line, or says why not and changes nothing.
    pub(crate) fn push(&mut self, line: Line) -> Result<(), TableRefusal>
        requires { WrittenLine line }
        ensures says { result ≡ push_answer (held self.old) line }
        ensures held { held self.new ≡ pushed result (held self.old) line }
        ensures same { is_ok result ≡ false → self.new ≡ self.old }
    {
        if self.is_full() {
            return Err(TableRefusal::Lines);
        }
        match role_of(line) {
            Role::Opens(kind, label, condition) => self.open(line, kind, label, condition),
            Role::Ends(kind, label) => self.end(line, kind, label),
            Role::Neither => {
                self.keep(line);
                Ok(())
            }
        }
    }
}
