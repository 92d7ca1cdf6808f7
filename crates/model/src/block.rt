// What a line means for the blocks of its program.
ghost use Rattle.std.specs.Prelude.{◌≡◌};
ghost use Rattle.model.specs.Blocks.{role_of};

use crate::expression::Condition;
use crate::line::Line;

#[derive(Clone, Copy, PartialEq, Eq)]
pub enum BlockKind {
    While,
    If,
}

// A line opens a block under a condition, ends one, or does neither: a third way to grow, and no missing role.
#[derive(Clone, Copy)]
pub enum Role {
    Opens(BlockKind, u16, Condition),
    Ends(BlockKind, u16),
    Neither,
}

// One block: the number of its first line, and of its end line once that is there, from 1.
#[derive(Clone, Copy)]
pub struct Block {
    pub kind: BlockKind,
    pub label: u16,
    pub condition: Condition,
    pub first: usize,
    pub end: Option<usize>,
}

// Not a From, which would say that a role is a line put otherwise: it is what is left of one.
pub fn role_of(line: Line) -> Role
    ensures { result ≡ role_of line }
{
    match line {
        Line::While { label, condition } => Role::Opens(BlockKind::While, label, condition),
        Line::If { label, condition } => Role::Opens(BlockKind::If, label, condition),
        Line::EndIf { label } => Role::Ends(BlockKind::If, label),
        Line::EndWhile { label } => Role::Ends(BlockKind::While, label),
        _ => Role::Neither,
    }
}
