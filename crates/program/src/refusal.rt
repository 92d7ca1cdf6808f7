// Why a program takes no line.
ghost use Rattle.std.specs.Prelude.{◌≡◌};
ghost use Rattle.model.specs.Refusals.{place_in};
ghost use Rattle.program.specs.Numbers.{table_refusal, line_refusal};
ghost use Rattle.program.specs.declared.refusal.LineRefusal.TheVariants.{Text, Table};

use grammar::refusal::Refusal;

/// Why the table does not take a line.
#[derive(Clone, Copy)]
pub enum TableRefusal {
    /// The program has as many lines as it may have.
    Lines,
    /// The end does not match the innermost open block, or finds none open.
    End,
    /// Another line has opened a block of this label.
    Label,
    /// The program has as many blocks as it may have.
    Blocks,
}

/// Why a text is not taken as the next line.
#[derive(Clone, Copy)]
pub enum LineRefusal {
    /// The text is no line.
    Text(Refusal),
    /// The table does not take it.
    Table(TableRefusal),
}

impl From<Refusal> for LineRefusal {
    ghost from_gives = { λ refusal result. result ≡ Text refusal };

    fn from(refusal: Refusal) -> LineRefusal {
        LineRefusal::Text(refusal)
    }
}

impl From<TableRefusal> for LineRefusal {
    ghost from_gives = { λ refusal result. result ≡ Table refusal };

    fn from(refusal: TableRefusal) -> LineRefusal {
        LineRefusal::Table(refusal)
    }
}

impl TableRefusal {
    // The number by which the refusal is printed.
    fn number(self) -> u32
        ensures { result ≡ (table_refusal self).number }
    {
        match self {
            TableRefusal::Lines => 21,
            TableRefusal::End => 22,
            TableRefusal::Label => 23,
            TableRefusal::Blocks => 24,
        }
    }
}

impl LineRefusal {
    /// The number by which the refusal is printed; `u32::from` would not say which number it gives.
    pub fn number(self) -> u32
        ensures { result ≡ (line_refusal self).number }
    {
        match self {
            LineRefusal::Text(e) => e.cause.number(),
            LineRefusal::Table(e) => e.number(),
        }
    }

    /// The place in the text, from 0, if the text is at fault.
    pub fn place(self) -> Option<usize>
        ensures { result ≡ place_in (line_refusal self).detail }
    {
        match self {
            LineRefusal::Text(e) => Some(e.place),
            LineRefusal::Table(_) => None,
        }
    }
}
