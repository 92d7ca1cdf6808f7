// How a text is taken as the next line.
ghost use Rattle.std.specs.Prelude.{◌≡◌, false, is_ok};
ghost use Rattle.program.specs.Entry.{line_answer, lines_after};
ghost use Rattle.program.specs.Held.{held};

use crate::refusal::{LineRefusal, TableRefusal};
use crate::table::Program;
use reader::read;

impl Program {
    /// Reads the text as a line, and adds it as the last.
    ///
    /// Refused are each text where the table is full, a text that is no line, and a line that the table does not take.
    /// A refusal changes nothing.
    pub fn line(&mut self, text: &[u8]) -> Result<(), LineRefusal>
        ensures says { result ≡ line_answer (held self.old) text.now }
        ensures held { held self.new ≡ lines_after (held self.old) text.now }
        ensures same { is_ok result ≡ false → self.new ≡ self.old }
    {
        if self.is_full() {
            return Err(TableRefusal::Lines.into());
        }
        let line = read(text)?;
        Ok(self.push(line)?)
    }
}
