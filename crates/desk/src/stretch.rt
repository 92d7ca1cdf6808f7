// A stretch of a script, as a list of calls on the session that stands: its lines up to the next that sets up a table. A whole script
// is answered stretch by stretch.
ghost use Rattle.std.specs.Prelude.{◌+◌, ◌^◌, ◌<◌, length, OnOk};
ghost use Rattle.desk.specs.Stretches.{events_in};
ghost use Rattle.desk.specs.Written.{noted, AnswersLines, Replayed};

use crate::answer::Reply;
use crate::desk::{Table, first_table, read_entry};
use crate::entry::{Answer, Entry};
use calls::calls::Calls;
use calls::play::play_calls;
use console::lines::first_line;
use http_server::Log;
use session::session::Session;
use std::io;
use std::io::Write;
use travel::travel::Travel;

/// What is left of a script. Its next stretch is played: each line is answered as it is read, and its answer written.
#[derive(Drop)]
pub struct Stretch<'t, 'w, W> {
    // the text that is not read yet
    pub text: &'t [u8],
    // so many lines were read before it
    pub read: usize,
    pub writer: &'w mut W,
    // the entries of the stretch that was played last, with their replies
    pub played: Log<Entry<'t>, Reply>,
    ghost counted: { read + length text.now < 2 ^ 64 },
}

impl<'t, 'w, W: Write> Calls for Stretch<'t, 'w, W> {
    type Answers = io::Result<Option<Table>>;

    ghost events = { λ _ d _. events_in (noted d.played.items) };

    ghost stays = { λ c d r. AnswersLines W.contents c.read d.read c.text.now d.text.now c.writer d.writer
        (noted d.played.items) r };

    fn play<T: Travel>(&mut self, session: &mut Session<T>) -> io::Result<Option<Table>> {
        self.played = Log::new();
        while let Some((line, more)) = first_line(self.text) {
            self.text = more;
            self.read += 1;
            let mut entry = read_entry(self.read, line);
            let reply = entry.play(session);
            self.played = self.played.and(&entry, &reply);
            self.writer.writeln(Answer { entry, reply })?;
            if let Some(table) = entry.table() {
                return Ok(Some(table));
            }
        }
        Ok(None)
    }
}

/// Answers the lines of a script in order: each answer is written, in a line of its own, before the next line is read.
pub fn write_answers<W: Write>(writer: &mut W, script: &[u8]) -> io::Result<()>
    ensures { OnOk result (Replayed script.now (W.contents writer.old) (W.contents writer.new)) }
{
    let mut stretch = Stretch {
        text: script,
        read: 0,
        writer,
        played: Log::new(),
    };
    let mut table = first_table();
    while let Some(next) = play_calls(table, &mut stretch)? {
        table = next;
    }
    let Stretch { writer, .. } = stretch;
    writer.flush()
}
