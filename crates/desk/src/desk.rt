// What each line of a script asks for.
ghost use Rattle.std.specs.Prelude.{◌≡◌, Ok};
ghost use Rattle.command.specs.Commands.{command_of};
ghost use Rattle.travel.specs.Benches.{bench_gantry};
ghost use Rattle.desk.specs.Scripts.{OnGantry, OnBeam, Names, Enters};
ghost use Rattle.desk.specs.Serving.{Serves};

use crate::answer::{Note, Reply};
use crate::entry::{Answer, Entry};
use calls::calls::Calls;
use command::command::{Command, NewTable, read_command};
use either::Either;
use model::axes::Ends;
use session::session::Session;
use travel::beam::Beam;
use travel::bench::{BENCH_BEAM, BENCH_GANTRY, BENCH_GAP};
use travel::gantry::Gantry;
use travel::refusal::TravelRefusal;

// The tables that a script may name.
pub type Table = Either<Gantry, Beam>;

// A table of each kind, in one line each: one function for both would take the variant and the gap.
fn on_gantry(ends: Ends) -> Result<Table, TravelRefusal>
    ensures { OnGantry ends result }
{
    Gantry::new(ends).map(Either::Left)
}

fn on_beam(ends: Ends, gap: i32) -> Result<Table, TravelRefusal>
    ensures { OnBeam ends gap result }
{
    Beam::new(ends, gap).map(Either::Right)
}

// The table a script begins on.
pub fn first_table() -> Table
    ensures { OnGantry bench_gantry (Ok result) }
{
    let Ok(table) = on_gantry(BENCH_GANTRY) else {
        unreachable()
    };
    table
}

// The table that a command names, or why there is no such one.
fn table_of(table: NewTable) -> Result<Table, TravelRefusal>
    ensures { Names table result }
{
    match table {
        NewTable::BenchGantry => on_gantry(BENCH_GANTRY),
        NewTable::BenchBeam => on_beam(BENCH_BEAM, BENCH_GAP),
        NewTable::Gantry(ends) => on_gantry(ends),
        NewTable::Beam(ends, gap) => on_beam(ends, gap),
    }
}

// What the line asks for, as line n of a script.
pub fn read_entry(n: usize, line: &[u8]) -> Entry
    ensures { Enters n (command_of line.now) result }
{
    match read_command(line) {
        None => Entry::Note(Note::Bad(n)),
        Some(Command::Call(call)) => Entry::Call(call),
        Some(Command::Table(table)) => match table_of(table) {
            Ok(made) => Entry::Table(made),
            Err(refusal) => Entry::Note(Note::NoTable(refusal)),
        },
    }
}

/// Answers line n of a script on the session that stands. A table that there is begins a new session in its place.
pub fn serve<'a>(session: &mut Session<Table>, n: usize, line: &'a [u8]) -> Answer<'a>
    ensures { Serves session.old n (command_of line.now) result session.new }
{
    let mut entry = read_entry(n, line);
    match entry {
        Entry::Call(_) => {
            let reply = entry.play(session);
            Answer { entry, reply }
        }
        Entry::Table(table) => {
            *session = Session::new(table);
            let reply = Reply::Done;
            Answer { entry, reply }
        }
        Entry::Note(_) => {
            let reply = Reply::Done;
            Answer { entry, reply }
        }
    }
}
