// A command is one line, words separated by exactly one blank. A number is an optional `-` and 1 to 8 digits.
//
//     benchgantry
//     benchbeam
//     gantry N*12          lower X Y Z U, upper X Y Z U, home X Y Z U
//     beam N*13            the same and then the gap
//     line TEXT            TEXT is all that follows one blank, as it is; `line` alone is the empty text
//     allow N N N          parameter, low, high
//     wipe
//     start N*6            six values
//     step
//     dry N*7              six values and a count of steps, which is not negative
//     certify DOMAIN N     the domain by its name, and how many states are lent, which is not negative
//
// Anything else is no command. Command words are written in small letters exactly.
ghost use Rattle.std.specs.Prelude.{◌≡◌, drop, option_map};
ghost use Rattle.model.specs.Environments.{parameters};
ghost use Rattle.command.specs.Words.{arguments};
ghost use Rattle.command.specs.Numbers.{numbers_of};
ghost use Rattle.command.specs.Grammar.{TheCommand};
ghost use Rattle.command.specs.Commands.{meant, ends_of, as_gantry, as_beam, as_allow, as_start, as_dry, as_certify, alone, chosen, command_of};

use crate::domain_name::{DomainName, domain_of};
use crate::numbers::{next_word, numbers};
use crate::word::{Word, word_of};
use model::axes::Ends;
use model::range::Range;
use model::register::PARAMETERS;
use words::len_until;

// A session on another table.
#[derive(Clone, Copy)]
pub enum NewTable {
    BenchGantry,
    BenchBeam,
    Gantry(Ends),
    Beam(Ends, i32),
}

// A call of the session, with its arguments as they are.
#[derive(Clone, Copy)]
pub enum Call<'a> {
    Line(&'a [u8]),
    // the parameter by its number: the session refuses numbers of none
    Allow {
        parameter: i32,
        range: Range,
    },
    Wipe,
    Certify {
        domain: DomainName,
        states: u32,
    },
    Start {
        values: [i32; PARAMETERS],
    },
    Step,
    Dry {
        values: [i32; PARAMETERS],
        steps: u32,
    },
}

#[derive(Clone, Copy)]
pub enum Command<'a> {
    Table(NewTable),
    Call(Call<'a>),
}

// lower X Y Z U, upper X Y Z U, home X Y Z U
fn ends_of(numbers: [i32; 12]) -> Ends
    ensures { result ≡ ends_of numbers }
{
    let [lx, ly, lz, lu, ux, uy, uz, uu, hx, hy, hz, hu] = numbers;
    Ends {
        lower: [lx, ly, lz, lu].into(),
        upper: [ux, uy, uz, uu].into(),
        home: [hx, hy, hz, hu].into(),
    }
}

fn gantry(text: &[u8]) -> Option<Command>
    ensures { option_map meant result ≡ as_gantry (numbers_of 12 (arguments text.now)) }
{
    let ends = ends_of(numbers::<12>(text)?);
    Some(Command::Table(NewTable::Gantry(ends)))
}

// It differs from the gantry in its count, its variant and the gap: one function would take all three.
fn beam(text: &[u8]) -> Option<Command>
    ensures { option_map meant result ≡ as_beam (numbers_of 13 (arguments text.now)) }
{
    // `[ends @ .., gap]` was tried by value and by reference: the proof covers neither.
    let [lx, ly, lz, lu, ux, uy, uz, uu, hx, hy, hz, hu, gap] = numbers::<13>(text)?;
    let ends = ends_of([lx, ly, lz, lu, ux, uy, uz, uu, hx, hy, hz, hu]);
    Some(Command::Table(NewTable::Beam(ends, gap)))
}

fn allow(text: &[u8]) -> Option<Command>
    ensures { option_map meant result ≡ as_allow (numbers_of 3 (arguments text.now)) }
{
    let [parameter, lo, hi] = numbers::<3>(text)?;
    Some(Command::Call(Call::Allow {
        parameter,
        range: Range { lo, hi },
    }))
}

fn start(text: &[u8]) -> Option<Command>
    ensures { option_map meant result ≡ as_start (numbers_of parameters (arguments text.now)) }
{
    let values = numbers::<PARAMETERS>(text)?;
    Some(Command::Call(Call::Start { values }))
}

fn dry(text: &[u8]) -> Option<Command>
    ensures { option_map meant result ≡ as_dry (numbers_of 7 (arguments text.now)) }
{
    let [v1, v2, v3, v4, v5, v6, steps] = numbers::<7>(text)?;
    Some(Command::Call(Call::Dry {
        values: [v1, v2, v3, v4, v5, v6],
        steps: u32::try_from(steps).ok()?,
    }))
}

fn certify(text: &[u8]) -> Option<Command>
    ensures { option_map meant result ≡ as_certify (arguments text.now) }
{
    let (name, rest) = next_word(text)?;
    let domain = domain_of(name)?;
    let [states] = numbers::<1>(rest)?;
    Some(Command::Call(Call::Certify {
        domain,
        states: u32::try_from(states).ok()?,
    }))
}

// What follows one blank.
fn line_text(text: &[u8]) -> &[u8]
    ensures { result.now ≡ drop 1 text.now }
{
    match text {
        [] => text,
        [_, rest @ ..] => rest,
    }
}

// The command, if no word follows.
fn alone<'a>(command: Command<'a>, text: &[u8]) -> Option<Command<'a>>
    ensures { option_map meant result ≡ alone (meant command.entry) (arguments text.now) }
{
    text.is_empty().then_some(command)
}

// The command of a first word, and of the text behind it. Each word reads its text in a way of its own: functions in a table would be
// as many.
fn command_by(word: Word, text: &[u8]) -> Option<Command>
    ensures { option_map meant result ≡ chosen word (arguments text.now) (drop 1 text.now) }
{
    match word {
        Word::BenchGantry => alone(Command::Table(NewTable::BenchGantry), text),
        Word::BenchBeam => alone(Command::Table(NewTable::BenchBeam), text),
        Word::Gantry => gantry(text),
        Word::Beam => beam(text),
        Word::Line => Some(Command::Call(Call::Line(line_text(text)))),
        Word::Allow => allow(text),
        Word::Wipe => alone(Command::Call(Call::Wipe), text),
        Word::Start => start(text),
        Word::Step => alone(Command::Call(Call::Step), text),
        Word::Dry => dry(text),
        Word::Certify => certify(text),
    }
}

// The command of the line's words.
fn by_words(line: &[u8]) -> Option<Command>
    ensures { option_map meant result ≡ command_of line.now }
{
    let n = len_until(line, b' ');
    let word = word_of(&line[0..n])?;
    command_by(word, &line[n..])
}

// The command that the line is, exactly if the grammar has it.
pub fn read_command(line: &[u8]) -> Option<Command>
    ensures law { TheCommand line.now (option_map meant result) }
    ensures is { option_map meant result ≡ command_of line.now }
{
    by_words(line)
}
