// A whole script, from its lines to their answers.
ghost use Rattle.std.specs.Prelude.{◌≡◌, [], ◌++◌, length, IfOk};
ghost use Rattle.desk.specs.Stretches.{Answered, Finished, paired};

use crate::answer::Reply;
use crate::desk::{Table, first_table, read_entry};
use crate::entry::{Answer, Entry};
use calls::play::play_calls;
use calls::tape::Tape;
use console::lines::Lines;
use std::alloc::{AllocError, Global};

fn note_answers<'a>(
    answers: &mut Vec<Answer<'a>>,
    stretch: &Tape<Entry<'a>>,
) -> Result<(), AllocError>
    requires { length stretch.now.answers.now ≡ length stretch.now.calls.now }
    ensures { IfOk result (λ _. answers.new.items ≡ answers.old.items ++ paired stretch.now.calls.now stretch.now.answers.now) }
{
    for (entry, reply) in stretch.calls.iter().zip(stretch.answers.iter()) {
        answers.push(Answer {
            entry: *entry,
            reply: *reply,
        })?;
    }
    Ok(())
}

// Makes the calls of a stretch on a session just made, and notes what they are answered.
fn note_stretch<'a>(
    table: Table,
    stretch: &mut Tape<Entry<'a>>,
    answers: &mut Vec<Answer<'a>>,
) -> Result<(), AllocError>
    requires { length stretch.old.answers.now ≡ length stretch.old.calls.now }
    ensures { IfOk result (λ _. Finished table stretch.old.calls.now answers.old.items answers.new.items) }
{
    play_calls(table, stretch);
    note_answers(answers, stretch)
}

// Answers the entries on a session just made, and leaves none of them.
fn answer_stretch<'a>(
    alloc: Global,
    table: Table,
    entries: &mut Vec<Entry<'a>>,
    answers: &mut Vec<Answer<'a>>,
) -> Result<(), AllocError>
    ensures answered { IfOk result (λ _. Finished table entries.old.items answers.old.items answers.new.items) }
    ensures left { IfOk result (λ _. entries.new.items ≡ []) }
{
    let mut replies = vec![in alloc; Reply::Done; entries.len()]?;
    let mut stretch = Tape {
        calls: entries.as_mut_slice(),
        answers: replies.as_mut_slice(),
    };
    note_stretch(table, &mut stretch, answers)?;
    entries.clear();
    Ok(())
}

/// The answers to a script, one for each line, in order. They and the entries of the stretch that is read are held in memory.
pub fn answer_script<'a>(alloc: Global, script: &'a [u8]) -> Result<Vec<Answer<'a>>, AllocError>
    ensures { IfOk result (λ answers. Answered script.now answers.items) }
{
    let mut answers = Vec::new(alloc);
    let mut table = first_table();
    let mut entries = Vec::new(alloc);
    for (before, line) in Lines::new(script).enumerate() {
        let entry = read_entry(before + 1, line);
        match entry.table() {
            None => entries.push(entry)?,
            Some(next) => {
                answer_stretch(alloc, table, &mut entries, &mut answers)?;
                let reply = Reply::Done;
                answers.push(Answer { entry, reply })?;
                table = next;
            }
        }
    }
    answer_stretch(alloc, table, &mut entries, &mut answers)?;
    Ok(answers)
}
