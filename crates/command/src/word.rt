// The first word of a command, which says what is asked.
ghost use Rattle.std.specs.Prelude.{◌≡◌};
ghost use Rattle.command.specs.Words.{word_of};

use crate::names::look_up;

#[derive(Clone, Copy)]
pub enum Word {
    BenchGantry,
    BenchBeam,
    Gantry,
    Beam,
    Line,
    Allow,
    Wipe,
    Start,
    Step,
    Dry,
    Certify,
}

// Command words are written in small letters exactly.
const WORDS: [(&[u8], Word); 11] = [
    (b"benchgantry", Word::BenchGantry),
    (b"benchbeam", Word::BenchBeam),
    (b"gantry", Word::Gantry),
    (b"beam", Word::Beam),
    (b"line", Word::Line),
    (b"allow", Word::Allow),
    (b"wipe", Word::Wipe),
    (b"start", Word::Start),
    (b"step", Word::Step),
    (b"dry", Word::Dry),
    (b"certify", Word::Certify),
];

pub(crate) fn word_of(text: &[u8]) -> Option<Word>
    ensures { result ≡ word_of text.now }
{
    look_up(&WORDS, text)
}
