// What a call is answered, and what is said of a line that makes none, with the texts.
ghost use Rattle.std.specs.Prelude.{◌≡◌, Some};
ghost use Rattle.desk.specs.declared.answer.Refusal.TheVariants.{Line, Allow, Certify, Start, Step, Dry};
ghost use Rattle.desk.specs.Answers.{answer, call_refusal, detail, note_text, reply_of};
ghost use Rattle.desk.specs.Texts.{answer_text, refused_text};

use crate::text::{Detail, HullText};
use certify::refusal::{Certificate, CertifyRefusal};
use console::failure::FailureText;
use model::axes::Position;
use model::ending::Ending;
use program::refusal::LineRefusal;
use session::progress::Progress;
use session::refusal::{AllowRefusal, DryRefusal, StartRefusal, StepRefusal};
use std::fmt;
use travel::refusal::TravelRefusal;

// Not the console's, which has other refusals beside the two in common and prints a place always.
#[derive(Clone, Copy)]
pub enum Refusal {
    Line(LineRefusal),
    Allow(AllowRefusal),
    Certify(CertifyRefusal),
    Start(StartRefusal),
    Step(StepRefusal),
    Dry(DryRefusal),
}

impl From<LineRefusal> for Refusal {
    ghost from_gives = { λ refusal result. result ≡ Line refusal };

    fn from(refusal: LineRefusal) -> Refusal {
        Refusal::Line(refusal)
    }
}

impl From<AllowRefusal> for Refusal {
    ghost from_gives = { λ refusal result. result ≡ Allow refusal };

    fn from(refusal: AllowRefusal) -> Refusal {
        Refusal::Allow(refusal)
    }
}

impl From<CertifyRefusal> for Refusal {
    ghost from_gives = { λ refusal result. result ≡ Certify refusal };

    fn from(refusal: CertifyRefusal) -> Refusal {
        Refusal::Certify(refusal)
    }
}

impl From<StartRefusal> for Refusal {
    ghost from_gives = { λ refusal result. result ≡ Start refusal };

    fn from(refusal: StartRefusal) -> Refusal {
        Refusal::Start(refusal)
    }
}

impl From<StepRefusal> for Refusal {
    ghost from_gives = { λ refusal result. result ≡ Step refusal };

    fn from(refusal: StepRefusal) -> Refusal {
        Refusal::Step(refusal)
    }
}

impl From<DryRefusal> for Refusal {
    ghost from_gives = { λ refusal result. result ≡ Dry refusal };

    fn from(refusal: DryRefusal) -> Refusal {
        Refusal::Dry(refusal)
    }
}

impl Refusal {
    // Not a From: `u32::from` would not say which number.
    fn number(self) -> u32
        ensures { result ≡ (call_refusal self).number }
    {
        match self {
            Refusal::Line(e) => e.number(),
            Refusal::Allow(e) => e.number(),
            Refusal::Certify(e) => e.number(),
            Refusal::Start(e) => e.number(),
            Refusal::Step(e) => e.number(),
            Refusal::Dry(e) => e.number(),
        }
    }

    fn detail(self) -> Detail
        ensures { detail result ≡ (call_refusal self).detail }
    {
        match self {
            Refusal::Line(e) => e.place().map_or(Detail::Nothing, Detail::Place),
            Refusal::Certify(CertifyRefusal::Uncertified(failure)) => Detail::Failure(failure),
            Refusal::Start(StartRefusal::Outside(parameter)) => Detail::Parameter(parameter),
            _ => Detail::Nothing,
        }
    }
}

impl fmt::Display for Refusal {
    ghost output = { λ e. Some (refused_text (call_refusal e)) };

    fn fmt<W: fmt::Write>(&self, f: &mut fmt::Formatter<W>) -> fmt::Result {
        let number = self.number();
        write!(f, "refused {number}{}", self.detail())
    }
}

// One type for the answers of all calls, since a Result is not printed.
#[derive(Clone, Copy)]
pub enum Reply {
    Done,
    Certified(Certificate),
    WentOn,
    Commanded(Position),
    Ended,
    // what a dry run comes to
    Came(Ending),
    Refused(Refusal),
}

impl From<Progress> for Reply {
    ghost from_gives = { λ progress result. result ≡ reply_of progress };

    fn from(progress: Progress) -> Reply {
        match progress {
            Progress::WentOn => Reply::WentOn,
            Progress::Commanded(position) => Reply::Commanded(position),
            Progress::Ended => Reply::Ended,
        }
    }
}

impl fmt::Display for Reply {
    ghost output = { λ a. Some (answer_text (answer a)) };

    fn fmt<W: fmt::Write>(&self, f: &mut fmt::Formatter<W>) -> fmt::Result {
        match *self {
            Reply::Done => write!(f, "ok"),
            Reply::Certified(certificate) => {
                let [x, y, z, u] = certificate.hulls.map(HullText);
                write!(f, "certified {x} {y} {z} {u}")
            }
            Reply::WentOn => write!(f, "went on"),
            Reply::Commanded(Position { x, y, z, u }) => write!(f, "position {x} {y} {z} {u}"),
            Reply::Ended | Reply::Came(Ending::Ended) => write!(f, "ended"),
            Reply::Came(Ending::Running) => write!(f, "running"),
            Reply::Came(Ending::Stopped(failure)) => {
                write!(f, "stopped {}", FailureText(failure))
            }
            Reply::Refused(refusal) => write!(f, "{refusal}"),
        }
    }
}

// What is said of a line of a script that asks for no call and no session.
#[derive(Clone, Copy)]
pub enum Note {
    // there is no such table
    NoTable(TravelRefusal),
    // no command stands on this line, counted from 1
    Bad(usize),
}

impl fmt::Display for Note {
    ghost output = { λ n. Some (note_text n) };

    fn fmt<W: fmt::Write>(&self, f: &mut fmt::Formatter<W>) -> fmt::Result {
        match *self {
            Note::NoTable(refusal) => {
                let number = refusal.number();
                write!(f, "refused {number}")
            }
            Note::Bad(line) => write!(f, "bad command {line}"),
        }
    }
}
