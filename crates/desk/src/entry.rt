// The entries of a script, as a list of calls on the session that stands.
ghost use Rattle.std.specs.Prelude.{◌≡◌, [], ◌∷◌, length, min, Some};
ghost use Rattle.program.specs.Limits.{max_blocks};
ghost use Rattle.session.specs.Memory.{memory};
ghost use Rattle.calls.specs.Events.{domain};
ghost use Rattle.calls.specs.Law.{event, certify, by_verdict};
ghost use Rattle.calls.specs.Playing.{AllKept, afters};
ghost use Rattle.desk.specs.Answers.{by_reply};
ghost use Rattle.desk.specs.Scripts.{domain_named, call_of, events_of, table_in, entry_text, Stays};

use crate::answer::{Note, Refusal, Reply};
use crate::desk::Table;
use calls::calls::Calls;
use calls::single::{Allow, Certify, Dry, Line, Start, Step, Wipe};
use certify::refusal::{Certificate, CertifyRefusal};
use command::command::Call;
use command::domain_name::DomainName;
use domain::domain::Domain;
use domain::product::Product;
use pointwise::kinds::{Congruences, Intervals};
use program::table::MAX_BLOCKS;
use session::session::Session;
use std::fmt;
use travel::travel::Travel;

type Both = Product<Intervals, Congruences>;

type Turned = Product<Congruences, Intervals>;

type Twice = Product<Intervals, Intervals>;

#[derive(Clone, Copy)]
pub enum Entry<'a> {
    Call(Call<'a>),
    // a session on this table takes the place of the one that stands
    Table(Table),
    // a line that asks for neither
    Note(Note),
}

impl<'a> Entry<'a> {
    // The table that it sets up.
    pub fn table(self) -> Option<Table>
        ensures { result ≡ table_in self.entry }
    {
        match self {
            Entry::Table(table) => Some(table),
            Entry::Call(_) | Entry::Note(_) => None,
        }
    }
}

// Of the states at hand so many are lent. Tried with the array in here, cut by a range and by `split_at_mut`: of sixteen states of a
// type parameter it is not known that they are small enough for memory.
fn certify_with<D: Domain, T: Travel>(
    session: &mut Session<T>,
    store: &mut [D],
    states: u32,
) -> Result<Certificate, CertifyRefusal>
    ensures kept { AllKept (T.envelope session.old.travel) (memory session.old) (event (certify (domain D.lattice) (min states (length store.old))) (by_verdict result) ∷ []) }
    ensures left { memory session.new ≡ afters (T.envelope session.old.travel).home (memory session.old) (event (certify (domain D.lattice) (min states (length store.old))) (by_verdict result) ∷ []) }
    ensures travel { session.new.travel ≡ session.old.travel }
{
    let lent = store.len().min(states as usize);
    let mut certify = Certify {
        store: &mut store[..lent],
    };
    certify.play(session)
}

// At most sixteen states are lent, for no program has more blocks.
fn certify_in<T: Travel>(
    session: &mut Session<T>,
    domain: DomainName,
    states: u32,
) -> Result<Certificate, CertifyRefusal>
    ensures kept { AllKept (T.envelope session.old.travel) (memory session.old) (event (certify (domain_named domain) (min states max_blocks)) (by_verdict result) ∷ []) }
    ensures left { memory session.new ≡ afters (T.envelope session.old.travel).home (memory session.old) (event (certify (domain_named domain) (min states max_blocks)) (by_verdict result) ∷ []) }
    ensures travel { session.new.travel ≡ session.old.travel }
{
    match domain {
        DomainName::Intervals => {
            certify_with(session, &mut [Intervals::none(); MAX_BLOCKS], states)
        }
        DomainName::Congruences => {
            certify_with(session, &mut [Congruences::none(); MAX_BLOCKS], states)
        }
        DomainName::IntervalsAndCongruences => {
            certify_with(session, &mut [Both::none(); MAX_BLOCKS], states)
        }
        DomainName::CongruencesAndIntervals => {
            certify_with(session, &mut [Turned::none(); MAX_BLOCKS], states)
        }
        DomainName::TwiceIntervals => {
            certify_with(session, &mut [Twice::none(); MAX_BLOCKS], states)
        }
    }
}

fn play_call<T: Travel>(session: &mut Session<T>, call: Call) -> Result<Reply, Refusal>
    ensures kept { AllKept (T.envelope session.old.travel) (memory session.old) (event (call_of call.entry) (by_reply result) ∷ []) }
    ensures left { memory session.new ≡ afters (T.envelope session.old.travel).home (memory session.old) (event (call_of call.entry) (by_reply result) ∷ []) }
    ensures travel { session.new.travel ≡ session.old.travel }
{
    match call {
        Call::Line(text) => Line { text }.play(session)?,
        Call::Allow { parameter, range } => {
            let parameter = u32::try_from(parameter).unwrap_or(0);
            Allow { parameter, range }.play(session)?
        }
        Call::Wipe => Wipe.play(session),
        Call::Certify { domain, states } => {
            return Ok(Reply::Certified(certify_in(session, domain, states)?));
        }
        Call::Start { values } => Start { values }.play(session)?,
        Call::Step => return Ok(Step.play(session)?.into()),
        Call::Dry { values, steps } => {
            return Ok(Reply::Came(Dry { values, steps }.play(session)?));
        }
    }
    Ok(Reply::Done)
}

impl<'a> Calls for Entry<'a> {
    type Answers = Reply;

    ghost events = { λ entry _ reply. events_of entry reply };

    ghost stays = { Stays };

    fn play<T: Travel>(&mut self, session: &mut Session<T>) -> Reply {
        match *self {
            Entry::Call(call) => play_call(session, call).unwrap_or_else(Reply::Refused),
            Entry::Table(_) | Entry::Note(_) => Reply::Done,
        }
    }
}

// What is printed for an entry: of a call its reply, of a table that it is there, and a note itself.
#[derive(Clone, Copy)]
pub struct Answer<'a> {
    pub entry: Entry<'a>,
    pub reply: Reply,
}

impl<'a> fmt::Display for Answer<'a> {
    ghost output = { λ answer. Some (entry_text answer.entry answer.reply) };

    fn fmt<W: fmt::Write>(&self, f: &mut fmt::Formatter<W>) -> fmt::Result {
        match self.entry {
            Entry::Call(_) => write!(f, "{}", self.reply),
            Entry::Table(_) => write!(f, "ok"),
            Entry::Note(note) => write!(f, "{note}"),
        }
    }
}
