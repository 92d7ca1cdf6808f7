// The allowed range of each parameter.
ghost use Rattle.std.specs.Prelude.{◌≡◌, ◌≤◌, true, length, OnOk};
ghost use Rattle.std.specs.List.{list_all};
ghost use Rattle.model.specs.Environments.{parameters};
ghost use Rattle.session.specs.Answers.{allow_answer, is_proper};

use crate::refusal::AllowRefusal;
use model::expression::LIMIT;
use model::range::Range;
use model::register::PARAMETERS;

mod table;

/// For each of the parameters #1 to #6 the range that it is allowed, in micrometres.
#[derive(Clone, Copy)]
pub struct Ranges {
    each: [Range; PARAMETERS],
    ghost whole: { length each ≡ parameters },
    ghost proper: { list_all is_proper each ≡ true },
}

// Whether the parameter, from 1, may be allowed the range. It is given by its number, since numbers of no parameter are refused here.
pub fn check_range(parameter: u32, range: Range) -> Result<(), AllowRefusal>
    ensures says { result ≡ allow_answer parameter range }
    ensures known { OnOk result ((1 ≤ parameter) × (parameter ≤ parameters)) }
{
    if parameter < 1 || parameter > PARAMETERS as u32 {
        Err(AllowRefusal::Parameter)
    } else if range.is_empty() || range.lo < -LIMIT || range.hi > LIMIT {
        Err(AllowRefusal::Range)
    } else {
        Ok(())
    }
}
