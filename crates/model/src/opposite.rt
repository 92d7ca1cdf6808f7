// The opposite of a condition: what holds exactly where the condition does not.
ghost use Rattle.std.specs.Prelude.{◌≡◌};
ghost use Rattle.model.specs.Opposites.{against, opposite};

use crate::expression::{Condition, Rel};

fn against(rel: Rel) -> Rel
    ensures { result ≡ against rel }
{
    match rel {
        Rel::Eq => Rel::Ne,
        Rel::Ne => Rel::Eq,
        Rel::Lt => Rel::Ge,
        Rel::Le => Rel::Gt,
        Rel::Gt => Rel::Le,
        Rel::Ge => Rel::Lt,
    }
}

pub fn opposite_of(condition: Condition) -> Condition
    ensures { result ≡ opposite condition }
{
    Condition {
        rel: against(condition.rel),
        ..condition
    }
}
