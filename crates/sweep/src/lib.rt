//! What is proved of sweeps, for every lawful domain and every lawful travel.

#![tactic(auto)]

ghost use Rattle.model.specs.Environments.{registers};
ghost use Rattle.domain.specs.Tracking.{LosesNothing};
ghost use Rattle.sweep.specs.Sound.{Sound, NeverStops, Covers, ComesFrom, KeepsLoops};
ghost use Rattle.sweep.specs.Ends.{Ends, OneAnswer, Counted};
ghost use Rattle.sweep.specs.Exact.{Exact};

use domain::domain::Domain;
use travel::travel::Travel;

/// Where an unchanged sweep certifies a closed program, every run of it is safe.
pub fn sound<D: Domain, T: Travel>(travel: &T)
    ensures { Sound D.lattice (T.envelope travel.now) }
{}

/// So no dry run from allowed values stops.
pub fn never_stops<D: Domain, T: Travel>(travel: &T)
    ensures { NeverStops D.lattice (T.envelope travel.now) }
{}

/// An unchanged sweep knows every environment that a run brings to a line, the sweep that judges is one, and it leaves the loops' states as
/// they were.
pub fn covers<D: Domain, T: Travel>(travel: &T)
    ensures known { Covers D.lattice (T.envelope travel.now) }
    ensures judging { ComesFrom D.lattice (T.envelope travel.now) }
    ensures kept { KeepsLoops D.lattice (T.envelope travel.now) }
{}

/// On single values a closed program without loops is judged as its run ends, in a domain that loses nothing on them.
pub fn exact<D: Domain, T: Travel>(travel: &T)
    ensures { LosesNothing registers D.lattice → Exact D.lattice (T.envelope travel.now) }
{}

/// Sweeps come to an end, and the loops' ranks bound how many change one: at first the rank of none for each loop.
pub fn ends<D: Domain, T: Travel>(travel: &T)
    ensures measure { Counted D.lattice }
    ensures ends { Ends D.lattice (T.envelope travel.now) }
{}

/// They come to one answer only.
pub fn one_answer<D: Domain, T: Travel>(travel: &T)
    ensures { OneAnswer D.lattice (T.envelope travel.now) }
{}
