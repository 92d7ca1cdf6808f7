// Registers: the axes X, Y, Z, U and then the parameters #1 to #6.
ghost use Rattle.std.specs.Prelude.{◌<◌};
ghost use Rattle.model.specs.Environments.{registers};

use crate::expression::Parameter;
use crate::line::Axis;

pub const AXES: usize = 4;

pub const PARAMETERS: usize = 6;

pub const REGISTERS: usize = 10;

// One of the registers, by its number from 0.
#[derive(Clone, Copy, PartialEq, Eq)]
pub struct Register {
    pub index: usize,
    ghost known: { index < registers },
}

impl From<Parameter> for Register {
    ghost use Rattle.std.specs.Prelude.{◌≡◌};
    ghost use Rattle.model.specs.Values.{register};

    ghost from_gives = { λ parameter result. result.index ≡ register parameter };

    fn from(parameter: Parameter) -> Register {
        let index = match parameter {
            Parameter::P1 => 4,
            Parameter::P2 => 5,
            Parameter::P3 => 6,
            Parameter::P4 => 7,
            Parameter::P5 => 8,
            Parameter::P6 => 9,
        };
        Register { index }
    }
}

impl From<Axis> for Register {
    ghost use Rattle.std.specs.Prelude.{◌≡◌};
    ghost use Rattle.model.specs.Sides.{axis_register};

    ghost from_gives = { λ axis result. result.index ≡ axis_register axis };

    fn from(axis: Axis) -> Register {
        let index = match axis {
            Axis::X => 0,
            Axis::Y => 1,
            Axis::Z => 2,
            Axis::U => 3,
        };
        Register { index }
    }
}
