// One thing for each axis.
ghost use Rattle.std.specs.Prelude.{◌≡◌};
ghost use Rattle.model.specs.Axes.{along, replaced};
ghost use Rattle.model.specs.Environments.{position};

use crate::line::Axis;

#[derive(Clone, Copy, Default)]
pub struct Axes<T> {
    pub x: T,
    pub y: T,
    pub z: T,
    pub u: T,
}

// A number for each axis.
pub type Position = Axes<i32>;

impl From<[i32; 4]> for Position {
    ghost from_gives = { λ numbers result. result ≡ position numbers };

    fn from(numbers: [i32; 4]) -> Position {
        let [x, y, z, u] = numbers;
        Position { x, y, z, u }
    }
}

// Where each axis may go, from lower to upper, and where it is at home.
#[derive(Clone, Copy)]
pub struct Ends {
    pub lower: Position,
    pub home: Position,
    pub upper: Position,
}

impl<T: Copy> Axes<T> {
    pub fn get(self, axis: Axis) -> T
        ensures { result ≡ along axis self }
    {
        match axis {
            Axis::X => self.x,
            Axis::Y => self.y,
            Axis::Z => self.z,
            Axis::U => self.u,
        }
    }

    // Gives the axis a new one.
    pub fn set(&mut self, axis: Axis, new: T)
        ensures { self.new ≡ replaced axis new self.old }
    {
        match axis {
            Axis::X => self.x = new,
            Axis::Y => self.y = new,
            Axis::Z => self.z = new,
            Axis::U => self.u = new,
        }
    }
}
