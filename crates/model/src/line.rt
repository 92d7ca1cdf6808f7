// A stored line.
use crate::expression::{Condition, Parameter, Value};

#[derive(Clone, Copy)]
pub enum Axis {
    X,
    Y,
    Z,
    U,
}

// G0 is a rapid, G1 a feed.
#[derive(Clone, Copy)]
pub enum Motion {
    Rapid,
    Feed,
}

// A move names each axis at most once, and keeps no order of its words.
#[derive(Clone, Copy)]
pub enum Line {
    Plain,
    Setting {
        parameter: Parameter,
        value: Value,
    },
    Move {
        motion: Motion,
        x: Option<Value>,
        y: Option<Value>,
        z: Option<Value>,
        u: Option<Value>,
    },
    While {
        label: u16,
        condition: Condition,
    },
    If {
        label: u16,
        condition: Condition,
    },
    EndIf {
        label: u16,
    },
    EndWhile {
        label: u16,
    },
}
