//! The tables of a circuit, in memory that is reserved when they are opened.
use super::{Gate, Source};
use std::marker::Model;

pub mod changes;
pub mod clearing;
pub mod excitations;
pub mod reads;

/// A circuit. Its lists are vectors that stay within the memory reserved at opening.
#[derive(Drop)]
pub struct Tables {
    applied: Vec<bool>,
    gates: Vec<Gate>,
    sources: Vec<Option<Source>>,
}

impl Model for Tables {
    ghost use Rattle.circuit.specs.Circuits.{Circuit};

    ghost Value = { Circuit };

    ghost use Rattle.circuit.specs.Views.{circuit_of, Keeps};

    ghost view = { circuit_of };

    ghost invariant = { Keeps };
}
