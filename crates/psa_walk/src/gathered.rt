ghost use Rattle.std.specs.Prelude.{◌≡◌, ◌∷◌, []};
ghost use Rattle.psa_model.specs.Paths.{arrives};
ghost use Rattle.psa_walk.specs.Walks.{Gathers};

use crate::travelled::Travelled;
use crate::walk::Stop;
use psa_model::{Path, SequenceId};
use std::alloc::Global;
use std::marker::Model;

/// A path with the sequence that it arrived at.
#[derive(Drop)]
pub struct Arrived {
    sequence: SequenceId,
    path: Path,
}

impl Model for Arrived {
    ghost use Rattle.psa_model.specs.Paths.{Arrived};

    ghost Value = { Arrived };

    ghost view = { λ a. record { sequence = a.sequence; path = a.path } };
}

impl Arrived {
    /// The sequence and the path.
    pub fn into_parts(self) -> (SequenceId, Path)
        ensures { record { sequence = result.0; path = result.1 } ≡ self }
    {
        let Arrived { sequence, path } = self;
        (sequence, path)
    }
}

/// The paths that arrived, and how many more may.
#[derive(Drop)]
pub struct Gathered {
    left: u32,
    arrived: Vec<Arrived>,
}

impl Model for Gathered {
    ghost use Rattle.psa_walk.specs.Walks.{GatheredPaths};

    ghost Value = { GatheredPaths };

    ghost view = { λ f. record { left = f.left; arrived = f.arrived.items } };
}

impl Gathered {
    /// No path yet, where `left` may arrive.
    pub fn new(alloc: Global, left: u32) -> Gathered
        ensures { result ≡ record { left = left; arrived = [] } }
    {
        Gathered {
            left,
            arrived: Vec::new(alloc),
        }
    }

    /// A path arrives.
    pub fn arrive(&mut self, sequence: SequenceId, travelled: &Travelled) -> Result<(), Stop>
        ensures { Gathers
            (arrives (record { sequence = sequence; path = travelled.now.steps }) ∷ [])
            self.old result self.new }
    {
        if self.left == 0 {
            return Err(Stop::TooManyPaths);
        }
        let path = travelled.path()?;
        if self.arrived.push(Arrived { sequence, path }).is_err() {
            return Err(Stop::Memory);
        }
        self.left -= 1;
        Ok(())
    }

    /// How many more paths may arrive.
    pub fn left(&self) -> u32
        ensures { result ≡ self.now.left }
    {
        self.left
    }

    /// The paths that arrived.
    pub fn into_arrived(self) -> Vec<Arrived>
        ensures { result.items ≡ self.arrived }
    {
        let Gathered { arrived, .. } = self;
        arrived
    }
}
