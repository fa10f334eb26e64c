ghost use Rattle.std.specs.Prelude.{◌≡◌, ◌-◌, ◌++◌, ◌∷◌, [], false, take, length, IfOk, OnOk};
ghost use Rattle.psa_model.specs.Tests.{took};

use psa_model::{Path, PathStep};
use psa_text::{Items, OutOfMemory, Text};
use smallvec::SmallVec;
use std::alloc::Global;
use std::marker::Model;

/// A fork that was taken: the name of its functional event, and the state of the path taken.
#[derive(Clone, Copy)]
pub struct Taken<'a> {
    pub name: &'a Text,
    pub state: &'a Text,
}

/// So many steps are kept without an allocation: most paths are short.
const SHORT_PATH: usize = 16;

/// What goes along a path: its steps, and the forks taken so far.
#[derive(Drop)]
pub struct Travelled<'a> {
    steps: SmallVec<PathStep, SHORT_PATH>,
    forks: Vec<Taken<'a>>,
}

impl<'a> Model for Travelled<'a> {
    ghost use Rattle.psa_model.specs.Paths.{Travelled};
    ghost use Rattle.psa_walk.specs.TakenForks.{forks_of};

    ghost Value = { Travelled };

    ghost view = { λ w. record { steps = w.steps.items; forks = forks_of w.forks.items } };
}

impl<'a> Travelled<'a> {
    /// No step and no fork.
    pub fn new(alloc: Global) -> Travelled<'a>
        ensures { result ≡ record { steps = []; forks = [] } }
    {
        Travelled {
            steps: SmallVec::new(alloc),
            forks: Vec::new(alloc),
        }
    }

    /// The number of steps.
    pub fn len(&self) -> usize
        ensures { result ≡ length self.now.steps }
    {
        self.steps.len()
    }

    /// The steps so far.
    pub fn path(&self) -> Result<Path, OutOfMemory>
        ensures { IfOk result (λ path. path ≡ self.now.steps) }
    {
        Items::from_slice(*self.steps.allocator(), self.steps.as_slice())
    }

    /// One step more.
    pub fn push(&mut self, step: PathStep) -> Result<(), OutOfMemory>
        ensures { OnOk result
            (self.new ≡ record self.old { steps = self.old.steps ++ step ∷ [] }) }
    {
        self.steps.push(step)?;
        Ok(())
    }

    /// Only the first steps.
    pub fn back_to(&mut self, len: usize)
        ensures { self.new ≡ record self.old { steps = take len self.old.steps } }
    {
        self.steps.truncate(len);
    }

    /// One fork more.
    pub fn take_fork(&mut self, name: &'a Text, state: &'a Text) -> Result<(), OutOfMemory>
        ensures { OnOk result (self.new ≡ record self.old {
          forks = self.old.forks ++ (record { name = name.now; state = state.now }) ∷ [];
        }) }
    {
        self.forks.push(Taken { name, state })?;
        Ok(())
    }

    /// Without the last fork.
    pub fn leave_fork(&mut self)
        ensures { self.new
            ≡ record self.old { forks = take (length self.old.forks - 1) self.old.forks } }
    {
        let _last = self.forks.pop();
    }

    /// Whether the last fork at a functional event of this name took this state.
    pub fn took(&self, name: &Text, state: &Text) -> bool
        ensures { result ≡ took name.now state.now false self.now.forks }
    {
        let forks = self.forks.as_slice();
        for place in (0..forks.len()).rev() {
            let fork = forks[place];
            if fork.name.as_str() == name.as_str() {
                return fork.state.as_str() == state.as_str();
            }
        }
        false
    }
}
