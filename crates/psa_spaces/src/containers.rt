ghost use Rattle.std.specs.Prelude.{◌≡◌, ◌<◌, ◌∷◌, ◌++◌, ◌^◌, ℕ, [], length, get_or, IfOk, OnOk, IfSome, IfNone, MatchOption, List};
ghost use Rattle.psa_spaces.specs.Paths.{path_at, IsPath, IsAround, AreContainers};

use indexmap::IndexSet;
use psa_text::OutOfMemory;
use std::alloc::{AllocError, Global};
use std::marker::Model;

/// The last name of a container, and the number of the container around it.
#[derive(Clone, Copy, Debug, PartialEq, Eq, Hash)]
pub struct Step<'a> {
    within: u32,
    name: &'a [u8],
}

/// The greatest number of containers.
const MAX_CONTAINERS: usize = 4_294_967_295;

/// Containers by numbers, each once. Contracts see the list of their paths, the names from the outside;
/// what stands in no container is in the number 0, whose path is empty.
#[derive(Drop)]
pub struct Containers<'a> {
    steps: IndexSet<Step<'a>>,
}

impl<'a> Model for Containers<'a> {
    ghost use Rattle.std.specs.Prelude.{List, ℕ};
    ghost use Rattle.psa_spaces.specs.Paths.{paths_of, AreSteps};

    ghost Value = { List (List (List ℕ)) };

    ghost view = { λ c. paths_of c.steps.keys };

    ghost invariant = { λ c. AreSteps c.steps.keys };
}

impl<'a> Containers<'a> {
    /// No container.
    pub fn new(alloc: Global) -> Containers<'a>
        ensures made { result ≡ [] ∷ [] }
        ensures containers { AreContainers result }
    {
        Containers {
            steps: IndexSet::new(alloc),
        }
    }

    /// The number of the container with this name directly in another, a new one where there was none.
    pub fn enter(&mut self, within: u32, name: &'a [u8]) -> Result<u32, OutOfMemory>
        requires { within < length self.old }
        ensures entered { IfOk result
            (λ number. IsPath self.new number (path_at self.old within ++ name.now ∷ [])) }
        ensures kept { OnOk result ((number : ℕ) (path : List (List ℕ))
            → IsPath self.old number path → IsPath self.new number path) }
        ensures containers { OnOk result (AreContainers self.new) }
    {
        if self.steps.len() >= MAX_CONTAINERS {
            return Err(AllocError);
        }
        let (index, _) = self.steps.insert_full(Step { within, name })?;
        Ok(index as u32 + 1)
    }

    /// The number of the container with this name directly in another.
    pub fn find(&self, within: u32, name: &[u8]) -> Option<u32>
        requires { within < length self.now }
        ensures found { IfSome result
            (λ number. IsPath self.now number (path_at self.now within ++ name.now ∷ [])) }
        ensures absent { IfNone result ((number : ℕ)
            → IsPath self.now number (path_at self.now within ++ name.now ∷ []) → ⊥) }
    {
        let index = self.steps.get_index_of(&Step { within, name })?;
        Some(index as u32 + 1)
    }

    /// The number of the container around another; none where it is none.
    pub fn around(&self, number: u32) -> Option<u32>
        requires { number < length self.now }
        ensures inner { IfSome result (IsAround self.now number) }
        ensures outermost { IfNone result (path_at self.now number ≡ []) }
    {
        let steps = &self.steps;
        if number == 0 {
            return None;
        }
        Some(steps.get_index(number as usize - 1)?.within)
    }
}
