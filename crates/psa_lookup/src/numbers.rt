ghost use Rattle.std.specs.Prelude.{◌≡◌, ℕ, IfOk, OnOk};
ghost use Rattle.psa_spaces.specs.Paths.{AreContainers, IsPath, Path};
ghost use Rattle.psa_lookup.specs.Numbers.{IsNumbered};

use psa_model::DraftDefinition;
use psa_spaces::Containers;
use psa_text::{Items, OutOfMemory, Text};
use std::alloc::Global;

/// The containers of a draft, and the number of each definition's.
#[derive(Drop)]
pub struct Numbered<'a> {
    pub containers: Containers<'a>,
    pub numbers: Items<u32>,
}

/// The number of the container with these names, from the outside.
fn enter_all<'a>(containers: &mut Containers<'a>, names: &'a [Text]) -> Result<u32, OutOfMemory>
    requires { AreContainers containers.old }
    ensures entered { IfOk result (λ number. IsPath containers.new number names.now) }
    ensures kept { OnOk result ((number : ℕ) (path : Path)
        → IsPath containers.old number path → IsPath containers.new number path) }
    ensures containers { OnOk result (AreContainers containers.new) }
{
    let mut number = 0;
    for name in names {
        number = containers.enter(number, name.as_bytes())?;
    }
    Ok(number)
}

/// The numbers of the containers of definitions.
pub fn number_containers(
    alloc: Global,
    definitions: &[DraftDefinition],
) -> Result<Numbered<'_>, OutOfMemory>
    ensures { IfOk result (λ made. IsNumbered made.containers made.numbers definitions.now) }
{
    let mut containers = Containers::new(alloc);
    let mut numbers = Items::new(alloc);
    for definition in definitions {
        let number = enter_all(&mut containers, definition.container.as_slice())?;
        numbers.push(number)?;
    }
    Ok(Numbered {
        containers,
        numbers,
    })
}
