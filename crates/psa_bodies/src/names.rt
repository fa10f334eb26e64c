ghost use Rattle.std.specs.Prelude.{◌≡◌, ◌++◌, ◌∷◌, [], IfOk};
ghost use Rattle.std.specs.List.{join_by};
ghost use Rattle.psa_model.specs.PathNames.{dot};
ghost use Rattle.psa_names.specs.Outlines.{entry_of};
ghost use Rattle.psa_names.specs.NameSpaces.{family_of, is_scoped as is_scoped_family};
ghost use Rattle.psa_names.specs.ModelOfDraft.{model_name as name_in_model};

use psa_model::{DefinitionKind, DraftDefinition};
use psa_text::{OutOfMemory, Text};
use std::alloc::Global;

/// The name of a definition in the model: of a private gate, event or parameter its path.
pub fn model_name(alloc: Global, definition: &DraftDefinition) -> Result<Text, OutOfMemory>
    ensures { IfOk result (λ name. name ≡ name_in_model (entry_of definition.now)) }
{
    if definition.private && is_scoped(definition.kind) {
        path_of(
            alloc,
            definition.container.as_slice(),
            definition.name.as_str(),
        )
    } else {
        Text::from_str(alloc, definition.name.as_str())
    }
}

/// Whether definitions of a kind are searched in containers.
fn is_scoped(kind: DefinitionKind) -> bool
    ensures { result ≡ is_scoped_family (family_of kind) }
{
    match kind {
        DefinitionKind::Gate => true,
        DefinitionKind::BasicEvent => true,
        DefinitionKind::HouseEvent => true,
        DefinitionKind::Parameter => true,
        DefinitionKind::FaultTree => false,
        DefinitionKind::Group => false,
        DefinitionKind::InitiatingEvent => false,
        DefinitionKind::EventTree => false,
        DefinitionKind::FunctionalEvent => false,
        DefinitionKind::Sequence => false,
        DefinitionKind::Branch => false,
        DefinitionKind::Rule => false,
        DefinitionKind::Component => false,
    }
}

/// A path: the names around a definition and its own, joined by dots.
fn path_of(alloc: Global, container: &[Text], name: &str) -> Result<Text, OutOfMemory>
    ensures { IfOk result (λ path. path
        ≡ join_by (λ part. part) (dot ∷ []) (container.now ++ name.now ∷ [])) }
{
    let mut path = String::new(alloc);
    for part in container {
        path.push_str(part.as_str())?;
        path.push_str(".")?;
    }
    path.push_str(name)?;
    Text::from_str(alloc, path.as_str())
}
