ghost use Rattle.std.specs.Prelude.{◌≡◌};
ghost use Rattle.psa_names.specs.NameSpaces as space;
ghost use Rattle.psa_lookup.specs.Tables.{meant};
ghost use Rattle.psa_lookup.specs.Keys.{has_inside, has_whole, is_one_in_whole, kept_as};

use psa_model::DefinitionKind;
use psa_spaces::Family;

/// The family of a kind of definitions.
pub fn family_of(kind: DefinitionKind) -> Family
    ensures { result ≡ kept_as (space.family_of kind) }
{
    match kind {
        DefinitionKind::FaultTree => Family::FaultTrees,
        DefinitionKind::Gate => Family::Events,
        DefinitionKind::BasicEvent => Family::Events,
        DefinitionKind::HouseEvent => Family::Events,
        DefinitionKind::Parameter => Family::Parameters,
        DefinitionKind::Group => Family::Groups,
        DefinitionKind::InitiatingEvent => Family::InitiatingEvents,
        DefinitionKind::EventTree => Family::EventTrees,
        DefinitionKind::FunctionalEvent => Family::FunctionalEvents,
        DefinitionKind::Sequence => Family::Sequences,
        DefinitionKind::Branch => Family::Branches,
        DefinitionKind::Rule => Family::Rules,
        DefinitionKind::Component => Family::Components,
    }
}

/// Whether a definition of the family is found in the whole model.
pub fn is_in_whole(family: Family, private: bool) -> bool
    ensures { result ≡ has_whole family private }
{
    match family {
        Family::Events | Family::Parameters => !private,
        Family::Components | Family::Sequences | Family::Branches => false,
        _ => true,
    }
}

/// Whether it is found in the container or event tree that it stands directly in.
pub fn is_inside(family: Family, contained: bool) -> bool
    ensures { result ≡ has_inside family contained }
{
    match family {
        Family::Events | Family::Parameters => contained,
        Family::Components | Family::FunctionalEvents | Family::Sequences | Family::Branches =>
            true,
        _ => false,
    }
}

/// Whether only one definition of the family may have a name in the whole model.
pub fn is_one(family: Family) -> bool
    ensures { result ≡ is_one_in_whole family }
{
    !matches!(family, Family::FunctionalEvents)
}

/// Whether the names of the family stand inside what is around them.
pub fn is_inner(family: Family) -> bool
    ensures { result ≡ space.is_inner (meant family) }
{
    matches!(
        family,
        Family::Components | Family::FunctionalEvents | Family::Sequences | Family::Branches
    )
}
