ghost use Rattle.std.specs.Prelude.{◌≡◌, ◌++◌, [], map, IfOk, OnOk};
ghost use Rattle.psa_walk.specs.SequenceGroups.{grouped, all_grouped, numbers, target_of};
ghost use Rattle.psa_model.specs.PathTargets.{sequence_targets};

use crate::gathered::Arrived;
use indexmap::IndexSet;
use psa_model::{InitiatingId, Path, SequenceId, Target, Targets};
use psa_text::{Items, OutOfMemory};
use std::alloc::Global;

/// A sequence with the paths that arrived at it, in order.
#[derive(Drop)]
pub struct SequenceGroup {
    pub sequence: SequenceId,
    pub paths: Items<Path>,
}

/// Adds a path to its sequence's group, whose place in the list is that of its number in the set.
fn add(
    alloc: Global,
    groups: &mut Vec<SequenceGroup>,
    places: &mut IndexSet<u32>,
    sequence: SequenceId,
    path: Path,
) -> Result<(), OutOfMemory>
    requires { places.old.keys ≡ numbers groups.old.items }
    ensures places { OnOk result (places.new.keys ≡ numbers groups.new.items) }
    ensures groups { OnOk result (groups.new.items
        ≡ grouped groups.old.items (record { sequence = sequence; path = path })) }
{
    let (place, is_new) = places.insert_full(sequence.0)?;
    if is_new {
        let mut paths = Items::new(alloc);
        paths.push(path)?;
        groups.push(SequenceGroup { sequence, paths })?;
    } else {
        groups[place].paths.push(path)?;
    }
    Ok(())
}

/// The sequences at which paths arrived, in the order of their first path, each with its paths.
fn put_together(alloc: Global, arrived: Vec<Arrived>) -> Result<Vec<SequenceGroup>, OutOfMemory>
    ensures { IfOk result (λ groups. groups.items ≡ all_grouped [] arrived.items) }
{
    let mut groups = Vec::new(alloc);
    let mut places = IndexSet::new(alloc);
    for one in arrived {
        let (sequence, path) = one.into_parts();
        add(alloc, &mut groups, &mut places, sequence, path)?;
    }
    Ok(groups)
}

/// Lists the sequences at which paths of an initiating event arrived.
pub fn list_sequences(
    alloc: Global,
    targets: &mut Targets,
    initiating: InitiatingId,
    arrived: Vec<Arrived>,
) -> Result<(), OutOfMemory>
    ensures { OnOk result
        (targets.new ≡ targets.old ++ sequence_targets initiating.0 arrived.items) }
{
    for one in put_together(alloc, arrived)? {
        let SequenceGroup { sequence, paths } = one;
        targets.push(Target::Sequence {
            initiating,
            sequence,
            paths,
        })?;
    }
    Ok(())
}
