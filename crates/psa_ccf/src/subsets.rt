ghost use Rattle.std.specs.Prelude.{◌≡◌, ◌≤◌, ◌<◌, ◌+◌, ◌-◌, ◌^◌, ◌++◌, map, OnOk};
ghost use Rattle.std.specs.List.{range_with_len};
ghost use Rattle.psa_model.specs.Expansion.{choices, subset_number};
ghost use Rattle.psa_ccf.specs.Sizes.{subsets_of_size};

use psa_model::{ExpandedEvent, GroupId, MAX_MEMBERS};
use psa_text::{Items, OutOfMemory};

/// Adds an event for each subset of this size of so many members, in lexicographic order.
pub fn push_subsets_of_size(
    events: &mut Items<ExpandedEvent>,
    id: GroupId,
    size: u8,
    count: u8,
) -> Result<(), OutOfMemory>
    requires { count ≤ MAX_MEMBERS }
    ensures { OnOk result (events.new ≡ events.old
        ++ map (λ subset. ExpandedEvent.Shared id subset) (subsets_of_size count size)) }
{
    push_choices(events, id, size, 0, count, 0)
}

/// Adds an event for each choice of so many of the members from `place` on, together with those already
/// chosen: first the choices with the member at `place`, then those without it. The recursion is at most
/// `MAX_MEMBERS` deep.
fn push_choices(
    events: &mut Items<ExpandedEvent>,
    id: GroupId,
    size: u8,
    place: u8,
    count: u8,
    chosen: u8,
) -> Result<(), OutOfMemory>
    requires few { count ≤ MAX_MEMBERS }
    requires within { place ≤ count }
    requires earlier { chosen < 2 ^ place }
    ensures { OnOk result (events.new ≡ events.old
        ++ map (λ set. ExpandedEvent.Shared id (chosen + subset_number set))
        (choices size (range_with_len place (count - place)))) }
{
    if size == 0 {
        return events.push(ExpandedEvent::Shared(id, chosen));
    }
    if place == count {
        return Ok(());
    }
    push_choices(
        events,
        id,
        size - 1,
        place + 1,
        count,
        chosen + bit_of(place),
    )?;
    push_choices(events, id, size, place + 1, count, chosen)
}

/// The number of the subset that holds the member at this place alone.
fn bit_of(place: u8) -> u8
    requires { place < MAX_MEMBERS }
    ensures { result ≡ 2 ^ place }
{
    1 << place
}
