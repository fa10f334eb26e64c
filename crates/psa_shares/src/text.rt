ghost use Rattle.std.specs.Prelude.{◌≡◌, ◌≤◌, ◌<◌, ◌^◌, ℕ, List, Option, Some, length};
ghost use Rattle.std.specs.List.{slice_get};
ghost use Rattle.psa_model.specs.declared.targets.Target.{Target as TargetValue};
ghost use Rattle.psa_nodes.specs.Nodes.{IsBounded};
ghost use Rattle.psa_outcome.specs.Loading.{IsLoaded, loaded_analysis};
ghost use Rattle.psa_outcome.specs.Runs.{WroteFirst};
ghost use Rattle.psa_prep.specs.Index.{IsIndex};
ghost use Rattle.psa_shares.specs.ShareText.{IsSharesText};
ghost use Rattle.psa_engine.specs.TextEnds.{EndsText};
ghost use Rattle.psa_shares.specs.SectionEnds.{WritesTarget, end_by};

use crate::section::write_shares;
use psa_engine::End;
use psa_model::MAX_ORDER;
use psa_nodes::{NodeError, NodeTable, Steps};
use psa_outcome::Loaded;
use psa_ports::Sink;
use psa_prep::EventIndex;
use psa_report::{WriteFault, write_head};
use psa_sections::products_of_target;
use std::alloc::Global;
use std::marker::Brand;
use std::sync::ledger::{Blank, Ledger};

/// Why a text was not written to its end.
#[derive(Clone, Copy)]
pub enum TextError {
    /// The sink failed.
    Write,
    /// Memory was wanting.
    Memory,
}

impl From<WriteFault> for TextError {
    ghost use Rattle.psa_shares.specs.declared.text.TextError.TheVariants.{Write};

    ghost from_gives = { λ _ e. e ≡ Write };

    fn from(_error: WriteFault) -> TextError {
        TextError::Write
    }
}

impl From<NodeError> for TextError {
    ghost use Rattle.psa_shares.specs.declared.text.TextError.TheVariants.{Memory};

    ghost from_gives = { λ _ e. e ≡ Memory };

    fn from(_error: NodeError) -> TextError {
        TextError::Memory
    }
}

/// How a run ends by how its text ended.
pub fn end_of(written: Result<(), TextError>) -> End
    ensures { result ≡ end_by written }
{
    match written {
        Ok(()) => End::Done,
        Err(TextError::Write) => End::Write,
        Err(TextError::Memory) => End::Memory,
    }
}

/// Writes the head, and the section of each target, whose nodes all stand in one table. `index` is that of the
/// events.
pub fn write_text<O: Sink>(
    alloc: Global,
    loaded: &Loaded,
    index: &EventIndex,
    out: &mut O,
) -> Result<(), TextError>
    requires loaded { IsLoaded loaded.now }
    requires order { loaded.now.settings.limit_order ≤ MAX_ORDER }
    requires events { length loaded.now.expanded.events < 2 ^ 32 }
    requires index { IsIndex loaded.now.expanded index.now }
    requires targets { length loaded.now.targets < 2 ^ 32 }
    ensures ends { EndsText IsSharesText (loaded_analysis loaded.now) (O.faults out.old, O.faults out.new)
        (O.written out.old) (O.written out.new) (end_by result) }
    ensures later { O.faults out.old ≤ O.faults out.new }
{
    let mut table = NodeTable::new(alloc);
    write_head(out, &loaded.settings)?;
    write_sections::<O, Brand>(alloc, loaded, index, out, &mut table, Blank::new(1))
}

/// Writes the sections behind the head.
fn write_sections<O: Sink, L: Ledger>(
    alloc: Global,
    loaded: &Loaded,
    index: &EventIndex,
    out: &mut O,
    table: &mut NodeTable,
    blank: Blank,
) -> Result<(), TextError>
    requires name { blank.name ≡ L.name }
    requires parts { blank.parts ≡ L.parts }
    requires some { 0 < blank.parts }
    requires loaded { IsLoaded loaded.now }
    requires order { loaded.now.settings.limit_order ≤ MAX_ORDER }
    requires events { length loaded.now.expanded.events < 2 ^ 32 }
    requires index { IsIndex loaded.now.expanded index.now }
    requires targets { length loaded.now.targets < 2 ^ 32 }
    requires bounded { IsBounded table.old.nodes }
    ensures ends { (before : Option (List ℕ))
        → WroteFirst IsSharesText (loaded_analysis loaded.now) 0 before (O.written out.old)
        → EndsText IsSharesText (loaded_analysis loaded.now) (O.faults out.old, O.faults out.new)
        before (O.written out.new) (end_by result) }
    ensures later { O.faults out.old ≤ O.faults out.new }
{
    let mut steps = Steps::<L>::begin(blank);
    for place in 0..loaded.targets.len() {
        write_target(alloc, loaded, index, place, out, table, &mut steps)?;
    }
    Ok(())
}

/// Writes the section of the target at a place. The table has no limit of nodes, so a node is refused for want of
/// memory alone.
fn write_target<O: Sink, L: Ledger>(
    alloc: Global,
    loaded: &Loaded,
    index: &EventIndex,
    place: usize,
    out: &mut O,
    table: &mut NodeTable,
    steps: &mut Steps<L>,
) -> Result<(), TextError>
    requires loaded { IsLoaded loaded.now }
    requires order { loaded.now.settings.limit_order ≤ MAX_ORDER }
    requires events { length loaded.now.expanded.events < 2 ^ 32 }
    requires index { IsIndex loaded.now.expanded index.now }
    requires targets { length loaded.now.targets < 2 ^ 32 }
    requires place { place < length loaded.now.targets }
    requires bounded { IsBounded table.old.nodes }
    ensures writes { (target : TargetValue) → slice_get loaded.now.targets place ≡ Some target
        → WritesTarget (loaded_analysis loaded.now) target (O.faults out.old, O.faults out.new)
        (O.written out.old) (O.written out.new) result }
    ensures later { O.faults out.old ≤ O.faults out.new }
    ensures bounded { IsBounded table.new.nodes }
{
    let target = &loaded.targets.as_slice()[place];
    let ranks = &loaded.ranks.as_slice()[place];
    let root = products_of_target(
        alloc,
        table,
        &loaded.settings,
        &loaded.expanded,
        index,
        target,
        ranks,
        steps,
    )?;
    write_shares(out, loaded, place as u32, table, root)?;
    Ok(())
}
