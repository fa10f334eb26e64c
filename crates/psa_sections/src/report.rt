ghost use Rattle.std.specs.Prelude.{◌≡◌, ◌≤◌, ◌<◌, ◌^◌, ◌+◌, ℕ, List, Option, false, [], Some, Err, OnOk, length};
ghost use Rattle.std.specs.List.{slice_get};
ghost use Rattle.psa_model.specs.declared.targets.Target.{Target as TargetValue};
ghost use Rattle.psa_nodes.specs.Nodes.{IsBounded};
ghost use Rattle.psa_outcome.specs.Loading.{IsLoaded, loaded_analysis};
ghost use Rattle.psa_outcome.specs.RunOutcome.{IsBetweenSections};
ghost use Rattle.psa_outcome.specs.Runs.{ReportedFirst, ReportedPart};
ghost use Rattle.psa_ports.specs.Counts.{Rose};
ghost use Rattle.psa_prep.specs.Index.{IsIndex};
ghost use Rattle.psa_sections.specs.Reports.{EndsReport, HasReport, IsFullReport, WritesTarget, report_error};

use crate::products::products_of_target;
use crate::section::write_section;
use psa_model::MAX_ORDER;
use psa_nodes::{NodeError, NodeTable, Steps};
use psa_outcome::Loaded;
use psa_ports::Sink;
use psa_prep::EventIndex;
use psa_report::{WriteFault, write_head};
use std::alloc::Global;
use std::marker::Brand;
use std::sync::ledger::{Blank, Ledger};
use thiserror::Error;

/// Why a report was not written to its end.
#[derive(Clone, Copy, Debug, PartialEq, Eq, Error)]
pub enum ReportError {
    /// The sink failed.
    #[error("cannot write")]
    Write,
    /// A new node was needed at the target with this number, from 1, and the table had as many as its limit.
    #[error("node limit at target {0}")]
    Full(u32),
    /// Memory was wanting.
    #[error("out of memory")]
    Memory,
}

impl From<WriteFault> for ReportError {
    ghost use Rattle.psa_sections.specs.declared.report.ReportError.TheVariants.{Write};

    ghost from_gives = { λ _ e. e ≡ Write };

    fn from(_error: WriteFault) -> ReportError {
        ReportError::Write
    }
}

/// Why the section of a target was not written.
#[derive(Clone, Copy)]
pub enum TargetError {
    Write,
    Full,
    Memory,
}

impl From<WriteFault> for TargetError {
    ghost use Rattle.psa_sections.specs.declared.report.TargetError.TheVariants.{Write};

    ghost from_gives = { λ _ e. e ≡ Write };

    fn from(_error: WriteFault) -> TargetError {
        TargetError::Write
    }
}

impl From<NodeError> for TargetError {
    ghost use Rattle.psa_sections.specs.Reports.{target_error};

    ghost from_gives = { λ error e. e ≡ target_error error };

    fn from(error: NodeError) -> TargetError {
        match error {
            NodeError::Full => TargetError::Full,
            NodeError::Memory => TargetError::Memory,
        }
    }
}

/// Writes the report on what was loaded: the head, and for each target in order its section, with exactly the
/// minimal cut sets or prime implicants that the settings ask for. The nodes of all targets stay in the table, so
/// that its limit counts them together. `index` is that of the events.
///
/// Write: only where the sink's count of faults rose; a prefix of the report was written. Full: a node was wanted
/// and the table has as many as its limit; the head and the sections before that target were written. Memory: the
/// head and the sections before some target were written.
pub fn write_report<O: Sink>(
    alloc: Global,
    loaded: &Loaded,
    index: &EventIndex,
    out: &mut O,
    table: &mut NodeTable,
) -> Result<(), ReportError>
    requires loaded { IsLoaded loaded.now }
    requires order { loaded.now.settings.limit_order ≤ MAX_ORDER }
    requires shown { loaded.now.settings.validate ≡ false }
    requires events { length loaded.now.expanded.events < 2 ^ 32 }
    requires index { IsIndex loaded.now.expanded index.now }
    requires targets { length loaded.now.targets < 2 ^ 32 }
    requires empty { table.old.nodes ≡ [] }

    ensures finished { OnOk result (HasReport (loaded_analysis loaded.now) table.new
        (O.written out.old) (O.written out.new)) }
    ensures unwritten { result ≡ Err ReportError.Write
        → Rose (O.faults out.old) (O.faults out.new)
        × ReportedPart (loaded_analysis loaded.now) (O.written out.old) (O.written out.new) }
    ensures full { (number : ℕ) → result ≡ Err (ReportError.Full number)
        → IsFullReport (loaded_analysis loaded.now) number table.new
        (O.written out.old) (O.written out.new) }
    ensures memory { result ≡ Err ReportError.Memory
        → IsBetweenSections (loaded_analysis loaded.now) (O.written out.old) (O.written out.new) }
    ensures limit { table.new.limit ≡ table.old.limit }
    ensures later { O.faults out.old ≤ O.faults out.new }
{
    write_head(out, &loaded.settings)?;
    write_sections::<O, Brand>(alloc, loaded, index, out, table, Blank::new(1))
}

/// Writes the sections behind the head.
fn write_sections<O: Sink, L: Ledger>(
    alloc: Global,
    loaded: &Loaded,
    index: &EventIndex,
    out: &mut O,
    table: &mut NodeTable,
    blank: Blank,
) -> Result<(), ReportError>
    requires name { blank.name ≡ L.name }
    requires parts { blank.parts ≡ L.parts }
    requires some { 0 < blank.parts }
    requires loaded { IsLoaded loaded.now }
    requires order { loaded.now.settings.limit_order ≤ MAX_ORDER }
    requires shown { loaded.now.settings.validate ≡ false }
    requires events { length loaded.now.expanded.events < 2 ^ 32 }
    requires index { IsIndex loaded.now.expanded index.now }
    requires targets { length loaded.now.targets < 2 ^ 32 }
    requires empty { table.old.nodes ≡ [] }
    ensures { (before : Option (List ℕ))
        → ReportedFirst (loaded_analysis loaded.now) 0 before (O.written out.old)
        → EndsReport (loaded_analysis loaded.now) (table.old, table.new)
        (O.faults out.old, O.faults out.new) before (O.written out.new) result }
{
    let mut steps = Steps::<L>::begin(blank);
    for place in 0..loaded.targets.len() {
        if let Err(error) = write_target_section(
            alloc, loaded, index, place, out, table, &mut steps,
        ) {
            return Err(stopped(error, place as u32));
        }
    }
    Ok(())
}

/// How a report ends where the section of the target at a place was not written.
fn stopped(error: TargetError, place: u32) -> ReportError
    requires { place + 1 < 2 ^ 32 }
    ensures { result ≡ report_error error place }
{
    match error {
        TargetError::Write => ReportError::Write,
        TargetError::Full => ReportError::Full(place + 1),
        TargetError::Memory => ReportError::Memory,
    }
}

/// Writes the section of the target at a place.
fn write_target_section<O: Sink, L: Ledger>(
    alloc: Global,
    loaded: &Loaded,
    index: &EventIndex,
    place: usize,
    out: &mut O,
    table: &mut NodeTable,
    steps: &mut Steps<L>,
) -> Result<(), TargetError>
    requires loaded { IsLoaded loaded.now }
    requires order { loaded.now.settings.limit_order ≤ MAX_ORDER }
    requires events { length loaded.now.expanded.events < 2 ^ 32 }
    requires index { IsIndex loaded.now.expanded index.now }
    requires place { place < length loaded.now.targets }
    requires bounded { IsBounded table.old.nodes }
    ensures { (target : TargetValue) → slice_get loaded.now.targets place ≡ Some target
        → WritesTarget (loaded_analysis loaded.now) target (table.old, table.new)
        (O.faults out.old, O.faults out.new) (O.written out.old) (O.written out.new) result }
{
    let target = &loaded.targets.as_slice()[place];
    let ranks = &loaded.ranks.as_slice()[place];
    let root = products_of_target(
        alloc,
        table,
        &loaded.settings,
        &loaded.expanded,
        index,
        target,
        ranks,
        steps,
    )?;
    write_section(
        out,
        &loaded.settings,
        &loaded.expanded,
        &loaded.values,
        target,
        ranks,
        table,
        root,
        steps,
    )?;
    Ok(())
}
