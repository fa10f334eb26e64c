ghost use Rattle.std.specs.Prelude.{◌≡◌};
ghost use Rattle.psa_model.specs.Names.{name_in};
ghost use Rattle.psa_model.specs.Report.{gate_tree_name, sequence_tree_name, target_line};
ghost use Rattle.psa_report.specs.Pieces.{Writes};

use crate::WriteFault;
use crate::pieces::put_all;
use psa_model::{FaultTreeId, GateId, InitiatingId, Model, SequenceId, Target, TreeId};
use psa_ports::Sink;

/// Writes the line of a target: of a top event its fault tree and its gate, of a sequence its initiating event, its
/// event tree and its own name. The name of what does not stand is empty.
/// Refuses only where the sink does; a prefix of the line was written then.
pub fn write_target<S: Sink>(out: &mut S, model: &Model, target: &Target) -> Result<(), WriteFault>
    ensures { Writes (S.written out.old) (S.written out.new) (S.faults out.old) (S.faults out.new)
        (target_line model.now target.now) result }
{
    match target {
        Target::TopEvent(gate) => put_all(
            out,
            &[
                "top-event ",
                gate_tree(model, *gate),
                " ",
                gate_name(model, *gate),
                "\n",
            ],
        ),
        Target::Sequence {
            initiating,
            sequence,
            ..
        } => put_all(
            out,
            &[
                "sequence ",
                initiating_name(model, *initiating),
                " ",
                sequence_tree(model, *sequence),
                " ",
                sequence_name(model, *sequence),
                "\n",
            ],
        ),
    }
}

fn gate_name(model: &Model, gate: GateId) -> &str
    ensures { result.now ≡ name_in (λ g. g.name) model.now.gates gate.0 }
{
    match model.gates.get(gate.0 as usize) {
        Some(gate) => gate.name.as_str(),
        None => "",
    }
}

/// The name of the fault tree that defines a gate.
fn gate_tree(model: &Model, gate: GateId) -> &str
    ensures { result.now ≡ gate_tree_name model.now gate.0 }
{
    match model.gates.get(gate.0 as usize) {
        Some(gate) => fault_tree_name(model, gate.tree),
        None => "",
    }
}

fn fault_tree_name(model: &Model, tree: FaultTreeId) -> &str
    ensures { result.now ≡ name_in (λ tree. tree.name) model.now.fault_trees tree.0 }
{
    match model.fault_trees.get(tree.0 as usize) {
        Some(tree) => tree.name.as_str(),
        None => "",
    }
}

fn initiating_name(model: &Model, initiating: InitiatingId) -> &str
    ensures { result.now ≡ name_in (λ i. i.name) model.now.initiatings initiating.0 }
{
    match model.initiatings.get(initiating.0 as usize) {
        Some(initiating) => initiating.name.as_str(),
        None => "",
    }
}

fn sequence_name(model: &Model, sequence: SequenceId) -> &str
    ensures { result.now ≡ name_in (λ s. s.name) model.now.sequences sequence.0 }
{
    match model.sequences.get(sequence.0 as usize) {
        Some(sequence) => sequence.name.as_str(),
        None => "",
    }
}

/// The name of the event tree that defines a sequence.
fn sequence_tree(model: &Model, sequence: SequenceId) -> &str
    ensures { result.now ≡ sequence_tree_name model.now sequence.0 }
{
    match model.sequences.get(sequence.0 as usize) {
        Some(sequence) => event_tree_name(model, sequence.tree),
        None => "",
    }
}

fn event_tree_name(model: &Model, tree: TreeId) -> &str
    ensures { result.now ≡ name_in (λ tree. tree.name) model.now.event_trees tree.0 }
{
    match model.event_trees.get(tree.0 as usize) {
        Some(tree) => tree.name.as_str(),
        None => "",
    }
}
