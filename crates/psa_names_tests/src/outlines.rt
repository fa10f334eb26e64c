use crate::lines::{put, put_number};
use psa_model::{
    BasicEvent, Connective, EventTree, FaultKind, Formula, FormulaId, Gate, Group, Instruction,
    Model, ModelFault, RuleDefinition, Sequence, Valued,
};

/// What names became in a model, as lines: its gates with their formulas, its basic events, groups with
/// their members, sequences, rules and event trees with the numbers of the formulas that they collect,
/// the collected formulas, and the order of values. What is referred to is told by its place in its list.
pub fn put_model(out: &mut String, model: &Model) {
    put_gates(out, model.gates.as_slice());
    put_basics(out, model.basics.as_slice());
    put_groups(out, model.groups.as_slice());
    put_sequences(out, model.sequences.as_slice());
    put_rules(out, model.rules.as_slice());
    put_event_trees(out, model.event_trees.as_slice());
    put_formulas(out, model.formulas.as_slice());
    put_order(out, model.order.as_slice());
}

fn put_gates(out: &mut String, gates: &[Gate]) {
    for gate in gates {
        put(out, "gate ");
        put(out, gate.name.as_str());
        put(out, " tree ");
        put_number(out, &gate.tree.0);
        put(out, " ");
        put_formula(out, &gate.formula);
        put(out, "\n");
    }
}

fn put_basics(out: &mut String, basics: &[BasicEvent]) {
    for basic in basics {
        put(out, "basic ");
        put(out, basic.name.as_str());
        put(out, " ");
        put_number(out, &basic.place.file);
        put(out, ":");
        put_number(out, &basic.place.line);
        put(out, "\n");
    }
}

fn put_groups(out: &mut String, groups: &[Group]) {
    for group in groups {
        put(out, "group ");
        put(out, group.name.as_str());
        put(out, " of");
        for member in group.members.as_slice() {
            put(out, " ");
            put_number(out, &member.0);
        }
        put(out, "\n");
    }
}

fn put_sequences(out: &mut String, sequences: &[Sequence]) {
    for sequence in sequences {
        put(out, "sequence ");
        put(out, sequence.name.as_str());
        put(out, " tree ");
        put_number(out, &sequence.tree.0);
        put_collected(out, sequence.instructions.as_slice());
    }
}

fn put_rules(out: &mut String, rules: &[RuleDefinition]) {
    for rule in rules {
        put(out, "rule ");
        put(out, rule.name.as_str());
        put_collected(out, rule.instructions.as_slice());
    }
}

/// The event trees, with what is collected before their first fork.
fn put_event_trees(out: &mut String, trees: &[EventTree]) {
    for tree in trees {
        put(out, "event-tree ");
        put(out, tree.name.as_str());
        put_collected(out, tree.start.instructions.as_slice());
    }
}

/// The numbers of the formulas that instructions collect, outside of blocks and conditions.
fn put_collected(out: &mut String, instructions: &[Instruction]) {
    put(out, " collects");
    for instruction in instructions {
        if let Instruction::Collect(FormulaId(number)) = instruction {
            put(out, " ");
            put_number(out, number);
        }
    }
    put(out, "\n");
}

fn put_formulas(out: &mut String, formulas: &[Formula]) {
    for formula in formulas {
        put(out, "formula ");
        put_formula(out, formula);
        put(out, "\n");
    }
}

fn put_order(out: &mut String, order: &[Valued]) {
    for valued in order {
        match valued {
            Valued::Basic(event) => put_numbered(out, "value basic ", &event.0),
            Valued::Group(group) => put_numbered(out, "value group ", &group.0),
        }
        put(out, "\n");
    }
}

fn put_numbered(out: &mut String, word: &str, number: &u32) {
    put(out, word);
    put_number(out, number);
}

fn put_formula(out: &mut String, formula: &Formula) {
    match formula {
        Formula::Gate(gate) => put_numbered(out, "gate ", &gate.0),
        Formula::Basic(event) => put_numbered(out, "basic ", &event.0),
        Formula::House(house) => put_numbered(out, "house ", &house.0),
        Formula::Constant(value) => put(out, if *value { "true" } else { "false" }),
        Formula::Connective {
            operator,
            arguments,
            ..
        } => {
            put(out, connective_word(*operator));
            for argument in arguments.as_slice() {
                put(out, " ");
                put_formula(out, argument);
            }
            put(out, ")");
        }
    }
}

fn connective_word(operator: Connective) -> &'static str {
    match operator {
        Connective::And => "(and",
        Connective::Or => "(or",
        Connective::Not => "(not",
        _ => "(another",
    }
}

/// A fault as its file and line, its kind and the name that it tells.
pub fn put_fault(out: &mut String, fault: &ModelFault) {
    put_number(out, &fault.file);
    put(out, ":");
    put_number(out, &fault.line);
    put(out, fault_word(fault.kind));
    put(out, fault.name.as_str());
}

fn fault_word(kind: FaultKind) -> &'static str {
    match kind {
        FaultKind::Duplicate => ": duplicate ",
        FaultKind::Undefined => ": undefined ",
        FaultKind::WrongKind => ": wrong kind ",
        FaultKind::BadGroup => ": bad group ",
        FaultKind::Cycle => ": cycle ",
        FaultKind::TooDeep => ": too deep ",
        _ => ": another fault ",
    }
}
