use crate::lines::{put, put_number};
use psa_model::{
    Connective, DefinitionKind, Draft, DraftBody, DraftBranch, DraftBranchEnd, DraftDefinition,
    DraftExpression, DraftFactor, DraftFormula, DraftGroup, DraftInstruction, DraftReference,
    DraftTest, EventKind, ExpressionOperator, FaultKind, GroupModel, ModelFault, Place,
};

/// A draft as lines, one for each definition: where it begins (its file, line and number of elements
/// before it), its kind and name, the names around it, whether it is private, and its body.
pub fn put_draft(out: &mut String, draft: &Draft) {
    for definition in draft.definitions.as_slice() {
        put_definition(out, definition);
        put(out, "\n");
    }
}

fn put_definition(out: &mut String, definition: &DraftDefinition) {
    put_position(out, definition.place, definition.tag);
    put(out, kind_word(definition.kind));
    put(out, definition.name.as_str());
    for name in definition.container.as_slice() {
        put(out, " in ");
        put(out, name.as_str());
    }
    if definition.private {
        put(out, " private");
    }
    put_body(out, &definition.body)
}

fn truth_word(truth: bool) -> &'static str {
    if truth { "true" } else { "false" }
}

fn put_position(out: &mut String, place: Place, tag: u32) {
    put_number(out, &place.file);
    put(out, ":");
    put_number(out, &place.line);
    put(out, "#");
    put_number(out, &tag);
}

fn kind_word(kind: DefinitionKind) -> &'static str {
    match kind {
        DefinitionKind::FaultTree => " fault-tree ",
        DefinitionKind::Gate => " gate ",
        DefinitionKind::BasicEvent => " basic-event ",
        DefinitionKind::HouseEvent => " house-event ",
        DefinitionKind::Parameter => " parameter ",
        DefinitionKind::Group => " group ",
        DefinitionKind::InitiatingEvent => " initiating-event ",
        DefinitionKind::EventTree => " event-tree ",
        DefinitionKind::FunctionalEvent => " functional-event ",
        DefinitionKind::Sequence => " sequence ",
        DefinitionKind::Branch => " branch ",
        DefinitionKind::Rule => " rule ",
        DefinitionKind::Component => " component ",
    }
}

fn put_body(out: &mut String, body: &DraftBody) {
    match body {
        DraftBody::Nothing => (),
        DraftBody::Formula(formula) => {
            put(out, " formula ");
            put_formula(out, formula)
        }
        DraftBody::Value(None) => put(out, " no value"),
        DraftBody::Value(Some(expression)) => {
            put(out, " value ");
            put_expression(out, expression)
        }
        DraftBody::State(state) => {
            put(out, " state ");
            put(out, truth_word(*state));
        }
        DraftBody::Group(group) => put_group(out, group),
        DraftBody::Start(None) => put(out, " no start"),
        DraftBody::Start(Some(tree)) => put_named(out, " (start ", tree),
        DraftBody::Steps(instructions, link) => {
            put(out, " steps");
            put_instructions(out, instructions.as_slice());
            match link {
                Some(tree) => put_named(out, " (link ", tree),
                None => (),
            }
        }
        DraftBody::Walk(branch) => {
            put(out, " walk");
            put_branch(out, branch)
        }
    }
}

/// A reference in parentheses, behind a word.
fn put_named(out: &mut String, word: &str, reference: &DraftReference) {
    put(out, word);
    put_reference(out, reference);
    put(out, ")")
}

fn put_reference(out: &mut String, reference: &DraftReference) {
    put(out, reference.name.as_str());
    put(out, "@");
    put_position(out, reference.place, reference.tag)
}

fn put_formula(out: &mut String, formula: &DraftFormula) {
    match formula {
        DraftFormula::Event(kind, reference) => put_named(out, event_word(*kind), reference),
        DraftFormula::Constant(value) => put(out, truth_word(*value)),
        DraftFormula::Connective {
            operator,
            min,
            max,
            arguments,
        } => {
            put(out, connective_word(*operator));
            put_number(out, min);
            put(out, "-");
            put_number(out, max);
            for argument in arguments.as_slice() {
                put(out, " ");
                put_formula(out, argument);
            }
            put(out, ")")
        }
    }
}

fn event_word(kind: EventKind) -> &'static str {
    match kind {
        EventKind::Gate => "(gate ",
        EventKind::Basic => "(basic ",
        EventKind::House => "(house ",
        EventKind::Any => "(any ",
    }
}

fn connective_word(operator: Connective) -> &'static str {
    match operator {
        Connective::And => "(and ",
        Connective::Or => "(or ",
        Connective::Not => "(not ",
        Connective::Xor => "(xor ",
        Connective::Iff => "(iff ",
        Connective::Nand => "(nand ",
        Connective::Nor => "(nor ",
        Connective::Imply => "(imply ",
        Connective::Atleast => "(atleast ",
        Connective::Cardinality => "(cardinality ",
    }
}

fn put_expression(out: &mut String, expression: &DraftExpression) {
    match expression {
        DraftExpression::Number(number) => {
            put(out, if number.negative { "-" } else { "" });
            put_number(out, &number.digits);
            put(out, "e");
            put_number(out, &number.exponent);
        }
        DraftExpression::Parameter(reference) => put_named(out, "(parameter ", reference),
        DraftExpression::MissionTime => put(out, "mission-time"),
        DraftExpression::Operation {
            operator,
            arguments,
        } => {
            put(out, operator_word(*operator));
            for argument in arguments.as_slice() {
                put(out, " ");
                put_expression(out, argument);
            }
            put(out, ")")
        }
    }
}

fn operator_word(operator: ExpressionOperator) -> &'static str {
    match operator {
        ExpressionOperator::Neg => "(neg",
        ExpressionOperator::Add => "(add",
        ExpressionOperator::Sub => "(sub",
        ExpressionOperator::Mul => "(mul",
        ExpressionOperator::Div => "(div",
        ExpressionOperator::Exponential => "(exponential",
    }
}

fn put_group(out: &mut String, group: &DraftGroup) {
    put(out, model_word(group.model));
    for member in group.members.as_slice() {
        put(out, " ");
        put_reference(out, member);
    }
    put(out, ") ");
    put_expression(out, &group.distribution);
    put_factors(out, group.factors.as_slice())
}

fn model_word(model: GroupModel) -> &'static str {
    match model {
        GroupModel::Beta => " beta (members",
        GroupModel::Mgl => " MGL (members",
        GroupModel::Alpha => " alpha (members",
    }
}

fn put_factors(out: &mut String, factors: &[DraftFactor]) {
    for factor in factors {
        match factor.level {
            Some(level) => {
                put(out, " (level ");
                put_number(out, &level);
                put(out, " ");
            }
            None => put(out, " (no level "),
        }
        put_expression(out, &factor.expression);
        put(out, ")");
    }
}

/// Instructions, each behind a blank.
#[cycle(instructions)]
fn put_instructions(out: &mut String, instructions: &[DraftInstruction]) {
    for instruction in instructions {
        put(out, " ");
        put_instruction(out, instruction);
    }
}

#[cycle(instructions)]
fn put_instruction(out: &mut String, instruction: &DraftInstruction) {
    match instruction {
        DraftInstruction::Collect(formula) => {
            put(out, "(collect ");
            put_formula(out, formula);
        }
        DraftInstruction::SetHouse(house, state) => {
            put(out, "(set ");
            put(out, truth_word(*state));
            put(out, " ");
            put_reference(out, house);
        }
        DraftInstruction::Rule(rule) => {
            put(out, "(rule ");
            put_reference(out, rule);
        }
        DraftInstruction::Block(instructions) => {
            put(out, "(block");
            put_instructions(out, instructions.as_slice());
        }
        DraftInstruction::If(test, first, second) => {
            put(out, "(if ");
            put_test(out, test);
            put_instructions(out, first.as_slice());
            put(out, " else");
            put_instructions(out, second.as_slice());
        }
    }
    put(out, ")")
}

fn put_test(out: &mut String, test: &DraftTest) {
    let tests = match test {
        DraftTest::Initiating(event) => return put_named(out, "(initiating ", event),
        DraftTest::Functional { name, state } => {
            put(out, "(functional ");
            put(out, state.as_str());
            return put_named(out, " ", name);
        }
        DraftTest::All(tests) => {
            put(out, "(all");
            tests
        }
        DraftTest::Any(tests) => {
            put(out, "(any");
            tests
        }
        DraftTest::Not(tests) => {
            put(out, "(not");
            tests
        }
    };
    for test in tests.as_slice() {
        put(out, " ");
        put_test(out, test);
    }
    put(out, ")")
}

fn put_branch(out: &mut String, branch: &DraftBranch) {
    put_instructions(out, branch.instructions.as_slice());
    match &branch.end {
        DraftBranchEnd::Sequence(sequence) => put_named(out, " (sequence ", sequence),
        DraftBranchEnd::Branch(branch) => put_named(out, " (branch ", branch),
        DraftBranchEnd::Fork(functional, paths) => {
            put(out, " (fork ");
            put_reference(out, functional);
            for path in paths.as_slice() {
                put(out, " (path ");
                put_position(out, path.place, path.tag);
                put(out, " ");
                put(out, path.state.as_str());
                put_branch(out, &path.branch);
                put(out, ")");
            }
            put(out, ")")
        }
    }
}

/// A fault as its file and line, its kind and the name that it tells.
pub fn put_fault(out: &mut String, fault: &ModelFault) {
    put_number(out, &fault.file);
    put(out, ":");
    put_number(out, &fault.line);
    put(out, fault_word(fault.kind));
    put(out, fault.name.as_str());
}

fn fault_word(kind: FaultKind) -> &'static str {
    match kind {
        FaultKind::UnknownElement => ": unknown element ",
        FaultKind::BadAttribute => ": bad attribute ",
        FaultKind::BadNumber => ": bad number ",
        FaultKind::BadName => ": bad name ",
        FaultKind::BadShape => ": bad shape ",
        _ => ": another fault ",
    }
}
