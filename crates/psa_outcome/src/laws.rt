//! What can be said of outcomes and origins in general. The functions do nothing: their contracts are
//! the laws.
ghost use Rattle.std.specs.Prelude.{◌≡◌, ℕ, List, Result, Ok, Some, is_some};
ghost use Rattle.psa_text.specs.declared.tree.Element.{Element};
ghost use Rattle.psa_nodes.specs.declared.node.Node.{Node};
ghost use Rattle.psa_nodes.specs.Nodes.{AllFit};
ghost use Rattle.psa_nodes.specs.Readings.{node_at, reading};
ghost use Rattle.psa_nodes.specs.Table.{Table};
ghost use Rattle.psa_model.specs.declared.fault.ModelFault.{ModelFault};
ghost use Rattle.psa_model.specs.declared.settings.Settings.{Settings};
ghost use Rattle.psa_model.specs.declared.targets.Target.{Target};
ghost use Rattle.psa_model.specs.Expansion.{expanded_of};
ghost use Rattle.psa_outcome.specs.Analyses.{analysis_of};
ghost use Rattle.psa_outcome.specs.Brackets.{IsBracketed};
ghost use Rattle.psa_outcome.specs.Inputs.{Told, AllAreTold, IsAnalysis, IsOutcome};
ghost use Rattle.psa_outcome.specs.Origins.{Origin};
ghost use Rattle.psa_outcome.specs.RunOutcome.{BadModelRow, DoneRow};
ghost use Rattle.psa_outcome.specs.Runs.{Run, all_targets};
ghost use Rattle.psa_model.specs.Quantities.{has_quantities};
ghost use Rattle.psa_model.specs.Report.{Analysis, IsReport};

/// An input has at most one first fault or one analysis, and never both. It has one where its files are
/// told.
pub fn inputs_have_one_outcome()
    ensures once { (settings : Settings) (names : List (List ℕ)) (told : Told)
        → (one other : Result Analysis ModelFault)
        → IsOutcome settings names told one → IsOutcome settings names told other → one ≡ other }
    ensures some { (settings : Settings) (names : List (List ℕ)) (told : Told)
        → AllAreTold told names
        → (outcome : Result Analysis ModelFault) × IsOutcome settings names told outcome }
{}

/// An input without a fault has one report.
pub fn inputs_have_one_report()
    ensures { (settings : Settings) (names : List (List ℕ)) (told : Told)
        → (one other : Analysis) (text more : List ℕ)
        → IsAnalysis settings names told one → IsAnalysis settings names told other
        → IsReport one (all_targets one) text → IsReport other (all_targets other) more
        → text ≡ more }
{}

/// Where its files are told, a run whose model has a fault tells one line and is never done.
pub fn fault_lines_are_determined()
    ensures line { (settings : Settings) (run : Run) (files : Told) (line other : List ℕ)
        → run.told ≡ Some files → BadModelRow settings run line → BadModelRow settings run other
        → line ≡ other }
    ensures apart { (settings : Settings) (run : Run) (table : Table) (files : Told) (line other : List ℕ)
        → run.told ≡ Some files → DoneRow settings run table line → BadModelRow settings run other → ⊥ }
{}

/// An analysis keeps its settings, has the events that they ask for, and intervals exactly where they
/// ask for quantities.
pub fn analyses_are_by_their_settings()
    ensures settings { (settings : Settings) (roots : List Element) (analysis : Analysis)
        → analysis_of settings roots ≡ Ok analysis → analysis.settings ≡ settings }
    ensures events { (settings : Settings) (roots : List Element) (analysis : Analysis)
        → analysis_of settings roots ≡ Ok analysis
        → analysis.expanded ≡ expanded_of settings.ccf analysis.expanded.model }
    ensures values { (settings : Settings) (roots : List Element) (analysis : Analysis)
        → analysis_of settings roots ≡ Ok analysis
        → is_some analysis.values ≡ has_quantities settings }
{}

/// The intervals of an analysis hold the exact quantities.
pub fn intervals_of_a_report_hold_exact_values()
    ensures { (settings : Settings) (roots : List Element) (analysis : Analysis)
        → analysis_of settings roots ≡ Ok analysis → IsBracketed analysis }
{}

/// The origin of a node passes to its children.
pub fn origins_pass_to_children()
    ensures high { (analysis : Analysis) (target : Target) (ns : List Node) (id : ℕ)
        → (n child : Node) → AllFit ns
        → node_at ns id ≡ Some n → node_at ns n.hi.0 ≡ Some child
        → Origin analysis target n.kind n.var (reading ns id)
        → Origin analysis target child.kind child.var (reading ns n.hi.0) }
    ensures low { (analysis : Analysis) (target : Target) (ns : List Node) (id : ℕ)
        → (n child : Node) → AllFit ns
        → node_at ns id ≡ Some n → node_at ns n.lo.0 ≡ Some child
        → Origin analysis target n.kind n.var (reading ns id)
        → Origin analysis target child.kind child.var (reading ns n.lo.0) }
{}
