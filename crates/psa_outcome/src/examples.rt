//! What the definitions say of small inputs. The functions do nothing: their contracts are the
//! examples.
ghost use Rattle.std.specs.Prelude.{◌≡◌, [], ◌∷◌, true, false, None, Ok, Err, codes, map};
ghost use Rattle.psa_logic.specs.Products.{IsListing};
ghost use Rattle.psa_model.specs.declared.fault.FaultKind.TheVariants.{UnknownElement};
ghost use Rattle.psa_model.specs.declared.settings.Settings.{Settings};
ghost use Rattle.psa_model.specs.declared.targets.Target.TheVariants.{TopEvent};
ghost use Rattle.psa_model.specs.Expansion.{expanded_of};
ghost use Rattle.psa_model.specs.FaultTexts.{fault_line};
ghost use Rattle.psa_model.specs.Names.{ranked_text};
ghost use Rattle.psa_model.specs.Quantities.{has_quantities};
ghost use Rattle.psa_model.specs.Ranks.{ranks_of};
ghost use Rattle.psa_model.specs.Report.{IsProductOf, IsSection};
ghost use Rattle.psa_elements.specs.ExampleTrees.{stray_if};
ghost use Rattle.psa_outcome.specs.Analyses.{analysis_of};
ghost use Rattle.psa_outcome.specs.AnalysisExample.{no_value_fault, no_value_model, no_value_tree};
ghost use Rattle.psa_outcome.specs.GroupRanksExample.{group_gate_model, numbered};
ghost use Rattle.psa_outcome.specs.SampleText.{sample_text, two_trains};
ghost use Rattle.psa_outcome.specs.UnityExample.{unity_analysis};

/// An `if` that stands in no event tree is an unknown element, whatever is asked for.
pub fn a_stray_if_is_the_first_fault()
    ensures { (settings : Settings) → analysis_of settings (stray_if ∷ [])
        ≡ Err (record { kind = UnknownElement; file = 0; line = 1; name = codes "if" }) }
{}

/// An event without an expression is a fault exactly where quantities are asked for; the line tells
/// the file, the line and the event.
pub fn an_event_without_value_is_a_fault_of_quantities()
    ensures asked { (settings : Settings) → has_quantities settings ≡ true
        → analysis_of settings (no_value_tree ∷ []) ≡ Err no_value_fault }
    ensures not_asked { (settings : Settings) → has_quantities settings ≡ false
        → analysis_of settings (no_value_tree ∷ [])
        ≡ Ok (record {
          settings = settings;
          expanded = expanded_of settings.ccf no_value_model;
          values = None;
        }) }
    ensures line { fault_line (codes "m.xml") no_value_fault
        ≡ codes "scram: m.xml:1: no value a\n" }
{}

/// The text of the sample of two trains.
pub fn the_sample_of_two()
    ensures { sample_text 2 ≡ two_trains }
{}

/// The events of an expanded group of three members, by rank in a gate that is `and` of them: the
/// subsets that hold the first member, then those met at the second, then at the third.
pub fn events_of_a_group_by_rank()
    ensures ranks { ranks_of (expanded_of true group_gate_model) (TopEvent (record { 0 = 0 }))
        ≡ numbered (0 ∷ 3 ∷ 4 ∷ 6 ∷ 1 ∷ 5 ∷ 2 ∷ []) }
    ensures names { map
        (ranked_text (expanded_of true group_gate_model)
        (numbered (0 ∷ 3 ∷ 4 ∷ 6 ∷ 1 ∷ 5 ∷ 2 ∷ [])))
        (0 ∷ 1 ∷ 2 ∷ 3 ∷ 4 ∷ 5 ∷ 6 ∷ [])
        ≡ codes "[A]" ∷ codes "[A B]" ∷ codes "[A C]" ∷ codes "[A B C]" ∷ codes "[B]"
        ∷ codes "[B C]" ∷ codes "[C]" ∷ [] }
{}

/// A top event that always occurs has one product, the empty one, printed as `unity`: as minimal
/// cut set and as prime implicant, and within every order limit, so within the least, which is 1.
pub fn a_certain_top_event_is_unity()
    ensures listing { (settings : Settings) → IsListing
        (IsProductOf (unity_analysis settings) (TopEvent (record { 0 = 0 }))) ([] ∷ []) }
    ensures section { (settings : Settings) → has_quantities settings ≡ false → IsSection
        (unity_analysis settings) (TopEvent (record { 0 = 0 }))
        (codes "top-event F top\n- 0 unity\ncount 1\n") }
{}
