//! What the definitions say of small texts of edits. The functions do nothing: their contracts are the
//! examples.
ghost use Rattle.std.specs.Prelude.{◌≡◌, Bool, [], ◌∷◌, ◌++◌, true, false, None, Some, codes};
ghost use Rattle.psa_model.specs.GroupExample.{group_model};
ghost use Rattle.psa_model.specs.declared.settings.Input.TheVariants.{Files, Sample};
ghost use Rattle.psa_model.specs.declared.settings.Settings.{Settings};
ghost use Rattle.psa_whatif.specs.Edits.{edited, house, meets_house};
ghost use Rattle.psa_whatif.specs.EditText.{reported_states, script_of};
ghost use Rattle.psa_whatif.specs.Examples.{accepted_model, accepted_on, first_edit, first_top, five_lines, five_states, model_at, second_edit, second_top, settings_on};
ghost use Rattle.psa_whatif.specs.WhatIfOutcome.{line_behind};
ghost use Rattle.psa_whatif.specs.WhatIfWords.{asked_by};

/// The five lines over the worked model: five reports, and the fifth line is bad, since no edit is left
/// to take back.
pub fn the_five_lines()
    ensures states { reported_states accepted_model five_lines ≡ five_states }
    ensures bad { (script_of accepted_model five_lines).bad ≡ Some 5 }
    ensures first { edited (first_edit ∷ []) (model_at false 1) ≡ model_at true 1 }
    ensures both { edited (second_edit ∷ first_edit ∷ []) (model_at false 1) ≡ model_at true 3 }
{}

/// Lines that are bad: a space too many at an end or inside, a tab, a carriage return; a name that is
/// none, a name of another kind, a word that is none, a number that is no decimal or not within 0 and
/// 1; and nothing to take back.
pub fn bad_lines()
    ensures space_behind { (script_of accepted_model (codes "undo ")).bad ≡ Some 1 }
    ensures space_before { (script_of accepted_model (codes " house H true")).bad ≡ Some 1 }
    ensures two_spaces { (script_of accepted_model (codes "house  H true")).bad ≡ Some 1 }
    ensures tab { (script_of accepted_model (codes "house" ++ 9 ∷ codes " H true")).bad ≡ Some 1 }
    ensures carriage_return { (script_of accepted_model (codes "house H true" ++ 13 ∷ 10 ∷ [])).bad ≡ Some 1 }
    ensures no_name { (script_of accepted_model (codes "house G true")).bad ≡ Some 1 }
    ensures other_kind { (script_of accepted_model (codes "house a true")).bad ≡ Some 1 }
    ensures no_state { (script_of accepted_model (codes "house H yes")).bad ≡ Some 1 }
    ensures no_decimal { (script_of accepted_model (codes "value a one")).bad ≡ Some 1 }
    ensures above { (script_of accepted_model (codes "value a 1.1")).bad ≡ Some 1 }
    ensures below { (script_of accepted_model (codes "value a -0.1")).bad ≡ Some 1 }
    ensures nothing_left { (script_of accepted_model (codes "undo")).bad ≡ Some 1 }
{}

/// Empty lines are passed over and counted, the last line may lack its end, and an edit may be the one
/// before.
pub fn states_of_lines()
    ensures empty { (script_of accepted_model (codes "\n\nundo")).bad ≡ Some 3 }
    ensures no_lines { script_of accepted_model [] ≡ record { states = []; bad = None } }
    ensures unended { script_of accepted_model (codes "house H true\n\nundo")
        ≡ record { states = (house 0 true ∷ []) ∷ [] ∷ []; bad = None } }
    ensures ends { (script_of accepted_model (codes "value a 1\nvalue b 0\n")).bad ≡ None }
    ensures again { (script_of accepted_model (codes "house H true\nhouse H true")).states
        ≡ (house 0 true ∷ []) ∷ (house 0 true ∷ house 0 true ∷ []) ∷ [] }
{}

/// A probability asks for quantities and for an event outside all groups.
pub fn members_and_quantities()
    ensures without_quantities { (script_of (accepted_on false (model_at false 1)) (codes "value a 0.3")).bad ≡ Some 1 }
    ensures state_without { (script_of (accepted_on false (model_at false 1)) (codes "house H true")).bad ≡ None }
    ensures member { (script_of (accepted_on true group_model) (codes "value A 0.1")).bad ≡ Some 1 }
{}

/// The line of a byte by those before it: a line feed belongs to the line that it ends.
pub fn lines_of_bytes()
    ensures first { line_behind [] ≡ 1 }
    ensures unended { line_behind (codes "undo") ≡ 1 }
    ensures ended { line_behind (codes "undo\n") ≡ 2 }
    ensures empty { line_behind (codes "\n\n") ≡ 3 }
{}

/// The house event is met in the first top event alone.
pub fn met_house_events()
    ensures met { (state : Bool) → meets_house (model_at state 1) first_top 0 ≡ true }
    ensures unmet { (state : Bool) → meets_house (model_at state 1) second_top 0 ≡ false }
{}

/// The first file is that of the edits; a model of one file at least is asked for, and no sample.
pub fn words_that_are_asked()
    ensures files { (sum : Bool) → asked_by (settings_on sum (Files (codes "e.txt" ∷ codes "hx.xml" ∷ [])))
        ≡ Some (record { edits = codes "e.txt"; settings = settings_on sum (Files (codes "hx.xml" ∷ [])) }) }
    ensures lone { (sum : Bool) → asked_by (settings_on sum (Files (codes "e.txt" ∷ []))) ≡ None }
    ensures sample { (sum : Bool) → asked_by (settings_on sum (Sample 3)) ≡ None }
    ensures check { (settings : Settings) → settings.validate ≡ true → asked_by settings ≡ None }
{}
