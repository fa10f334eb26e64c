//! What can be said of texts and their trees in general. The functions do nothing: their contracts are
//! the laws.
ghost use Rattle.std.specs.Prelude.{◌≡◌, ◌≤◌, ℕ, List};
ghost use Rattle.psa_text.specs.declared.limits.TheConstants.{MAX_DEPTH, MAX_ELEMENTS};
ghost use Rattle.psa_text.specs.declared.scanner.error.TextFault.{TextFault};
ghost use Rattle.psa_text.specs.declared.tree.Element.{Element};
ghost use Rattle.psa_text.specs.TextFaults.{Decides, EndsIn, FirstFault, IsTree, NoFault};
ghost use Rattle.psa_text.specs.TextItems.{AreItems, Placed};
ghost use Rattle.psa_text.specs.TextOutcome.{EachReads, ReadsOnce};
ghost use Rattle.psa_text.specs.Tree.{depth};
ghost use Rattle.psa_text.specs.TreeSize.{elements_in};

/// A text has one reading: no two lists of items spell the same bytes, and no text has two trees.
pub fn each_text_has_one_reading()
    ensures items { (bytes : List ℕ) (items others : List Placed) → AreItems items bytes
        → AreItems others bytes → items ≡ others }
    ensures tree { (bytes : List ℕ) (root other : Element) → IsTree bytes root → IsTree bytes other
        → root ≡ other }
{}

/// A tree is at most `MAX_DEPTH` deep, and where no byte of its text decides a fault, it has at most
/// `MAX_ELEMENTS` elements.
pub fn trees_are_of_limited_size()
    ensures depth { (bytes : List ℕ) (root : Element) → IsTree bytes root → depth root ≤ MAX_DEPTH }
    ensures elements { (bytes : List ℕ) (root : Element) → IsTree bytes root → NoFault bytes
        → elements_in root ≤ MAX_ELEMENTS }
{}

/// A byte behind bytes that decide no fault decides one fault at most. So a text has one first fault
/// at most. It ends in one fault at most, and has no tree then.
pub fn each_fault_is_one()
    ensures byte { (before : List ℕ) (b : ℕ) (one other : TextFault) → NoFault before
        → Decides before b one → Decides before b other → one ≡ other }
    ensures first { (bytes : List ℕ) (one other : TextFault) → FirstFault bytes one
        → FirstFault bytes other → one ≡ other }
    ensures end { (bytes : List ℕ) (one other : TextFault) → EndsIn bytes one → EndsIn bytes other
        → one ≡ other }
    ensures treeless { (bytes : List ℕ) (found : TextFault) (root : Element) → EndsIn bytes found
        → IsTree bytes root → ⊥ }
{}

/// A text comes to one thing: its tree, its first fault or the fault at its end.
pub fn each_text_has_one_outcome()
    ensures exists { EachReads }
    ensures unique { ReadsOnce }
{}
