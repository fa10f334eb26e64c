//! What can be said of drafts in general. The function does nothing: its contract is the law.
ghost use Rattle.std.specs.Prelude.{◌≡◌, ◌≤◌, All, List, None, length};
ghost use Rattle.psa_elements.specs.DraftReading.{draft_of};
ghost use Rattle.psa_elements.specs.ShapeFaults.{shape_fault};
ghost use Rattle.psa_model.specs.Drafts.{IsDraft};
ghost use Rattle.psa_text.specs.declared.limits.TheConstants.{MAX_DEPTH, MAX_ELEMENTS};
ghost use Rattle.psa_text.specs.declared.tree.Element.{Element};
ghost use Rattle.psa_text.specs.Tree.{depth};
ghost use Rattle.psa_text.specs.TreeSize.{elements_in};
ghost use Rattle.psa_model.specs.declared.limits.TheConstants.{MAX_FILES};

/// What files say whose elements have no fault of shape is a draft that is promised, where there are
/// at most `MAX_FILES` files, each of at most `MAX_ELEMENTS` elements and at most `MAX_DEPTH` deep:
/// each definition's body is that of its kind and its container is defined before it, connectives,
/// operations, tests and conditionals have their numbers of arguments, nothing is nested deeper than
/// `MAX_NESTING`, definitions stand in document order, no two references and no two definitions or
/// paths of forks have one position, and the draft's size is at most `MAX_SIZE`.
pub fn drafts_keep_their_promise()
    ensures { (roots : List Element) → shape_fault roots ≡ None → length roots ≤ MAX_FILES
        → All (λ root. elements_in root ≤ MAX_ELEMENTS) roots
        → All (λ root. depth root ≤ MAX_DEPTH) roots → IsDraft (draft_of roots) }
{}
