//! Laws of the element table, each the contract of a function that does nothing.
ghost use Rattle.std.specs.List.{IsDistinct};
ghost use Rattle.std.specs.Prelude.{map};
ghost use Rattle.std.specs.Str.{bytes_eq};
ghost use Rattle.psa_elements.specs.ElementTable.{Row, rows_inside, tag_of};

/// A tag names at most one row inside a row: the rows that the children of an element may have have
/// different tags.
pub fn tags_are_apart()
    ensures { (row : Row) → IsDistinct bytes_eq (map tag_of (rows_inside row)) }
{}
