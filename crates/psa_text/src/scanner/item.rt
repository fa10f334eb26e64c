ghost use Rattle.std.specs.Prelude.{◌≡◌};
ghost use Rattle.psa_text.specs.TextFaults as faults;

use crate::scanner::name::Name;
use crate::tag::Tag;

/// An item of a text (XML 1.0, productions 15, 16, 28 and 40 to 44).
#[derive(Debug, Drop)]
pub enum Item {
    /// A start tag: an element begins.
    Start(Tag),
    /// An empty-element tag: an element with nothing in it.
    Empty(Tag),
    /// An end tag, by its name.
    End(Name),
    /// A document type declaration, without a subset.
    Doctype,
    /// One byte of character data.
    Text(u8),
    /// A comment.
    Comment,
    /// A processing instruction, or the XML declaration.
    Instruction,
}

impl Item {
    /// Whether it is a start or an empty tag.
    pub fn begins_element(&self) -> bool
        ensures { result ≡ faults.begins_element self.now }
    {
        matches!(self, Item::Start(_) | Item::Empty(_))
    }
}
