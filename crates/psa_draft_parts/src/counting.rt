ghost use Rattle.std.specs.Prelude.{◌≡◌, ◌+◌, ◌<◌, ◌^◌};
ghost use Rattle.psa_draft_parts.specs.Sayings.{size_of, sizes_of};

use crate::start::Reader;
use psa_text::Element;

/// Counts an element and those in it, which say nothing.
#[cycle(count)]
pub fn pass_over(reader: &mut Reader, element: &Element)
    requires { reader.old.number + size_of element.now < 2 ^ 32 }
    ensures { reader.new.number ≡ reader.old.number + size_of element.now }
{
    reader.number += 1;
    pass_over_all(reader, element.children.as_slice());
}

/// Counts elements and those in them, which say nothing.
#[cycle(count)]
pub fn pass_over_all(reader: &mut Reader, elements: &[Element])
    requires { reader.old.number + sizes_of elements.now < 2 ^ 32 }
    ensures { reader.new.number ≡ reader.old.number + sizes_of elements.now }
{
    for element in elements {
        pass_over(reader, element);
    }
}
