use crate::lines::{put, put_number};
use psa_text::{Document, Element, TextError, TextKind};

/// An element as its tag, line and attributes and, between braces, the elements in it.
fn put_element(out: &mut String, element: &Element) {
    put(out, element.tag.as_str());
    put(out, "@");
    put_number(out, &element.line);
    for attribute in element.attributes.as_slice() {
        put(out, " ");
        put(out, attribute.name.as_str());
        put(out, "=");
        put(out, attribute.value.as_str());
    }
    put(out, "{");
    for child in element.children.as_slice() {
        put_element(out, child);
    }
    put(out, "}");
}

/// A fault as its kind and line.
pub fn put_error(out: &mut String, error: TextError) {
    match error {
        TextError::Fault(fault) => {
            put(
                out,
                match fault.kind {
                    TextKind::LongFile => "long file ",
                    TextKind::BadMarkup => "bad markup ",
                    TextKind::LongToken => "long token ",
                    TextKind::BadNesting => "bad nesting ",
                },
            );
            put_number(out, &fault.line);
        }
        TextError::Memory => put(out, "memory"),
    }
}

/// What a text ends in: its tree, or a fault.
pub fn put_end(out: &mut String, end: &Result<Document, TextError>) {
    match end {
        Ok(document) => put_element(out, &document.root),
        Err(error) => put_error(out, *error),
    }
}
