ghost use Rattle.std.specs.Prelude.{◌≡◌, [], IfOk, Some};
ghost use Rattle.psa_text.specs.declared.builder.StepError.TheVariants.{Memory};
ghost use Rattle.psa_text.specs.Steps.{Gives};
ghost use Rattle.psa_text.specs.Tree.{element_of};
ghost use Rattle.psa_text.specs.scanner.Nesting.{at_start, finished_root, has_begun, in_label, nesting_after_empty, nesting_after_end, nesting_after_item, nesting_after_start, nesting_with, state_of};

use crate::limits::MAX_DEPTH;
use crate::scanner::bytes::is_blank;
use crate::scanner::item::Item;
use crate::tag::Tag;
use crate::{Element, Items, OutOfMemory};
use std::alloc::Global;
use thiserror::Error;

/// The longest list that is copied to have exactly the room that it needs.
const MAX_COPIED: usize = 64;

/// Why a step was not made: the text does not allow it, or memory ran out.
#[derive(Debug, Clone, Copy, PartialEq, Eq, Drop, Error)]
pub enum StepError {
    #[error("the text does not allow the step")]
    Refused,
    #[error("out of memory")]
    Memory,
}

impl From<OutOfMemory> for StepError {
    ghost from_gives = { λ _ e. e ≡ Memory };

    fn from(_error: OutOfMemory) -> StepError {
        StepError::Memory
    }
}

/// The tree of a text while its items come: the elements that have begun and not ended, outermost
/// first, and the root once it has ended.
#[derive(Drop)]
pub struct Builder {
    open_elements: Items<Element>,
    root: Option<Element>,
}

impl Builder {
    /// The builder of a text of which no item has come.
    pub fn new(alloc: Global) -> Builder
        ensures { state_of result ≡ at_start }
    {
        Builder {
            open_elements: Items::new(alloc),
            root: None,
        }
    }

    /// Takes the next item, which begins at `line`. Refused: where it does not fit, or where an
    /// element would begin deeper than [`MAX_DEPTH`].
    pub fn step(&mut self, alloc: Global, item: Item, line: u32) -> Result<(), StepError>
        ensures { Gives (λ _. state_of self.new) result
            (nesting_after_item item line (state_of self.old)) }
    {
        match item {
            Item::Start(tag) => self.open(alloc, tag, line),
            Item::Empty(tag) => self.open_and_close(alloc, tag, line),
            Item::End(name) => self.close(alloc, name.as_bytes()),
            Item::Doctype if self.has_begun() => Err(StepError::Refused),
            Item::Text(byte) if !self.is_in_label() && !is_blank(byte) => Err(StepError::Refused),
            Item::Doctype | Item::Text(_) | Item::Comment | Item::Instruction => Ok(()),
        }
    }

    /// Whether the root has begun.
    fn has_begun(&self) -> bool
        ensures { result ≡ has_begun (state_of self.now) }
    {
        match self.open_elements.as_slice() {
            [] => self.root.is_some(),
            [..] => true,
        }
    }

    /// Whether the innermost open element is a label.
    pub fn is_in_label(&self) -> bool
        ensures { result ≡ in_label (state_of self.now).open_elements }
    {
        match self.open_elements.as_slice() {
            [.., element] => element.tag.as_str() == "label",
            [] => false,
        }
    }

    /// The root, where it has ended and no element is open.
    pub fn finish(self) -> Option<Element>
        ensures { result ≡ finished_root (state_of self) }
    {
        if self.open_elements.is_empty() {
            self.root
        } else {
            None
        }
    }

    fn open(&mut self, alloc: Global, tag: Tag, line: u32) -> Result<(), StepError>
        ensures { Gives (λ _. state_of self.new) result
            (nesting_after_start tag line (state_of self.old)) }
    {
        if self.open_elements.len() >= MAX_DEPTH || self.root.is_some() {
            return Err(StepError::Refused);
        }
        self.open_elements.push(new_element(alloc, tag, line))?;
        Ok(())
    }

    fn open_and_close(&mut self, alloc: Global, tag: Tag, line: u32) -> Result<(), StepError>
        ensures { Gives (λ _. state_of self.new) result
            (nesting_after_empty tag line (state_of self.old)) }
    {
        if self.open_elements.len() >= MAX_DEPTH || self.root.is_some() {
            return Err(StepError::Refused);
        }
        self.place(new_element(alloc, tag, line))
    }

    fn close(&mut self, alloc: Global, name: &[u8]) -> Result<(), StepError>
        ensures { Gives (λ _. state_of self.new) result
            (nesting_after_end name.now (state_of self.old)) }
    {
        let Some(element) = self.open_elements.pop() else {
            return Err(StepError::Refused);
        };
        if element.tag.as_bytes() != name {
            return Err(StepError::Refused);
        }
        self.place(ended(alloc, element)?)
    }

    /// Puts a whole element where it belongs: last in the innermost open element, or as the root.
    fn place(&mut self, element: Element) -> Result<(), StepError>
        ensures { Gives (λ _. state_of self.new) result
            (Some (nesting_with element (state_of self.old))) }
    {
        match self.open_elements.pop() {
            None => self.root = Some(element),
            Some(mut parent) => {
                parent.children.push(element)?;
                self.open_elements.push(parent)?;
            }
        }
        Ok(())
    }
}

/// The element at its end, with exactly the room that its children need.
fn ended(alloc: Global, element: Element) -> Result<Element, OutOfMemory>
    ensures { IfOk result (λ made. made ≡ element) }
{
    let Element {
        tag,
        line,
        attributes,
        children,
    } = element;
    Ok(Element {
        tag,
        line,
        attributes,
        children: with_exact_room(alloc, children)?,
    })
}

/// The list with exactly the room that it needs. One of more than [`MAX_COPIED`] items stays as it
/// is: the memory behind its last item has never been touched.
fn with_exact_room<T: Drop>(alloc: Global, items: Items<T>) -> Result<Items<T>, OutOfMemory>
    ensures { IfOk result (λ made. made ≡ items) }
{
    let count = items.len();
    if count > MAX_COPIED {
        return Ok(items);
    }
    let mut exact = Items::from_vec(Vec::with_capacity(alloc, count)?);
    exact.append(items)?;
    Ok(exact)
}

/// The element that a tag begins, with nothing in it.
fn new_element(alloc: Global, tag: Tag, line: u32) -> Element
    ensures { result ≡ element_of tag line [] }
{
    Element {
        tag: tag.name,
        line,
        attributes: tag.attributes,
        children: Items::new(alloc),
    }
}
