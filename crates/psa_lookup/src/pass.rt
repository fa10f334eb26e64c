use crate::placed::Placed;
use psa_names::Sense;
use psa_text::Items;

/// What is found along some names: what each stands for, and the first fault.
#[derive(Drop)]
pub struct Pass<'a> {
    pub senses: Items<Sense>,
    pub first: Option<Placed<'a>>,
}
