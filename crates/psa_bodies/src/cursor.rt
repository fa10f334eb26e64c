ghost use Rattle.std.specs.Prelude.{◌≡◌, ◌∷◌, [], MatchOption};

use psa_names::Sense;
use std::marker::Model;

/// The senses of the references that are still to come.
#[derive(Drop)]
pub struct Cursor<'a> {
    rest: &'a [Sense],
}

impl<'a> Model for Cursor<'a> {
    ghost use Rattle.std.specs.Prelude.{List};
    ghost use Rattle.psa_names.specs.declared.found.Sense.{Sense};

    ghost Value = { List Sense };

    ghost view = { λ cursor. cursor.rest.now };
}

impl<'a> Cursor<'a> {
    /// A cursor before these senses.
    pub fn new(senses: &'a [Sense]) -> Cursor<'a>
        ensures { result ≡ senses.now }
    {
        Cursor { rest: senses }
    }

    /// The senses that are still to come.
    pub fn rest(&self) -> &'a [Sense]
        ensures { result.now ≡ self.now }
    {
        self.rest
    }

    /// The sense of the next reference.
    pub fn next(&mut self) -> Option<Sense>
        ensures { MatchOption result ((self.old ≡ []) × (self.new ≡ []))
            (λ sense. self.old ≡ sense ∷ self.new) }
    {
        match self.rest {
            [first, rest @ ..] => {
                self.rest = rest;
                Some(*first)
            }
            [] => None,
        }
    }
}
