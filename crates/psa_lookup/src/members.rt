ghost use Rattle.std.specs.Prelude.{◌≡◌, ◌∷◌, ◌++◌, [], not, true, IfOk};
ghost use Rattle.std.specs.List.{list_any};
ghost use Rattle.psa_lookup.specs.Members.{same_sense, sense_of_key};

use indexmap::IndexSet;
use psa_names::Sense;
use psa_text::{Items, OutOfMemory};
use std::alloc::Global;
use std::marker::Model;

/// What a member of a group stands for, as a key.
#[derive(Clone, Copy, Debug, PartialEq, Eq, Hash)]
pub struct MemberKey {
    of_group: bool,
    number: u32,
}

/// The key of what a member stands for.
fn key_of(sense: Sense) -> MemberKey
    ensures { sense_of_key result ≡ sense }
{
    match sense {
        Sense::Definition(number) => MemberKey {
            of_group: false,
            number,
        },
        Sense::OfGroup(number) => MemberKey {
            of_group: true,
            number,
        },
    }
}

/// What a member with this key stands for.
fn sense_at(key: MemberKey) -> Sense
    ensures { result ≡ sense_of_key key }
{
    if key.of_group {
        Sense::OfGroup(key.number)
    } else {
        Sense::Definition(key.number)
    }
}

/// The members of groups, each once. Contracts see what they stand for, in the order in which they came.
#[derive(Drop)]
pub struct Members {
    keys: IndexSet<MemberKey>,
}

impl Model for Members {
    ghost use Rattle.std.specs.Prelude.{List, map};
    ghost use Rattle.psa_names.specs.declared.found.Sense.{Sense};
    ghost use Rattle.psa_lookup.specs.Members.{sense_of_key};

    ghost Value = { List Sense };

    ghost view = { λ m. map sense_of_key m.keys.keys };
}

impl Members {
    /// No member.
    pub fn new(alloc: Global) -> Members
        ensures { result ≡ [] }
    {
        Members {
            keys: IndexSet::new(alloc),
        }
    }

    /// Adds a member unless it stands, and answers whether it is new.
    pub fn add(&mut self, sense: Sense) -> Result<bool, OutOfMemory>
        ensures new { IfOk result
            (λ is_new. is_new ≡ not (list_any (same_sense sense) self.old)) }
        ensures added { IfOk result (λ is_new. is_new ≡ true → self.new ≡ self.old ++ sense ∷ []) }
    {
        let is_new = self.keys.insert(key_of(sense))?;
        Ok(is_new)
    }

    /// What the members stand for.
    pub fn senses(&self, alloc: Global) -> Result<Items<Sense>, OutOfMemory>
        ensures { IfOk result (λ senses. senses ≡ self.now) }
    {
        let mut senses = Items::new(alloc);
        for key in self.keys.as_slice() {
            senses.push(sense_at(*key))?;
        }
        Ok(senses)
    }
}
