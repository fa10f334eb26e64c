ghost use Rattle.std.specs.Prelude.{◌≡◌, [], IfOk, OnOk};
ghost use Rattle.psa_spaces.specs.Addresses.{Address, address_of, place_of, place_after};

use crate::Key;
use indexmap::IndexMap;
use psa_text::OutOfMemory;
use std::alloc::Global;
use std::marker::Model;

/// The first place of each key. Contracts see the keys with their places.
#[derive(Drop)]
pub struct Places<'a> {
    map: IndexMap<Key<'a>, u32>,
}

impl<'a> Model for Places<'a> {
    ghost use Rattle.std.specs.Prelude.{List, ℕ};
    ghost use Rattle.psa_spaces.specs.declared.key.Key.{Key};

    ghost Value = { List (Key × ℕ) };

    ghost view = { λ p. p.map.entries };
}

impl<'a> Places<'a> {
    /// No key has a place.
    pub fn new(alloc: Global) -> Places<'a>
        ensures { result ≡ [] }
    {
        Places {
            map: IndexMap::new(alloc),
        }
    }

    /// The first place of a key.
    pub fn get(&self, key: Key) -> Option<u32>
        ensures { result ≡ place_of self.now (address_of key.entry) }
    {
        self.map.get(&key).copied()
    }

    /// Gives a key a place unless it has one, and answers the one that it had.
    pub fn note(&mut self, key: Key<'a>, place: u32) -> Result<Option<u32>, OutOfMemory>
        ensures before { IfOk result
            (λ before. before ≡ place_of self.old (address_of key.entry)) }
        ensures after { OnOk result ((address : Address)
            → place_of self.new address ≡ place_after self.old (address_of key.entry) place address) }
    {
        match self.map.get(&key) {
            Some(first) => Ok(Some(*first)),
            None => {
                self.map.insert(key, place)?;
                Ok(None)
            }
        }
    }
}
