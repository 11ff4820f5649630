//! Names in order, each found by its number.

ghost use Rattle.std.specs.Prelude.{◌≡◌, ◌<◌, [], ◌∷◌, ◌++◌, IfSome, OnOk, map, string_bytes};
ghost use Rattle.c0_types_tables.specs.Numbered.{place_in};
ghost use Rattle.c0_rules.specs.Types.{number_in};

use std::alloc::{AllocError, Global};
use std::collections::BTreeMap;
use std::marker::Model;

/// Names in order, fewer than 2^32 - 1. A name may stand there twice; its number is that of the first place.
#[derive(Debug, Drop)]
pub struct Names {
    names: Vec<String>,
    numbers: BTreeMap<String, u32>,
}

impl Model for Names {
    ghost use Rattle.std.specs.Prelude.{◌≡◌, ◌<◌, List, length, map};
    ghost use Rattle.std.specs.BTreeMap.{get_by_text};
    ghost use Rattle.std.specs.String.{string_bytes};
    ghost use Rattle.c0_types_tables.specs.Numbered.{place_in};
    ghost use Rattle.c0_rules.specs.Types.{Name};

    ghost Value = { List Name };

    ghost view = { λ x. map string_bytes x.names.items };

    ghost invariant = { λ x. (length x.names.items < 4294967295) × ((n : Name) → get_by_text x.numbers n ≡ place_in 0 (map string_bytes x.names.items) n) };
}

impl Names {
    /// No names.
    pub fn new(alloc: Global) -> Names
        ensures { result ≡ [] }
    {
        Names {
            names: Vec::new(alloc),
            numbers: BTreeMap::new(alloc),
        }
    }

    /// The names in order.
    pub fn into_names(self) -> Vec<String>
        ensures { map string_bytes result.items ≡ self }
    {
        self.names
    }

    /// The number of a name, where it is there.
    pub fn get(&self, name: &str) -> Option<u32>
        ensures place { result ≡ place_in 0 self.now name.now }
        ensures small { IfSome result (λ k. k < 4294967295) }
    {
        match self.numbers.get(name) {
            Some(number) => Some(*number),
            None => None,
        }
    }

    /// The number of a name; how many names there are, where it is not there.
    pub fn number(&self, name: &str) -> u32
        ensures { result ≡ number_in self.now name.now }
    {
        match self.get(name) {
            Some(number) => number,
            None => self.names.len() as u32,
        }
    }

    /// One name more, behind the others. `Err` where memory is refused or there are 2^32 - 2 names: what is left then is not told.
    pub fn push(&mut self, name: String) -> Result<(), AllocError>
        ensures { OnOk result (self.new ≡ self.old ++ string_bytes name ∷ []) }
    {
        if self.names.len() >= 4294967294 {
            return Err(AllocError);
        }
        let number = self.names.len() as u32;
        if self.numbers.get(&name).is_none() {
            let key = name.clone()?;
            self.names.push(name)?;
            if let Err(refused) = self.numbers.insert(key, number) {
                self.names.pop();
                return Err(refused.into());
            }
        } else {
            self.names.push(name)?;
        }
        Ok(())
    }
}
