//! The names of types.

ghost use Rattle.std.specs.Prelude.{◌≡◌, [], ◌∷◌, IfOk};
ghost use Rattle.c0_syntax.specs.Expressions.{is_type_name};

use std::alloc::{AllocError, Global};
use std::collections::BTreeSet;
use std::marker::Model;

/// The names that `typedef`s have declared so far, the last one first.
#[derive(Drop)]
pub struct TypeNames<'a> {
    alloc: Global,
    names: Vec<&'a [u8]>,
    // The same names, where they are sought.
    known: BTreeSet<Vec<u8>>,
}

impl<'a> Model for TypeNames<'a> {
    ghost use Rattle.std.specs.Prelude.{◌≡◌, List, ℕ, [], map};
    ghost use Rattle.std.specs.BTreeSet.{contains_by};
    ghost use Rattle.std.specs.Cmp.Lexicographic.{slice_cmp};
    ghost use Rattle.std.specs.Ordering.{nat_cmp};
    ghost use Rattle.c0_grammar_laws.specs.Tokens.{last_first};
    ghost use Rattle.c0_syntax.specs.Expressions.{is_type_name};

    ghost Value = { List (List ℕ) };

    ghost view = { λ t. last_first [] (map (λ x. x.now) t.names.items) };

    ghost invariant = { λ t. (n : List ℕ) → contains_by (λ k. slice_cmp nat_cmp n k.items) t.known ≡ is_type_name (last_first [] (map (λ x. x.now) t.names.items)) n };
}

impl<'a> TypeNames<'a> {
    /// No names.
    pub fn new(alloc: Global) -> TypeNames<'a>
        ensures { result ≡ [] }
    {
        TypeNames {
            alloc,
            names: Vec::new(alloc),
            known: BTreeSet::new(alloc),
        }
    }

    /// Whether one of them is this name.
    pub fn contains(&self, name: &[u8]) -> bool
        ensures { result ≡ is_type_name self.now name.now }
    {
        self.known.contains(name)
    }

    /// One name more. `Err` where memory is refused; what is left then is not told.
    pub fn add(&mut self, name: &'a [u8]) -> Result<(), AllocError>
        ensures { IfOk result (λ _. self.new ≡ name.now ∷ self.old) }
    {
        let letters = Vec::from_slice(self.alloc, name)?;
        self.names.push(name)?;
        if let Err(refused) = self.known.insert(letters) {
            self.names.pop();
            return Err(refused.into());
        }
        Ok(())
    }
}
