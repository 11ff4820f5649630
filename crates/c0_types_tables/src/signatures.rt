//! The functions that are declared.

ghost use Rattle.std.specs.Prelude.{◌≡◌, OnOk, map, option_map, string_bytes};
ghost use Rattle.c0_rules.specs.Programs.{same_signature};
ghost use Rattle.c0_rules.specs.Types.{no_names, same_types as are_same_types, with_name};
ghost use Rattle.c0_types_tables.specs.Views.{functions_of, resolved_of, signature_of};

use crate::resolved::ResolvedType;
use std::alloc::{AllocError, Global};
use std::collections::BTreeMap;

/// A function that is declared, and whether it has been defined, too.
#[derive(Debug, Drop)]
pub struct Signature {
    pub name: String,
    pub result: ResolvedType,
    pub parameters: Vec<ResolvedType>,
    pub defined: bool,
}

impl Signature {
    /// Whether results and parameters are equal.
    pub fn same_as(&self, other: &Signature) -> bool
        ensures { result ≡ same_signature (signature_of self.now) (signature_of other.now) }
    {
        self.result.same_as(&other.result) && same_types(&self.parameters, &other.parameters)
    }
}

// Whether types are equal, one by one.
#[tactic(auto, using(crate::proofs::SameTypes::step, crate::proofs::SameTypes::unequal_lengths))]
fn same_types(types: &[ResolvedType], others: &[ResolvedType]) -> bool
    ensures { result ≡ are_same_types (map resolved_of types.now) (map resolved_of others.now) }
{
    if types.len() != others.len() {
        return false;
    }
    for i in 0..types.len() {
        if !types[i].same_as(&others[i]) {
            return false;
        }
    }
    true
}

/// The functions that are declared, by their names.
#[derive(Debug, Drop)]
pub struct Functions {
    entries: BTreeMap<String, Signature>,
}

impl Functions {
    /// No functions.
    pub fn new(alloc: Global) -> Functions
        ensures { functions_of result ≡ no_names }
    {
        Functions {
            entries: BTreeMap::new(alloc),
        }
    }

    /// The function of a name, where it is declared.
    pub fn get(&self, name: &str) -> Option<&Signature>
        ensures { option_map (λ f. signature_of f.now) result ≡ functions_of self.now name.now }
    {
        self.entries.get(name)
    }

    /// With one function more, or another entry of its name. Where memory is refused, nothing is said of the functions.
    pub fn insert(&mut self, name: String, signature: Signature) -> Result<(), AllocError>
        ensures { OnOk result (functions_of self.new ≡ with_name (string_bytes name) (signature_of signature) (functions_of self.old)) }
    {
        self.entries.insert(name, signature)?;
        Ok(())
    }
}
