//! The structs that are defined.

ghost use Rattle.std.specs.Prelude.{◌≡◌, OnOk, option_map, string_bytes};
ghost use Rattle.c0_rules.specs.Types.{cells_of, no_names, with_name};
ghost use Rattle.c0_types_tables.specs.Views.{field_entry_of, field_table_of, resolved_of, resolved_plain_of, resolved_target_of, struct_entry_of, structs_of};

use crate::resolved::{ResolvedPlain, ResolvedTarget, ResolvedType};
use c0_typed::Levels;
use std::alloc::{AllocError, Global};
use std::collections::BTreeMap;

/// A field: its number in its struct, and its type.
#[derive(Debug, Drop)]
pub struct FieldEntry {
    pub number: usize,
    pub resolved: ResolvedType,
}

/// The fields of a struct by their names.
#[derive(Debug, Drop)]
pub struct Fields {
    entries: BTreeMap<String, FieldEntry>,
}

impl Fields {
    /// No fields.
    pub fn new(alloc: Global) -> Fields
        ensures { field_table_of result ≡ no_names }
    {
        Fields {
            entries: BTreeMap::new(alloc),
        }
    }

    /// The field of a name.
    pub fn get(&self, name: &str) -> Option<&FieldEntry>
        ensures { option_map (λ f. field_entry_of f.now) result ≡ field_table_of self.now name.now }
    {
        self.entries.get(name)
    }

    /// With one field more. Where memory is refused, nothing is said of the fields.
    pub fn insert(&mut self, name: String, field: FieldEntry) -> Result<(), AllocError>
        ensures { OnOk result (field_table_of self.new ≡ with_name (string_bytes name) (field_entry_of field) (field_table_of self.old)) }
    {
        self.entries.insert(name, field)?;
        Ok(())
    }
}

/// A struct that is defined, and how many cells it has.
#[derive(Debug, Drop)]
pub struct StructEntry {
    pub fields: Fields,
    pub cells: usize,
}

/// The structs that are defined, by their names.
#[derive(Debug, Drop)]
pub struct Structs {
    entries: BTreeMap<String, StructEntry>,
}

impl Structs {
    /// No structs.
    pub fn new(alloc: Global) -> Structs
        ensures { structs_of result ≡ no_names }
    {
        Structs {
            entries: BTreeMap::new(alloc),
        }
    }

    /// The struct of a name, where it is defined.
    pub fn get(&self, name: &str) -> Option<&StructEntry>
        ensures { option_map (λ d. struct_entry_of d.now) result ≡ structs_of self.now name.now }
    {
        self.entries.get(name)
    }

    /// With one struct more. Where memory is refused, nothing is said of the structs.
    pub fn insert(&mut self, name: String, entry: StructEntry) -> Result<(), AllocError>
        ensures { OnOk result (structs_of self.new ≡ with_name (string_bytes name) (struct_entry_of entry) (structs_of self.old)) }
    {
        self.entries.insert(name, entry)?;
        Ok(())
    }

    /// How many cells a type that is neither a pointer nor an array takes in memory: none is known of `void`, or of a struct that is not defined yet.
    fn plain_cells(&self, plain: &ResolvedPlain) -> Option<usize>
        ensures { result ≡ cells_of (structs_of self.now) (resolved_plain_of plain.now) }
    {
        match plain {
            ResolvedPlain::Void => None,
            ResolvedPlain::Struct(name) => match self.get(name.as_str()) {
                Some(entry) => Some(entry.cells),
                None => None,
            },
            ResolvedPlain::Int | ResolvedPlain::Bool | ResolvedPlain::Char | ResolvedPlain::Text =>
                Some(1),
        }
    }

    /// How many cells a type takes in memory: none is known of `void`, or of a struct that is not defined yet.
    pub fn cells(&self, resolved: &ResolvedType) -> Option<usize>
        ensures { result ≡ cells_of (structs_of self.now) (resolved_of resolved.now) }
    {
        match resolved {
            ResolvedType::Plain(plain) => self.plain_cells(plain),
            ResolvedType::Pointer(_) | ResolvedType::Array(_) => Some(1),
        }
    }

    /// How many cells an element of an array takes in memory, likewise.
    pub fn element_cells(&self, element: &ResolvedTarget) -> Option<usize>
        ensures { result ≡ cells_of (structs_of self.now) (resolved_target_of element.now) }
    {
        match &*element.levels {
            Levels::Innermost => self.plain_cells(&element.innermost),
            Levels::Pointer(_) | Levels::Array(_) => Some(1),
        }
    }
}
