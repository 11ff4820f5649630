//! What is declared before a place in a program.

ghost use Rattle.std.specs.Prelude.{◌≡◌, IfOk, is_some};
ghost use Rattle.c0_typed.specs.Views.{plain_of, target_of, type_of};
ghost use Rattle.c0_rules.specs.Programs.{is_callable};
ghost use Rattle.c0_rules.specs.Statements.{is_function as is_called};
ghost use Rattle.c0_rules.specs.Types.{no_names, number_in, numbered, output_named};
ghost use Rattle.c0_types_tables.specs.Views.{environment_of, functions_of, resolved_of, resolved_plain_of, resolved_target_of, structs_of, typedefs_of};

use crate::names::Names;
use crate::resolved::{ResolvedPlain, ResolvedTarget, ResolvedType};
use crate::signatures::Functions;
use crate::structs::Structs;
use crate::typedefs::Typedefs;
use c0_typed::{PlainType, Target, ValueType};
use std::alloc::{AllocError, Global};

/// What is declared before a place in a program. Whether the program uses conio, and the names of all structs and functions that it
/// defines anywhere, in order, are known from its beginning.
#[derive(Debug, Drop)]
pub struct Environment {
    pub conio: bool,
    pub struct_names: Names,
    pub function_names: Names,
    pub typedefs: Typedefs,
    pub structs: Structs,
    pub functions: Functions,
}

impl Environment {
    /// Nothing is declared yet in a program that defines these structs and functions.
    pub fn new(
        alloc: Global,
        conio: bool,
        struct_names: Names,
        function_names: Names,
    ) -> Environment
        ensures names { (result.conio ≡ conio) × (result.struct_names ≡ struct_names) × (result.function_names ≡ function_names) }
        ensures typedefs { typedefs_of result.typedefs ≡ no_names }
        ensures structs { structs_of result.structs ≡ no_names }
        ensures functions { functions_of result.functions ≡ no_names }
    {
        Environment {
            conio,
            struct_names,
            function_names,
            typedefs: Typedefs::new(alloc),
            structs: Structs::new(alloc),
            functions: Functions::new(alloc),
        }
    }

    /// Whether a name is that of an output call in use.
    pub fn is_output(&self, name: &str) -> bool
        ensures { result ≡ is_some (output_named self.now.conio name.now) }
    {
        self.conio
            && (name == "print"
                || name == "println"
                || name == "printint"
                || name == "printbool"
                || name == "printchar"
                || name == "flush")
    }

    /// Whether a name is that of a function in scope, or of an output call in use.
    pub fn is_function(&self, name: &str) -> bool
        ensures { result ≡ is_called (environment_of self.now) name.now }
    {
        self.functions.get(name).is_some() || self.is_output(name)
    }

    /// Whether a name may be called in the end: that of a function which the program defines anywhere, or of an output call in use.
    pub fn has_definition(&self, name: &str) -> bool
        ensures { result ≡ is_callable (environment_of self.now) name.now }
    {
        self.is_output(name) || self.function_names.get(name).is_some()
    }

    /// A type that is neither a pointer nor an array, as typed trees have it: a struct by its number.
    fn numbered_plain(&self, plain: &ResolvedPlain) -> PlainType
        ensures { plain_of result ≡ numbered self.now.struct_names (resolved_plain_of plain.now) }
    {
        match plain {
            ResolvedPlain::Void => PlainType::Void,
            ResolvedPlain::Int => PlainType::Int,
            ResolvedPlain::Bool => PlainType::Bool,
            ResolvedPlain::Char => PlainType::Char,
            ResolvedPlain::Text => PlainType::Text,
            ResolvedPlain::Struct(name) => PlainType::Struct(
                self.struct_names.number(name.as_str()),
            ),
        }
    }

    /// What a pointer points to, or an array holds, as typed trees have it. Its pointers and arrays are shared. `Err` where there are 2^64 - 1 of them.
    #[tactic(auto, using(crate::proofs::Levels::numbered_within))]
    pub fn numbered_target(&self, target: &ResolvedTarget) -> Result<Target, AllocError>
        ensures { IfOk result (λ r. target_of r ≡ numbered self.now.struct_names (resolved_target_of target.now)) }
    {
        Ok(Target {
            levels: target.levels.clone()?,
            innermost: self.numbered_plain(&target.innermost),
        })
    }

    /// A type as typed trees have it, likewise.
    pub fn numbered(&self, resolved: &ResolvedType) -> Result<ValueType, AllocError>
        ensures { IfOk result (λ r. type_of r ≡ numbered self.now.struct_names (resolved_of resolved.now)) }
    {
        match resolved {
            ResolvedType::Plain(plain) => Ok(ValueType::Plain(self.numbered_plain(plain))),
            ResolvedType::Pointer(target) => Ok(ValueType::Pointer(self.numbered_target(target)?)),
            ResolvedType::Array(element) => Ok(ValueType::Array(self.numbered_target(element)?)),
        }
    }
}
