//! The names of typedefs, and types with them replaced.

ghost use Rattle.std.specs.Prelude.{◌≡◌, ◌⊎◌, IfErr, OnOk, option_map};
ghost use Rattle.c0_source.specs.declared.fault.FaultKind.TheVariants.{OutOfMemory};
ghost use Rattle.c0_syntax.specs.Views.{name_of, type_of, type_of_kind};
ghost use Rattle.c0_rules.specs.FaultExpressions.{ResultTypeCause, SmallTypeCause, TypeCause};
ghost use Rattle.c0_rules.specs.Types.{no_names, resolved_type, result_type, small_type, with_name};
ghost use Rattle.c0_rules.specs.Answers.{Answers};
ghost use Rattle.c0_types_tables.specs.Views.{resolved_of, typedefs_of};

use crate::resolved::{ResolvedPlain, ResolvedTarget, ResolvedType};
use c0_source::fault::{Fault, FaultKind, Span};
use c0_source::kind::Base;
use c0_syntax::name::Name;
use c0_syntax::value_type::{TypeKind, ValueType};
use std::alloc::{AllocError, Global};
use std::collections::BTreeMap;
use std::rc::Rc;

/// What each name of a typedef stands for.
#[derive(Debug, Drop)]
pub struct Typedefs {
    types: BTreeMap<String, ResolvedType>,
}

impl Typedefs {
    /// No typedefs.
    pub fn new(alloc: Global) -> Typedefs
        ensures { typedefs_of result ≡ no_names }
    {
        Typedefs {
            types: BTreeMap::new(alloc),
        }
    }

    /// The type that a name stands for.
    pub fn get(&self, name: &str) -> Option<&ResolvedType>
        ensures { option_map (λ r. resolved_of r.now) result ≡ typedefs_of self.now name.now }
    {
        self.types.get(name)
    }

    /// From here on the name stands for this type. Where memory is refused, nothing is said of the names.
    pub fn insert(&mut self, name: &Name, resolved: ResolvedType) -> Result<(), AllocError>
        ensures { OnOk result (typedefs_of self.new ≡ with_name (name_of name.now) (resolved_of resolved) (typedefs_of self.old)) }
    {
        self.types.insert(name.text.clone()?, resolved)?;
        Ok(())
    }

    /// A type with its typedefs replaced. It is refused where `void` is a part of it, or a name that stands for nothing.
    pub fn resolve(&self, alloc: Global, written: &ValueType) -> Result<ResolvedType, Fault>
        ensures answers { Answers resolved_of result (resolved_type (typedefs_of self.now) (type_of written.now)) }
        ensures cause { IfErr result (λ f. (f.kind ≡ OutOfMemory) ⊎ TypeCause (typedefs_of self.now) f written.now.kind written.now.span) }
    {
        self.resolve_kind(alloc, &written.kind, written.span)
    }

    /// The type of a local or a parameter. Beside what `resolve` refuses, a struct is.
    pub fn resolve_small(&self, alloc: Global, written: &ValueType) -> Result<ResolvedType, Fault>
        ensures answers { Answers resolved_of result (small_type (typedefs_of self.now) (type_of written.now)) }
        ensures cause { IfErr result (λ f. (f.kind ≡ OutOfMemory) ⊎ SmallTypeCause (typedefs_of self.now) f written.now) }
    {
        let resolved = self.resolve(alloc, written)?;
        if resolved.is_small() {
            Ok(resolved)
        } else {
            Err(Fault {
                kind: FaultKind::NotSmall,
                span: written.span,
            })
        }
    }

    /// The type of a result: `void`, or a small one.
    pub fn resolve_result(&self, alloc: Global, written: &ValueType) -> Result<ResolvedType, Fault>
        ensures answers { Answers resolved_of result (result_type (typedefs_of self.now) (type_of written.now)) }
        ensures cause { IfErr result (λ f. (f.kind ≡ OutOfMemory) ⊎ ResultTypeCause (typedefs_of self.now) f written.now) }
    {
        match written.kind {
            TypeKind::Basic(Base::Void) => Ok(ResolvedType::VOID),
            _ => self.resolve_small(alloc, written),
        }
    }

    // The same as `resolve`, by the kind and the place of a type.
    #[cycle(resolve)]
    fn resolve_kind(
        &self,
        alloc: Global,
        kind: &TypeKind,
        span: Span,
    ) -> Result<ResolvedType, Fault>
        ensures answers { Answers resolved_of result (resolved_type (typedefs_of self.now) (type_of_kind kind.now)) }
        ensures cause { IfErr result (λ f. (f.kind ≡ OutOfMemory) ⊎ TypeCause (typedefs_of self.now) f kind.now span) }
    {
        match kind {
            TypeKind::Basic(base) => ResolvedType::of_base(*base).ok_or(Fault {
                kind: FaultKind::VoidUse,
                span,
            }),
            TypeKind::Struct(name) => {
                let name = Rc::new(alloc, name.text.clone()?)?;
                Ok(ResolvedType::Plain(ResolvedPlain::Struct(name)))
            }
            TypeKind::Named(name) => match self.get(&name.text) {
                Some(resolved) => Ok(resolved.duplicate()?),
                None => Err(Fault {
                    kind: FaultKind::Syntax,
                    span: name.span,
                }),
            },
            TypeKind::Pointer(target) => {
                let resolved = self.resolve_kind(alloc, &target.kind, target.span)?;
                Ok(ResolvedType::Pointer(ResolvedTarget::of(alloc, resolved)?))
            }
            TypeKind::Array(element) => {
                let resolved = self.resolve_kind(alloc, &element.kind, element.span)?;
                Ok(ResolvedType::Array(ResolvedTarget::of(alloc, resolved)?))
            }
        }
    }
}
