//! Types in which no name of a typedef is left.

ghost use Rattle.std.specs.Prelude.{◌≡◌, IfOk, option_map};
ghost use Rattle.c0_typed.specs.Views.{levels_of};
ghost use Rattle.c0_rules.specs.Types.{base_type, is_small, same_type};
ghost use Rattle.c0_types_tables.specs.Views.{resolved_of, resolved_plain_of, resolved_target_of, resolved_within};

use c0_source::kind::Base;
use c0_typed::Levels;
use std::alloc::{AllocError, Global};
use std::rc::Rc;
use std::sync::Arc;

/// A type that is neither a pointer nor an array. A struct is known by its name.
#[derive(Debug, PartialEq, Drop)]
pub enum ResolvedPlain {
    Void,
    Int,
    Bool,
    Char,
    Text,
    Struct(Rc<String>),
}

/// What a pointer points to, or an array holds. Its pointers and arrays are shared by all types that were made of it, so that it is had once more by
/// one step, however deep it is.
#[derive(Debug, PartialEq, Drop)]
pub struct ResolvedTarget {
    pub levels: Arc<Levels>,
    pub innermost: Rc<ResolvedPlain>,
}

/// A type in which no name of a typedef is left.
#[derive(Debug, PartialEq, Drop)]
pub enum ResolvedType {
    Plain(ResolvedPlain),
    Pointer(ResolvedTarget),
    Array(ResolvedTarget),
}

impl ResolvedPlain {
    /// The same type once more. `Err` where there are 2^64 - 1 of a struct's name.
    pub fn share(&self) -> Result<ResolvedPlain, AllocError>
        ensures { IfOk result (λ r. resolved_plain_of r ≡ resolved_plain_of self.now) }
    {
        match self {
            ResolvedPlain::Void => Ok(ResolvedPlain::Void),
            ResolvedPlain::Int => Ok(ResolvedPlain::Int),
            ResolvedPlain::Bool => Ok(ResolvedPlain::Bool),
            ResolvedPlain::Char => Ok(ResolvedPlain::Char),
            ResolvedPlain::Text => Ok(ResolvedPlain::Text),
            ResolvedPlain::Struct(name) => Ok(ResolvedPlain::Struct(name.clone()?)),
        }
    }

    /// Whether both are one type; structs are equal by name.
    pub fn same_as(&self, other: &ResolvedPlain) -> bool
        ensures { result ≡ same_type (resolved_plain_of self.now) (resolved_plain_of other.now) }
    {
        match (self, other) {
            (ResolvedPlain::Void, ResolvedPlain::Void) => true,
            (ResolvedPlain::Int, ResolvedPlain::Int) => true,
            (ResolvedPlain::Bool, ResolvedPlain::Bool) => true,
            (ResolvedPlain::Char, ResolvedPlain::Char) => true,
            (ResolvedPlain::Text, ResolvedPlain::Text) => true,
            (ResolvedPlain::Struct(a), ResolvedPlain::Struct(b)) => a.as_str() == b.as_str(),
            _ => false,
        }
    }
}

/// Whether both are one type, of which each stands within these pointers and arrays.
fn same_within(
    levels: &Levels,
    innermost: &ResolvedPlain,
    other_levels: &Levels,
    other: &ResolvedPlain,
) -> bool
    ensures { result ≡ same_type (resolved_within (levels_of levels.now) (resolved_plain_of innermost.now)) (resolved_within (levels_of other_levels.now) (resolved_plain_of other.now)) }
{
    match (levels, other_levels) {
        (Levels::Innermost, Levels::Innermost) => innermost.same_as(other),
        (Levels::Pointer(a), Levels::Pointer(b)) => same_within(a, innermost, b, other),
        (Levels::Array(a), Levels::Array(b)) => same_within(a, innermost, b, other),
        _ => false,
    }
}

impl ResolvedTarget {
    /// This type as what a pointer points to, or an array holds. `Err` where memory is refused.
    pub fn of(alloc: Global, resolved: ResolvedType) -> Result<ResolvedTarget, AllocError>
        ensures { IfOk result (λ r. resolved_target_of r ≡ resolved_of resolved) }
    {
        let (levels, innermost) = match resolved {
            ResolvedType::Plain(plain) => (Levels::Innermost, Rc::new(alloc, plain)?),
            ResolvedType::Pointer(target) => (Levels::Pointer(target.levels), target.innermost),
            ResolvedType::Array(target) => (Levels::Array(target.levels), target.innermost),
        };
        let levels = Arc::new(alloc, levels)?;
        Ok(ResolvedTarget { levels, innermost })
    }

    /// The type that this is. `Err` where there are 2^64 - 1 of it.
    pub fn resolved(&self) -> Result<ResolvedType, AllocError>
        ensures { IfOk result (λ r. resolved_of r ≡ resolved_target_of self.now) }
    {
        match &*self.levels {
            Levels::Innermost => Ok(ResolvedType::Plain(self.innermost.share()?)),
            Levels::Pointer(inner) => {
                let levels = inner.clone()?;
                let innermost = self.innermost.clone()?;
                Ok(ResolvedType::Pointer(ResolvedTarget { levels, innermost }))
            }
            Levels::Array(inner) => {
                let levels = inner.clone()?;
                let innermost = self.innermost.clone()?;
                Ok(ResolvedType::Array(ResolvedTarget { levels, innermost }))
            }
        }
    }

    /// The same target once more. `Err` where there are 2^64 - 1 of it.
    pub fn share(&self) -> Result<ResolvedTarget, AllocError>
        ensures { IfOk result (λ r. resolved_target_of r ≡ resolved_target_of self.now) }
    {
        Ok(ResolvedTarget {
            levels: self.levels.clone()?,
            innermost: self.innermost.clone()?,
        })
    }

    /// Whether both are one type.
    pub fn same_as(&self, other: &ResolvedTarget) -> bool
        ensures { result ≡ same_type (resolved_target_of self.now) (resolved_target_of other.now) }
    {
        same_within(
            &self.levels,
            &self.innermost,
            &other.levels,
            &other.innermost,
        )
    }
}

impl ResolvedType {
    pub const VOID: ResolvedType = ResolvedType::Plain(ResolvedPlain::Void);

    pub const INT: ResolvedType = ResolvedType::Plain(ResolvedPlain::Int);

    pub const BOOL: ResolvedType = ResolvedType::Plain(ResolvedPlain::Bool);

    pub const CHAR: ResolvedType = ResolvedType::Plain(ResolvedPlain::Char);
    /// The type of the language's `string`.
    pub const TEXT: ResolvedType = ResolvedType::Plain(ResolvedPlain::Text);

    /// The type of a keyword, but for `void`.
    pub fn of_base(base: Base) -> Option<ResolvedType>
        ensures { option_map resolved_of result ≡ base_type base }
    {
        match base {
            Base::Int => Some(ResolvedType::INT),
            Base::Bool => Some(ResolvedType::BOOL),
            Base::Char => Some(ResolvedType::CHAR),
            Base::String => Some(ResolvedType::TEXT),
            Base::Void => None,
        }
    }

    /// Whether a local may have this type: it is neither a struct nor `void`.
    pub fn is_small(&self) -> bool
        ensures { result ≡ is_small (resolved_of self.now) }
    {
        match self {
            ResolvedType::Plain(ResolvedPlain::Void | ResolvedPlain::Struct(_)) => false,
            ResolvedType::Plain(_) => true,
            ResolvedType::Pointer(_) | ResolvedType::Array(_) => true,
        }
    }

    /// Whether both are one type; structs are equal by name.
    pub fn same_as(&self, other: &ResolvedType) -> bool
        ensures { result ≡ same_type (resolved_of self.now) (resolved_of other.now) }
    {
        match (self, other) {
            (ResolvedType::Plain(a), ResolvedType::Plain(b)) => a.same_as(b),
            (ResolvedType::Pointer(a), ResolvedType::Pointer(b)) => a.same_as(b),
            (ResolvedType::Array(a), ResolvedType::Array(b)) => a.same_as(b),
            _ => false,
        }
    }

    /// The same type once more. `Err` where there are 2^64 - 1 of it.
    pub fn duplicate(&self) -> Result<ResolvedType, AllocError>
        ensures { IfOk result (λ r. resolved_of r ≡ resolved_of self.now) }
    {
        match self {
            ResolvedType::Plain(plain) => Ok(ResolvedType::Plain(plain.share()?)),
            ResolvedType::Pointer(target) => Ok(ResolvedType::Pointer(target.share()?)),
            ResolvedType::Array(element) => Ok(ResolvedType::Array(element.share()?)),
        }
    }
}
