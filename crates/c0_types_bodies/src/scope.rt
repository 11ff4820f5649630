//! What is in scope at a place of a body.

ghost use Rattle.std.specs.Prelude.{◌≡◌, IfOk, option_map, take};
ghost use Rattle.c0_syntax.specs.Views.{name_of};
ghost use Rattle.c0_types_bodies.specs.Bodies.{scope_of};
ghost use Rattle.c0_rules.specs.Expressions.{local_of as local_named};
ghost use Rattle.c0_rules.specs.Statements.{next_number, with_local};
ghost use Rattle.c0_types_terms.specs.Terms.{local_of};
ghost use Rattle.c0_types_tables.specs.Views.{resolved_of};

use c0_syntax::name::Name;
use c0_types_tables::resolved::ResolvedType;
use c0_types_terms::typing::{Local, ResolvedPlace};
use std::alloc::AllocError;

/// The locals in scope, the number of parameters, the types of all other locals of the function so far, its result's type, and whether a
/// loop of the function is round it.
#[derive(Debug, Drop)]
pub struct Scope {
    pub locals: Vec<Local>,
    pub parameters: usize,
    pub declared: Vec<ResolvedType>,
    pub result: ResolvedType,
    pub in_loop: bool,
}

/// What is assigned to: a local, or a place of the heap.
#[derive(Drop)]
pub enum Destination<'a> {
    Local(&'a Local),
    Place(ResolvedPlace),
}

impl Scope {
    /// The local of a name.
    pub fn local(&self, name: &str) -> Option<&Local>
        ensures { option_map (λ l. local_of l.now) result ≡ local_named (scope_of self.now).locals name.now }
    {
        self.locals.iter().find(|local| name == local.name.as_str())
    }

    // The number of the next local. There is none where it does not fit.
    fn next_number(&self) -> Result<u32, AllocError>
        ensures { IfOk result (λ n. n ≡ next_number (scope_of self.now)) }
    {
        let others = self.declared.len();
        if self.parameters >= 4294967295 || others >= 4294967295 - self.parameters {
            return Err(AllocError);
        }
        Ok((self.parameters + others + 1) as u32)
    }

    /// A new local, and its number. Where memory is refused, nothing is said of the scope.
    pub fn push(&mut self, name: &Name, resolved: ResolvedType) -> Result<u32, AllocError>
        ensures { IfOk result (λ n. (n ≡ next_number (scope_of self.old)) × (scope_of self.new ≡ with_local (name_of name.now) (resolved_of resolved) (scope_of self.old))) }
    {
        let number = self.next_number()?;
        self.locals.push(Local {
            name: name.text.clone()?,
            number,
            resolved: resolved.duplicate()?,
        })?;
        self.declared.push(resolved)?;
        Ok(number)
    }

    /// At the end of a scope: the locals that stood before it, so many, are left.
    pub fn leave(&mut self, count: usize)
        ensures { scope_of self.new ≡ record (scope_of self.old) { locals = take count (scope_of self.old).locals } }
    {
        self.locals.truncate(count);
    }
}
