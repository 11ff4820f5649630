//! The scopes of all calls, those of each behind those of its caller.
ghost use Rattle.code_form.specs.Code.{all_shut, written};
ghost use Rattle.call_execution.specs.Aimed.{scope_of};
ghost use Rattle.call_execution.specs.Marked.{IsMarked, is_marked};
ghost use Rattle.std.specs.Prelude.{◌≡◌, ◌+◌, ◌++◌, ◌<◌, ◌≤◌, ℕ, IfOk, MatchResult, drop, false, length, map, replicate, slice_set, take, true};

use crate::aims::{Aim, Scope, are_shut, change_scope, make_stale_from, put_scope};
use std::alloc::{AllocError, Global};
use std::marker::Model;

/// How many registers of a call are told apart, as those that a scope may be aimed by.
const MARKS: usize = 256;

/// The scopes of all calls. Most registers that are written are such that no scope is aimed by one of their number, which `marks` tells: the
/// scopes are then not looked at. A contract sees the scopes.
#[derive(Drop)]
pub struct Scopes {
    items: Vec<Scope>,
    marks: Vec<bool>,
}

impl Model for Scopes {
    ghost use Rattle.call_execution.specs.Aimed.{scope_of};
    ghost use Rattle.call_execution.specs.Marked.{AreMarked};
    ghost use Rattle.call_execution.specs.declared.aims.Scope.{Scope};
    ghost use Rattle.std.specs.Prelude.{List, map};

    ghost Value = { List Scope };

    ghost view = { λ s. s.items.items };

    ghost invariant = { λ s. AreMarked s.marks.items (map scope_of s.items.items) };
}

/// Puts so many copies of a value behind the items. `Err` where memory is refused: then nothing is changed.
fn grow<T: Copy>(items: &mut Vec<T>, count: usize, value: T) -> Result<(), AllocError>
    ensures { MatchResult result (λ _. items.new.items ≡ items.old.items ++ replicate count value) (λ _. items.new.items ≡ items.old.items) }
{
    match items.len().checked_add(count) {
        Some(total) => items.resize(total, value),
        None => Err(AllocError),
    }
}

/// Marks a register of this number, where it has a mark.
#[inline(always)]
fn mark(marks: &mut [bool], register: u32)
    ensures { marks.new ≡ slice_set marks.old register true }
{
    if (register as usize) < marks.len() {
        marks[register as usize] = true;
    }
}

/// Marks the registers that the scope is aimed by.
#[inline(always)]
fn mark_scope(marks: &mut [bool], scope: &Scope)
    ensures own { IsMarked marks.new (scope_of scope.now) }
    ensures others { (k : ℕ) → is_marked marks.old k ≡ true → is_marked marks.new k ≡ true }
    ensures many { length marks.new ≡ length marks.old }
{
    if let Scope::Aimed(aim) = scope {
        mark(marks, aim.register);
        if let Some(offset) = aim.offset {
            mark(marks, offset);
        }
    }
}

impl Scopes {
    /// So many scopes, all shut. `Err` where memory is refused.
    pub fn new(alloc: Global, count: usize) -> Result<Scopes, AllocError>
        ensures { IfOk result (λ s. s ≡ replicate count Scope.Shut) }
    {
        Ok(Scopes {
            items: Vec::from_elem(alloc, Scope::Shut, count)?,
            marks: Vec::from_elem(alloc, false, MARKS)?,
        })
    }

    /// How many they are.
    #[inline(always)]
    pub fn len(&self) -> usize
        ensures { result ≡ length self.now }
    {
        self.items.len()
    }

    /// Those from number `first` on.
    #[inline(always)]
    pub fn from(&self, first: usize) -> &[Scope]
        requires { first ≤ length self.now }
        ensures { result.now ≡ drop first self.now }
    {
        &self.items[first..]
    }

    /// Whether those from number `first` on are all shut.
    #[inline(always)]
    pub fn are_shut(&self, first: usize) -> bool
        requires { first ≤ length self.now }
        ensures { result ≡ all_shut (map scope_of (drop first self.now)) }
    {
        first == self.items.len() || are_shut(self.from(first))
    }

    /// Adds so many that are shut. `Err` where memory is refused: then nothing is changed.
    #[inline(always)]
    pub fn grow(&mut self, count: usize) -> Result<(), AllocError>
        ensures { MatchResult result (λ _. self.new ≡ self.old ++ replicate count Scope.Shut) (λ _. self.new ≡ self.old) }
    {
        if count == 0 {
            return Ok(());
        }
        match grow(&mut self.items, count, Scope::Shut) {
            Ok(()) => Ok(()),
            Err(error) => Err(error),
        }
    }

    /// Takes those from number `count` on away.
    #[inline(always)]
    pub fn truncate(&mut self, count: usize)
        ensures { self.new ≡ take count self.old }
    {
        self.items.truncate(count);
    }

    /// Changes the scope of this number of those from number `first` on, where there is one.
    #[inline(always)]
    pub fn put(&mut self, first: usize, number: u8, scope: Scope)
        requires { first ≤ length self.old }
        ensures own { map scope_of (drop first self.new) ≡ slice_set (map scope_of (drop first self.old)) number (scope_of scope) }
        ensures others { take first self.new ≡ take first self.old }
        ensures many { length self.new ≡ length self.old }
    {
        put_scope(&mut self.items, first, number, scope);
        mark_scope(&mut self.marks, &scope);
    }

    /// Aims the scope of this number of those from number `first` on.
    #[inline(always)]
    pub(crate) fn aim(&mut self, first: usize, number: u8, aim: Aim)
        requires { first + number < length self.old }
        ensures own { map scope_of (drop first self.new) ≡ slice_set (map scope_of (drop first self.old)) number (scope_of (Scope.Aimed aim)) }
        ensures others { take first self.new ≡ take first self.old }
        ensures many { length self.new ≡ length self.old }
    {
        let scope = Scope::Aimed(aim);
        change_scope(&mut self.items, first, number, scope);
        mark_scope(&mut self.marks, &scope);
    }

    /// Makes each scope from number `first` on stale whose aim is by this register.
    #[inline(always)]
    pub fn make_stale(&mut self, first: usize, register: u32)
        requires { first ≤ length self.old }
        ensures own { map scope_of (drop first self.new) ≡ map (written register) (map scope_of (drop first self.old)) }
        ensures others { take first self.new ≡ take first self.old }
        ensures many { length self.new ≡ length self.old }
    {
        if self.may_aim(register) {
            make_stale_from(&mut self.items, first, register);
        }
    }

    /// Whether a scope may be aimed by a register of this number.
    #[inline(always)]
    fn may_aim(&self, register: u32) -> bool
        ensures { result ≡ false → (n : ℕ) → map (written register) (map scope_of (drop n self.now)) ≡ map scope_of (drop n self.now) }
    {
        match self.marks.get(register as usize) {
            Some(mark) => *mark,
            None => true,
        }
    }
}
