//! Kinds of single cells in order, each found at once.
ghost use Rattle.lower_tables.specs.Gathered.{with_kind};
ghost use Rattle.lower_tables.specs.Kinds.{position as place_of};
ghost use Rattle.std.specs.Prelude.{◌≡◌, ◌+◌, ◌<◌, ◌≤◌, ◌^◌, [], MatchResult, length};

use crate::index::Index;
use code_form::Kind;
use std::alloc::{AllocError, Global};
use std::marker::Model;

/// Kinds of single cells in order, each once. An index beside them tells at once where a kind stands, so that a type costs a step a level, however many
/// kinds there are. A contract sees the kinds.
#[derive(Debug, Drop)]
pub struct Singles {
    kinds: Vec<Kind>,
    index: Index,
}

impl Model for Singles {
    ghost use Rattle.code_form.specs.declared.form.Kind.{Kind};
    ghost use Rattle.lower_tables.specs.Indexed.{IsIndexed};
    ghost use Rattle.std.specs.Prelude.{List};

    ghost Value = { List Kind };

    ghost view = { λ s. s.kinds.items };

    ghost invariant = { λ s. IsIndexed s.index s.kinds.items };
}

impl Singles {
    /// No kinds.
    pub(crate) fn new(alloc: Global) -> Singles
        ensures { result ≡ [] }
    {
        Singles {
            kinds: Vec::new(alloc),
            index: Index::new(alloc),
        }
    }

    /// The kinds in order.
    pub fn kinds(&self) -> &[Kind]
        ensures { result.now ≡ self.now }
    {
        &self.kinds
    }

    /// How many there are.
    pub(crate) fn len(&self) -> usize
        ensures { result ≡ length self.now }
    {
        self.kinds.len()
    }

    /// The place of the kind; how many kinds there are, where it is not among them.
    pub(crate) fn position(&self, kind: Kind) -> usize
        ensures place { result ≡ place_of kind self.now }
        ensures within { result ≤ length self.now }
    {
        let found = self.index.get(kind) as usize;
        if found == 0 {
            self.kinds.len()
        } else {
            found - 1
        }
    }

    /// One more kind, where the list does not have it yet. Where memory is refused, the kinds are as they were.
    pub(crate) fn add(&mut self, kind: Kind) -> Result<(), AllocError>
        requires { length self.old + 1 < 2 ^ 32 }
        ensures { MatchResult result (λ _. self.new ≡ with_kind kind self.old) (λ _. self.new ≡ self.old) }
    {
        if self.position(kind) < self.kinds.len() {
            return Ok(());
        }
        self.kinds.reserve(1)?;
        let number = self.kinds.len() as u32 + 1;
        self.index.put(kind, number)?;
        self.kinds.push_reserved(kind);
        Ok(())
    }
}
