//! Lists of names. None is changed: many flows of a function share the names, and each has a list of its own.

ghost use Rattle.std.specs.Prelude.{◌≡◌, ◌∷◌, ◌||◌, IfOk, bytes_eq, filter, is_some, not, true};
ghost use Rattle.c0_types_flow.specs.FlowViews.{letters_of};
ghost use Rattle.c0_rules.specs.Types.{is_among};

use std::alloc::{AllocError, Global};

// Where this name stands among others.
fn place_of(name: &str, names: &[&str]) -> Option<usize>
    ensures { is_some result ≡ is_among name.now (letters_of names.now) }
{
    names.iter().position(|other| *other == name)
}

/// Whether one of the names is this one.
pub(crate) fn is_one_of(name: &str, names: &[&str]) -> bool
    ensures { result ≡ is_among name.now (letters_of names.now) }
{
    place_of(name, names).is_some()
}

/// One name more, in front of the others.
pub(crate) fn with<'a>(
    alloc: Global,
    name: &'a str,
    names: &[&'a str],
) -> Result<Vec<&'a str>, AllocError>
    ensures { IfOk result (λ more. letters_of more.items ≡ name.now ∷ letters_of names.now) }
{
    let mut more = Vec::with_capacity(alloc, names.len().saturating_add(1))?;
    more.push(name)?;
    more.extend_from_slice(names)?;
    Ok(more)
}

/// The names but for one.
pub(crate) fn without<'a>(
    alloc: Global,
    names: &[&'a str],
    name: &str,
) -> Result<Vec<&'a str>, AllocError>
    ensures { IfOk result (λ rest. letters_of rest.items ≡ filter (λ m. not (bytes_eq name.now m)) (letters_of names.now)) }
{
    let mut rest = Vec::from_slice(alloc, names)?;
    rest.retain(|other| name != *other);
    Ok(rest)
}

// A list that others are looked for in, mostly in its own order.
#[derive(Drop)]
struct Walk<'w> {
    names: &'w [&'w str],
    next: usize,
}

impl Walk<'_> {
    // Whether the name that would be next is this one.
    fn meets(&mut self, name: &str) -> bool
        ensures found { result ≡ true → is_among name.now (letters_of self.old.names.now) ≡ true }
        ensures same { self.new.names ≡ self.old.names }
    {
        match self.names.get(self.next) {
            Some(other) if name == *other => {
                self.next = self.next.saturating_add(1);
                true
            }
            _ => false,
        }
    }

    // Whether this name stands anywhere. The next one is then looked for behind it.
    fn finds(&mut self, name: &str) -> bool
        ensures found { result ≡ is_among name.now (letters_of self.old.names.now) }
        ensures same { self.new.names ≡ self.old.names }
    {
        match place_of(name, self.names) {
            Some(place) => {
                self.next = place.saturating_add(1);
                true
            }
            None => false,
        }
    }
}

// Whether a name stands in one of two lists. It is looked for where it would be next first.
fn is_in_either(name: &str, first: &mut Walk, second: &mut Walk) -> bool
    ensures found { result ≡ (is_among name.now (letters_of first.old.names.now) || is_among name.now (letters_of second.old.names.now)) }
    ensures first { first.new.names ≡ first.old.names }
    ensures second { second.new.names ≡ second.old.names }
{
    let is_next_in_first = first.meets(name);
    let is_next_in_second = second.meets(name);
    is_next_in_first || is_next_in_second || first.finds(name) || second.finds(name)
}

/// The names that stand in one of two lists.
pub(crate) fn those_among<'a>(
    alloc: Global,
    names: &[&'a str],
    first: &[&str],
    second: &[&str],
) -> Result<Vec<&'a str>, AllocError>
    ensures { IfOk result (λ those. letters_of those.items ≡ filter (λ n. is_among n (letters_of first.now) || is_among n (letters_of second.now)) (letters_of names.now)) }
{
    let mut those = Vec::with_capacity(alloc, names.len())?;
    let mut in_first = Walk {
        names: first,
        next: 0,
    };
    let mut in_second = Walk {
        names: second,
        next: 0,
    };
    for name in names {
        if is_in_either(name, &mut in_first, &mut in_second) {
            those.push(*name)?;
        }
    }
    Ok(those)
}
