//! What allocations hold: parts of trees of values, writes to them, and what fresh memory holds.
ghost use Rattle.std.specs.Prelude.{◌≡◌, [], map, IfSome};
ghost use Rattle.c0_typed.specs.Values.{Leaf, copies as copies_of, count, leaf, part_at, parts, with_part_at};
ghost use Rattle.c0_typed.specs.Meaning.{default, struct_defaults};
ghost use Rattle.c0_typed.specs.Views.{struct_of, type_of};
ghost use Rattle.c0_values.specs.PlainStates.{Texts, tree_of, trees_of, value_of};

use crate::value::{Value, blank_value};
use c0_typed::{PlainType, Struct, ValueType};
use std::alloc::Global;
use std::mem;

/// A value, or the fields of a struct, or the elements of an array.
#[derive(Debug, Drop)]
pub enum Tree {
    Leaf(Value),
    Node(Vec<Tree>),
}

/// A place: the index of its allocation in the heap, and the way to a part of it by numbers of fields and indexes.
#[derive(Debug, Drop)]
pub struct Spot {
    pub index: usize,
    pub path: Vec<usize>,
}

/// How many parts a tree has.
pub(crate) fn part_count(tree: &Tree) -> usize
    ensures { (texts : Texts) → result ≡ count (parts (tree_of texts tree.now)) }
{
    match tree {
        Tree::Leaf(_) => 0,
        Tree::Node(parts) => parts.len(),
    }
}

/// The value at the end of a way.
pub(crate) fn part(tree: &Tree, path: &[usize]) -> Value
    ensures { (texts : Texts) → value_of texts result ≡ leaf (part_at path.now (tree_of texts tree.now)) }
{
    let Some((k, rest)) = path.split_first() else {
        return match tree {
            Tree::Leaf(value) => *value,
            Tree::Node(_) => Value::Void,
        };
    };
    match tree {
        Tree::Leaf(_) => Value::Void,
        Tree::Node(parts) => match parts.get(*k) {
            Some(inner) => part(inner, rest),
            None => Value::Void,
        },
    }
}

/// The tree with a value at the end of a way.
pub(crate) fn stored(tree: Tree, path: &[usize], value: Value) -> Tree
    ensures { (texts : Texts) → tree_of texts result ≡ with_part_at path.now (Leaf (value_of texts value)) (tree_of texts tree) }
{
    let Some((k, rest)) = path.split_first() else {
        return Tree::Leaf(value);
    };
    match tree {
        Tree::Leaf(old) => Tree::Leaf(old),
        Tree::Node(mut parts) => {
            if *k >= parts.len() {
                return Tree::Node(parts);
            }
            let inner = mem::replace(&mut parts[*k], Tree::Leaf(Value::Void));
            parts[*k] = stored(inner, rest, value);
            Tree::Node(parts)
        }
    }
}

/// A tree that holds the same. None where a growth is refused.
pub(crate) fn copied(alloc: Global, tree: &Tree) -> Option<Tree>
    ensures { IfSome result (λ t. (texts : Texts) → tree_of texts t ≡ tree_of texts tree.now) }
{
    match tree {
        Tree::Leaf(value) => Some(Tree::Leaf(*value)),
        Tree::Node(parts) => {
            let mut all = Vec::new(alloc);
            for part in parts {
                let Ok(()) = all.push(copied(alloc, part)?) else {
                    return None;
                };
            }
            Some(Tree::Node(all))
        }
    }
}

/// So many trees that hold the same. None where a growth is refused: the first one is for all of them.
pub(crate) fn copies(alloc: Global, count: usize, tree: &Tree) -> Option<Vec<Tree>>
    ensures { IfSome result (λ all. (texts : Texts) → trees_of texts all.items ≡ copies_of count (tree_of texts tree.now)) }
{
    let Ok(mut all) = Vec::with_capacity(alloc, count) else {
        return None;
    };
    for _ in 0..count {
        let Ok(()) = all.push(copied(alloc, tree)?) else {
            return None;
        };
    }
    Some(all)
}

/// What fresh memory of a type holds, over the structs of the program: it is made here, of the structs that the type holds
/// alone. A struct holds only structs that stand before it. None where a growth is refused.
pub(crate) fn default_tree(alloc: Global, structs: &[Struct], ty: &ValueType) -> Option<Tree>
    ensures { IfSome result (λ t. (texts : Texts) → tree_of texts t ≡ default (struct_defaults [] (map struct_of structs.now)) (type_of ty.now)) }
{
    let ValueType::Plain(plain) = ty else {
        return Some(Tree::Leaf(blank_value(ty)));
    };
    let PlainType::Struct(number) = plain else {
        return Some(Tree::Leaf(blank_value(ty)));
    };
    let Some(one) = structs.get(*number as usize) else {
        return Some(Tree::Leaf(Value::Void));
    };
    let before = &structs[..*number as usize];
    let mut all = Vec::new(alloc);
    for field in &one.fields {
        let Ok(()) = all.push(default_tree(alloc, before, field)?) else {
            return None;
        };
    }
    Some(Tree::Node(all))
}
