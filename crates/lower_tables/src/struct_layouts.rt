//! Layouts of structs and of single cells.
ghost use Rattle.c0_typed.specs.Views.{struct_of, type_of};
ghost use Rattle.lower_tables.specs.Kinds.{cell_kinds, field_kinds, struct_layouts as layouts_with};
ghost use Rattle.lower_tables.specs.Tables.{layouts_read, offsets_read, starts};
ghost use Rattle.std.specs.Prelude.{◌≡◌, ◌++◌, ◌∷◌, ◌+◌, ◌<◌, ◌^◌, ℕ, [], List, IfOk, OnOk, length, map};

use crate::kinds::kind_of;
use crate::singles::Singles;
use c0_typed::{PlainType, Struct, ValueType};
use code_form::Kind;
use std::alloc::{AllocError, Global};

/// How many cells something of a type has, over the layouts of structs.
pub fn cells_in(layouts: &[Vec<Kind>], ty: &ValueType) -> usize
    ensures { (n : ℕ) (singles : List Kind) → result ≡ length (cell_kinds n singles (layouts_read layouts.now) (type_of ty.now)) }
{
    match ty {
        ValueType::Plain(PlainType::Void) => 0,
        ValueType::Plain(PlainType::Struct(number)) => match layouts.get(*number as usize) {
            Some(layout) => layout.len(),
            None => 0,
        },
        ValueType::Plain(PlainType::Int | PlainType::Bool | PlainType::Char | PlainType::Text) => 1,
        ValueType::Pointer(_) | ValueType::Array(_) => 1,
    }
}

/// The cells of one more field.
fn add_cells(
    structs: u32,
    singles: &Singles,
    layouts: &[Vec<Kind>],
    ty: &ValueType,
    layout: &mut Vec<Kind>,
) -> Result<(), AllocError>
    requires { structs + length singles.now + 1 < 2 ^ 32 }
    ensures { OnOk result (layout.new.items ≡ layout.old.items ++ cell_kinds structs singles.now (layouts_read layouts.now) (type_of ty.now)) }
{
    match ty {
        ValueType::Plain(PlainType::Void) => Ok(()),
        ValueType::Plain(PlainType::Struct(number)) => match layouts.get(*number as usize) {
            Some(inner) => layout.extend_from_slice(inner),
            None => Ok(()),
        },
        ValueType::Plain(_) | ValueType::Pointer(_) | ValueType::Array(_) => {
            layout.push(kind_of(structs, singles, ty))?;
            Ok(())
        }
    }
}

/// The layout of a struct, from those of the structs before it.
fn layout_of(
    alloc: Global,
    structs: u32,
    singles: &Singles,
    layouts: &[Vec<Kind>],
    fields: &[ValueType],
) -> Result<Vec<Kind>, AllocError>
    requires { structs + length singles.now + 1 < 2 ^ 32 }
    ensures { IfOk result (λ v. v.items ≡ field_kinds structs singles.now (layouts_read layouts.now) (map type_of fields.now)) }
{
    let mut layout = Vec::new(alloc);
    for field in fields {
        add_cells(structs, singles, layouts, field, &mut layout)?;
    }
    Ok(layout)
}

/// The layouts of structs, in their order.
pub fn struct_layouts(
    alloc: Global,
    number: u32,
    singles: &Singles,
    structs: &[Struct],
) -> Result<Vec<Vec<Kind>>, AllocError>
    requires { number + length singles.now + 1 < 2 ^ 32 }
    ensures { IfOk result (λ v. layouts_read v.items ≡ layouts_with number singles.now [] (map struct_of structs.now)) }
{
    let mut layouts = Vec::new(alloc);
    for fields in structs {
        let layout = layout_of(alloc, number, singles, &layouts, &fields.fields)?;
        layouts.push(layout)?;
    }
    Ok(layouts)
}

/// Where the fields of a struct begin, and where they end. More cells than numbers of 32 bits tell apart can't be had.
fn field_starts(
    alloc: Global,
    layouts: &[Vec<Kind>],
    fields: &[ValueType],
) -> Result<Vec<u32>, AllocError>
    ensures { IfOk result (λ v. (n : ℕ) (singles : List Kind) → v.items ≡ starts n singles (layouts_read layouts.now) 0 (map type_of fields.now)) }
{
    let mut found = Vec::new(alloc);
    let mut start: u32 = 0;
    for field in fields {
        found.push(start)?;
        let Ok(cells) = u32::try_from(cells_in(layouts, field)) else {
            return Err(AllocError);
        };
        let Some(next) = start.checked_add(cells) else {
            return Err(AllocError);
        };
        start = next;
    }
    found.push(start)?;
    Ok(found)
}

/// Where the fields of each struct begin.
pub fn all_starts(
    alloc: Global,
    layouts: &[Vec<Kind>],
    structs: &[Struct],
) -> Result<Vec<Vec<u32>>, AllocError>
    ensures { IfOk result (λ v. (n : ℕ) (singles : List Kind) → offsets_read v.items ≡ map (starts n singles (layouts_read layouts.now) 0) (map struct_of structs.now)) }
{
    let mut found = Vec::new(alloc);
    for fields in structs {
        found.push(field_starts(alloc, layouts, &fields.fields)?)?;
    }
    Ok(found)
}

/// The layouts of a program, behind those of its structs: one without cells, and one for each kind of single cells.
pub fn add_single_layouts(
    alloc: Global,
    layouts: &mut Vec<Vec<Kind>>,
    singles: &Singles,
) -> Result<(), AllocError>
    ensures { OnOk result (layouts_read layouts.new.items ≡ layouts_read layouts.old.items ++ [] ∷ map (λ k. k ∷ []) singles.now) }
{
    layouts.push(Vec::new(alloc))?;
    let kinds = singles.kinds();
    for kind in kinds {
        layouts.push(vec![in alloc; *kind]?)?;
    }
    Ok(())
}
