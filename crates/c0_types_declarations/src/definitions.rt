//! The static rules of structs, and of the library in use.

ghost use Rattle.std.specs.Prelude.{◌≡◌, ◌⊎◌, ◌&&◌, nat_le, not, IfErr, IfOk, Some, map};
ghost use Rattle.c0_source.specs.declared.fault.FaultKind.TheVariants.{BadUse, OutOfMemory};
ghost use Rattle.c0_syntax.specs.Views.{name_of, type_of, typed_name_of};
ghost use Rattle.c0_typed.specs.Views.{struct_of};
ghost use Rattle.c0_types_declarations.specs.DeclarationViews.{Accepts, InStruct, held_type, new_fields, typed_field_of};
ghost use Rattle.c0_rules.specs.Expressions.{num};
ghost use Rattle.c0_rules.specs.FaultExpressions.{HeldTypeCause, Told};
ghost use Rattle.c0_rules.specs.FaultPrograms.{InFields};
ghost use Rattle.c0_rules.specs.Programs.{cell_limit, cells_in, field_types as types_of_fields, fields_of, is_conio as names_conio};
ghost use Rattle.c0_rules.specs.Types.{field_of, provided};
ghost use Rattle.c0_rules.specs.Answers.{Answers};
ghost use Rattle.c0_types_tables.specs.Views.{environment_of, field_table_of, resolved_of, structs_of};

use crate::headers::{check_distinct, first_told};
use c0_source::fault::{Fault, FaultKind, Span};
use c0_syntax::name::Name;
use c0_syntax::program::TypedName;
use c0_syntax::value_type::ValueType;
use c0_typed::Struct;
use c0_types_tables::environment::Environment;
use c0_types_tables::resolved::ResolvedType;
use c0_types_tables::structs::{FieldEntry, Fields, Structs};
use std::alloc::{AllocError, Global};

/// The most cells of a struct.
const CELL_LIMIT: usize = 4096;

/// A field, whose number is its place among the others.
#[derive(Debug, Drop)]
pub struct Field {
    pub name: String,
    pub resolved: ResolvedType,
}

/// The type of a field: memory can hold it here.
fn resolve_held(
    environment: &Environment,
    alloc: Global,
    written: &ValueType,
) -> Result<ResolvedType, Fault>
    ensures answers { Answers resolved_of result (held_type (environment_of environment.now) (type_of written.now)) }
    ensures cause { IfErr result (λ f. (f.kind ≡ OutOfMemory) ⊎ HeldTypeCause (environment_of environment.now) f written.now) }
{
    let resolved = environment.typedefs.resolve(alloc, written)?;
    if environment.structs.cells(&resolved).is_none() {
        return Err(Fault {
            kind: FaultKind::StructNotComplete,
            span: written.span,
        });
    }
    Ok(resolved)
}

/// The fields of a struct, each of a type that memory can hold here.
pub(crate) fn fields(
    environment: &Environment,
    alloc: Global,
    items: &[TypedName],
) -> Result<Vec<Field>, Fault>
    ensures answers { Answers (λ v. map typed_field_of v.items) result (fields_of (environment_of environment.now) (map typed_name_of items.now)) }
    ensures cause { IfErr result (λ f. (f.kind ≡ OutOfMemory) ⊎ InFields f (environment_of environment.now) items.now) }
{
    let mut fields = Vec::new(alloc);
    for item in items {
        let resolved = resolve_held(environment, alloc, &item.value_type)?;
        let name = item.name.text.clone()?;
        fields.push(Field { name, resolved })?;
    }
    Ok(fields)
}

/// The cells of all fields, where they are no more than a struct may have.
pub(crate) fn cells_within(structs: &Structs, fields: &[Field]) -> Option<usize>
    ensures { result ≡ provided (nat_le (cells_in (structs_of structs.now) (map typed_field_of fields.now)) cell_limit) (Some (cells_in (structs_of structs.now) (map typed_field_of fields.now))) }
{
    let mut sum = 0;
    for field in fields {
        let cells = structs.cells(&field.resolved).unwrap_or(0);
        if cells > CELL_LIMIT - sum {
            return None;
        }
        sum += cells;
    }
    Some(sum)
}

/// The fields of a struct, with their cells.
#[derive(Debug, Drop)]
pub struct NewStruct {
    pub fields: Vec<Field>,
    pub cells: usize,
}

/// The fields of a struct that may be defined here. Of several faults the first in the text is told; too many cells are one at the name of
/// the struct, once the types are right.
pub fn new_struct(
    environment: &Environment,
    alloc: Global,
    name: &Name,
    items: &[TypedName],
) -> Result<NewStruct, Fault>
    ensures answers { Answers (λ d. map typed_field_of d.fields.items) result (new_fields (environment_of environment.now) (name_of name.now) (map typed_name_of items.now)) }
    ensures cause { IfErr result (λ f. (f.kind ≡ OutOfMemory) ⊎ InStruct (environment_of environment.now) f name.now items.now) }
    ensures cells { IfOk result (λ d. d.cells ≡ cells_in (environment_of environment.now).structs (map typed_field_of d.fields.items)) }
{
    if environment.structs.get(&name.text).is_some() {
        return Err(Fault {
            kind: FaultKind::DuplicateName,
            span: name.span,
        });
    }
    let names = check_distinct(alloc, items);
    let fields = match fields(environment, alloc, items) {
        Ok(fields) => fields,
        Err(fault) => return Err(first_told(fault, names)),
    };
    let Some(cells) = cells_within(&environment.structs, &fields) else {
        return Err(Fault {
            kind: FaultKind::TooLarge,
            span: name.span,
        });
    };
    names?;
    Ok(NewStruct { fields, cells })
}

/// The struct of typed trees: the types of the fields.
pub fn numbered_fields(
    environment: &Environment,
    alloc: Global,
    fields: &[Field],
) -> Result<Struct, AllocError>
    ensures { IfOk result (λ r. struct_of r ≡ map (num (environment_of environment.now)) (types_of_fields (map typed_field_of fields.now))) }
{
    let mut types = Vec::new(alloc);
    for field in fields {
        types.push(environment.numbered(&field.resolved)?)?;
    }
    Ok(Struct { fields: types })
}

/// Fields by their names, the last one first: where two had one name, it would be that of the first.
pub fn field_table(alloc: Global, mut fields: Vec<Field>) -> Result<Fields, AllocError>
    ensures { IfOk result (λ r. field_table_of r ≡ field_of 0 (map typed_field_of fields.items)) }
{
    let mut table = Fields::new(alloc);
    while let Some(field) = fields.pop() {
        let number = fields.len();
        let resolved = field.resolved;
        table.insert(field.name, FieldEntry { number, resolved })?;
    }
    Ok(table)
}

/// Whether `#use` names the one library that there is.
pub fn is_conio(in_brackets: bool, name: &str) -> bool
    ensures { result ≡ names_conio in_brackets name.now }
{
    in_brackets && name == "conio"
}

/// `#use` names the one library, before any other declaration.
pub fn check_use(begun: bool, in_brackets: bool, library: &str, span: Span) -> Result<(), Fault>
    ensures accepts { Accepts result (names_conio in_brackets library.now && not begun) }
    ensures cause { IfErr result (λ f. Told BadUse span f) }
{
    if is_conio(in_brackets, library) && !begun {
        Ok(())
    } else {
        Err(Fault {
            kind: FaultKind::BadUse,
            span,
        })
    }
}
