//! Declarations and programs.

ghost use Rattle.std.specs.Prelude.{◌≡◌, ℕ, Bool, List, length, map, suc, None, IfOk};
ghost use Rattle.c0_source.specs.declared.kind.Kind.TheVariants as k;
ghost use Rattle.c0_syntax.specs.Programs.{type_names_after};
ghost use Rattle.c0_syntax.specs.Views.{declaration_of, header_of, typed_name_of};
ghost use Rattle.c0_grammar_laws.specs.Outcome.{Gives, next, plain_at};
ghost use Rattle.c0_grammar_laws.specs.Places.{Position, start_of};
ghost use Rattle.c0_grammar_laws.specs.PlacedPrograms.{DeclarationStands, HeaderStands, PlacedDeclarations, TypedNameStands};
ghost use Rattle.c0_grammar_laws.specs.ReadPrograms.{declaration_by, end_by, function as spec_function, less as spec_less, over_by, parameters_by, read_fields, read_header, read_parameters, read_program, struct_by, struct_of};
ghost use Rattle.c0_parser.specs.Stands.{FieldStands, FieldsStand, ParametersStand};
ghost use Rattle.c0_parser.specs.FoundPrograms.{first_known, found_declaration, found_header, found_parameter, found_parameters, one_field, one_parameter};

use crate::annotations::annotations;
use crate::found::{FoundHeader, FoundParameter, FoundParameters};
use crate::statements::statements;
use c0_grammar_laws::read_error::ReadError;
use c0_parser_cursor::cursor::Cursor;
use c0_parser_cursor::directives::Used;
use c0_parser_cursor::type_names::TypeNames;
use c0_source::kind::Kind;
use c0_syntax::program::{Declaration, DeclarationKind, Header, TypedName};

/// The most locals that a function may have, its parameters among them.
const MOST_LOCALS: usize = 1024;

/// The most functions that a program may define.
const MOST_FUNCTIONS: usize = 4096;

/// The most nodes on a path of a declaration.
const MOST_NODES: usize = 200;

/// One less, and none of none.
fn less(room: usize) -> usize
    ensures { result ≡ spec_less room }
{
    if room == 0 { 0 } else { room - 1 }
}

/// The place of the first parameter that is too many, behind one at which `room` more might stand.
fn over_after(over: Option<usize>, room: usize, at: usize) -> Option<usize>
    ensures { result ≡ first_known over (over_by room at None) }
{
    match over {
        Some(before) => Some(before),
        None if room == 0 => Some(at),
        None => None,
    }
}

fn declaration_node(cursor: &Cursor<'_>, start: usize, kind: DeclarationKind) -> Declaration
    ensures node { result.kind ≡ kind }
    ensures start { result.span.start ≡ start }
    ensures end { result.span.end ≡ cursor.now.position.end }
{
    Declaration {
        kind,
        span: cursor.span_from(start),
    }
}

/// The `#use` that stands next.
fn use_declaration(cursor: &mut Cursor<'_>) -> Result<Declaration, ReadError>
    requires { plain_at cursor.old.seen ≡ k.Use }
    ensures given { (types : List (List ℕ)) (loops : Bool) (depth room : ℕ) → Gives (found_declaration room cursor.new.seen) result (declaration_by types loops depth room k.Use cursor.old.seen) }
    ensures names { IfOk result (λ x. (types : List (List ℕ)) → type_names_after types (declaration_of x) ≡ types) }
    ensures placed { IfOk result (λ x. DeclarationStands cursor.old.position x cursor.new.position) }
{
    let start = cursor.start();
    let used = cursor.used()?;
    cursor.advance();
    let kind = match used {
        Some(Used::Name(text)) => DeclarationKind::UseName(text),
        Some(Used::Text(text)) => DeclarationKind::UseText(text),
        None => DeclarationKind::UseText(String::new(cursor.alloc())),
    };
    Ok(declaration_node(cursor, start, kind))
}

/// A field and its semicolon.
fn struct_field(
    cursor: &mut Cursor<'_>,
    types: &TypeNames<'_>,
    depth: usize,
) -> Result<TypedName, ReadError>
    ensures given { Gives (λ x. record { value = typed_name_of x; rest = cursor.new.seen }) result (one_field types.now depth cursor.old.seen) }
    ensures placed { IfOk result (λ x. FieldStands cursor.old.position x cursor.new.position) }
{
    let found = cursor.value_type(types, depth)?;
    let name = cursor.name()?;
    cursor.semi()?;
    Ok(TypedName {
        value_type: found.value_type,
        name,
    })
}

/// Fields, fewer than `most`, and the closing brace.
fn fields(
    cursor: &mut Cursor<'_>,
    types: &TypeNames<'_>,
    depth: usize,
    most: usize,
) -> Result<Vec<TypedName>, ReadError>
    ensures given { Gives (λ v. record { value = map typed_name_of v.items; rest = cursor.new.seen }) result (read_fields types.now depth most cursor.old.seen) }
    ensures placed { IfOk result (λ v. FieldsStand cursor.old.position v.items cursor.new.position) }
{
    let mut fields = Vec::new(cursor.alloc());
    for _turn in 0..most {
        match cursor.peek() {
            Kind::RBrace => {
                cursor.advance();
                return Ok(fields);
            }
            _ => {
                let field = struct_field(cursor, types, depth)?;
                fields.push(field)?;
            }
        }
    }
    Err(cursor.syntax())
}

/// A parameter, up to what stands behind it.
fn parameter(
    cursor: &mut Cursor<'_>,
    types: &TypeNames<'_>,
    depth: usize,
) -> Result<FoundParameter, ReadError>
    ensures given { Gives (found_parameter cursor.new.seen) result (one_parameter types.now depth cursor.old.seen) }
    ensures placed { IfOk result (λ f. TypedNameStands cursor.old.position f.parameter cursor.new.position) }
{
    let found = cursor.value_type(types, depth)?;
    let at = cursor.remaining();
    let name = cursor.new_name(types)?;
    Ok(FoundParameter {
        parameter: TypedName {
            value_type: found.value_type,
            name,
        },
        at,
    })
}

/// One parameter or more, and the closing parenthesis.
fn some_parameters(
    cursor: &mut Cursor<'_>,
    types: &TypeNames<'_>,
    depth: usize,
) -> Result<FoundParameters, ReadError>
    ensures given { Gives (found_parameters cursor.new.seen) result (read_parameters types.now depth 1024 (length cursor.old.seen) cursor.old.seen) }
    ensures placed { IfOk result (λ f. ParametersStand cursor.old.position f.parameters.items cursor.new.position) }
{
    let mut parameters = Vec::new(cursor.alloc());
    let mut over = None;
    let mut room = MOST_LOCALS;
    for _turn in 0..cursor.remaining() {
        let found = parameter(cursor, types, depth)?;
        over = over_after(over, room, found.at);
        room = less(room);
        parameters.push(found.parameter)?;
        match cursor.peek() {
            Kind::Comma => cursor.advance(),
            Kind::RParen => {
                cursor.advance();
                return Ok(FoundParameters { parameters, over });
            }
            _ => return Err(cursor.syntax()),
        }
    }
    Err(cursor.syntax())
}

/// What stands between the parentheses of a function, and the closing one.
fn parameters(
    cursor: &mut Cursor<'_>,
    types: &TypeNames<'_>,
    depth: usize,
) -> Result<FoundParameters, ReadError>
    ensures given { Gives (found_parameters cursor.new.seen) result (parameters_by types.now depth (plain_at cursor.old.seen) cursor.old.seen) }
    ensures placed { IfOk result (λ f. ParametersStand cursor.old.position f.parameters.items cursor.new.position) }
{
    match cursor.peek() {
        Kind::RParen => {
            cursor.advance();
            Ok(FoundParameters {
                parameters: Vec::new(cursor.alloc()),
                over: None,
            })
        }
        _ => some_parameters(cursor, types, depth),
    }
}

/// A function up to its body.
#[tactic(auto, unfolding(c0_grammar_laws::specs::ReadPrograms::read_header))]
fn header(
    cursor: &mut Cursor<'_>,
    types: &TypeNames<'_>,
    depth: usize,
) -> Result<FoundHeader, ReadError>
    ensures given { Gives (found_header cursor.new.seen) result (read_header types.now depth cursor.old.seen) }
    ensures placed { IfOk result (λ f. HeaderStands cursor.old.position f.header cursor.new.position) }
{
    let start = cursor.start();
    let result = cursor.value_type(types, depth)?;
    let at = cursor.remaining();
    let name = cursor.new_name(types)?;
    cursor.lparen()?;
    let found = parameters(cursor, types, depth)?;
    let span = cursor.span_from(start);
    let annotations = annotations(cursor, types, depth)?;
    Ok(FoundHeader {
        header: Header {
            result: result.value_type,
            name,
            parameters: found.parameters,
            annotations,
            span,
        },
        at,
        over: found.over,
    })
}

/// The body of a function, whose opening brace stands next.
fn definition(
    cursor: &mut Cursor<'_>,
    types: &TypeNames<'_>,
    loops: bool,
    depth: usize,
    start: usize,
    found: FoundHeader,
) -> Result<Declaration, ReadError>
    ensures given { (room : ℕ) → Gives (found_declaration room cursor.new.seen) result (end_by types.now loops depth (suc room) found.at found.over k.LBrace (header_of found.header) cursor.old.seen) }
    ensures names { IfOk result (λ x. (types : List (List ℕ)) → type_names_after types (declaration_of x) ≡ types) }
    ensures placed { (first : Position) → start ≡ start_of first → HeaderStands first found.header cursor.old.position → IfOk result (λ x. DeclarationStands first x cursor.new.position) }
{
    if let Some(at) = found.over {
        drop(found);
        return Err(ReadError::TooLarge(at));
    }
    cursor.advance();
    let mut room = MOST_LOCALS.saturating_sub(found.header.parameters.len());
    let most = cursor.remaining() + 1;
    match statements(cursor, types, loops, depth, most, &mut room) {
        Ok(body) => {
            let kind = DeclarationKind::DefineFunction(found.header, body);
            Ok(declaration_node(cursor, start, kind))
        }
        Err(error) => {
            drop(found);
            Err(error)
        }
    }
}

/// A function from behind its header, where `room` more may be defined.
fn function_end(
    cursor: &mut Cursor<'_>,
    types: &TypeNames<'_>,
    loops: bool,
    depth: usize,
    room: &mut usize,
    start: usize,
    found: FoundHeader,
) -> Result<Declaration, ReadError>
    ensures given { Gives (found_declaration room.new cursor.new.seen) result (end_by types.now loops depth room.old found.at found.over (plain_at cursor.old.seen) (header_of found.header) cursor.old.seen) }
    ensures names { IfOk result (λ x. (types : List (List ℕ)) → type_names_after types (declaration_of x) ≡ types) }
    ensures placed { (first : Position) → start ≡ start_of first → HeaderStands first found.header cursor.old.position → IfOk result (λ x. DeclarationStands first x cursor.new.position) }
{
    match cursor.peek() {
        Kind::Semi => {
            cursor.advance();
            let kind = DeclarationKind::DeclareFunction(found.header);
            Ok(declaration_node(cursor, start, kind))
        }
        Kind::LBrace => {
            if *room == 0 {
                return Err(ReadError::TooLarge(found.at));
            }
            *room -= 1;
            definition(cursor, types, loops, depth, start, found)
        }
        _ => Err(cursor.syntax()),
    }
}

/// A function, declared or defined.
#[tactic(auto, unfolding(c0_grammar_laws::specs::ReadPrograms::function))]
fn function(
    cursor: &mut Cursor<'_>,
    types: &TypeNames<'_>,
    loops: bool,
    depth: usize,
    room: &mut usize,
) -> Result<Declaration, ReadError>
    ensures given { Gives (found_declaration room.new cursor.new.seen) result (spec_function types.now loops depth room.old cursor.old.seen) }
    ensures names { IfOk result (λ x. (types : List (List ℕ)) → type_names_after types (declaration_of x) ≡ types) }
    ensures placed { IfOk result (λ x. DeclarationStands cursor.old.position x cursor.new.position) }
{
    let start = cursor.start();
    let found = header(cursor, types, depth)?;
    function_end(cursor, types, loops, depth, room, start, found)
}

/// `struct`, a name and a semicolon, which stand next.
fn declared_struct(cursor: &mut Cursor<'_>) -> Result<Declaration, ReadError>
    requires { plain_at (next cursor.old.seen) ≡ k.Name }
    ensures given { (types : List (List ℕ)) (loops : Bool) (depth room : ℕ) → Gives (found_declaration room cursor.new.seen) result (struct_by types loops depth room k.Semi cursor.old.seen) }
    ensures names { IfOk result (λ x. (types : List (List ℕ)) → type_names_after types (declaration_of x) ≡ types) }
    ensures placed { IfOk result (λ x. DeclarationStands cursor.old.position x cursor.new.position) }
{
    let start = cursor.start();
    cursor.advance();
    let name = cursor.take_name()?;
    cursor.advance();
    Ok(declaration_node(cursor, start, DeclarationKind::DeclareStruct(name)))
}

/// `struct`, a name and its fields, the first three tokens of which stand next.
fn defined_struct(
    cursor: &mut Cursor<'_>,
    types: &TypeNames<'_>,
    depth: usize,
) -> Result<Declaration, ReadError>
    requires { plain_at (next cursor.old.seen) ≡ k.Name }
    ensures given { (loops : Bool) (room : ℕ) → Gives (found_declaration room cursor.new.seen) result (struct_by types.now loops depth room k.LBrace cursor.old.seen) }
    ensures names { IfOk result (λ x. (types : List (List ℕ)) → type_names_after types (declaration_of x) ≡ types) }
    ensures placed { IfOk result (λ x. DeclarationStands cursor.old.position x cursor.new.position) }
{
    let start = cursor.start();
    let most = cursor.remaining();
    cursor.advance();
    let name = cursor.take_name()?;
    cursor.advance();
    let fields = fields(cursor, types, depth, most)?;
    cursor.semi()?;
    let kind = DeclarationKind::DefineStruct(name, fields);
    Ok(declaration_node(cursor, start, kind))
}

/// What begins with `struct` and a name: a struct, or a function whose result has its type.
fn named_struct(
    cursor: &mut Cursor<'_>,
    types: &TypeNames<'_>,
    loops: bool,
    depth: usize,
    room: &mut usize,
) -> Result<Declaration, ReadError>
    requires { plain_at (next cursor.old.seen) ≡ k.Name }
    ensures given { Gives (found_declaration room.new cursor.new.seen) result (struct_by types.now loops depth room.old (plain_at (next (next cursor.old.seen))) cursor.old.seen) }
    ensures names { IfOk result (λ x. (types : List (List ℕ)) → type_names_after types (declaration_of x) ≡ types) }
    ensures placed { IfOk result (λ x. DeclarationStands cursor.old.position x cursor.new.position) }
{
    match cursor.ahead().ahead().peek() {
        Kind::Semi => declared_struct(cursor),
        Kind::LBrace => defined_struct(cursor, types, depth),
        _ => function(cursor, types, loops, depth, room),
    }
}

/// What begins with `struct`, which stands next.
fn struct_declaration(
    cursor: &mut Cursor<'_>,
    types: &TypeNames<'_>,
    loops: bool,
    depth: usize,
    room: &mut usize,
) -> Result<Declaration, ReadError>
    ensures given { Gives (found_declaration room.new cursor.new.seen) result (struct_of types.now loops depth room.old (plain_at (next cursor.old.seen)) cursor.old.seen) }
    ensures names { IfOk result (λ x. (types : List (List ℕ)) → type_names_after types (declaration_of x) ≡ types) }
    ensures placed { IfOk result (λ x. DeclarationStands cursor.old.position x cursor.new.position) }
{
    let behind = cursor.ahead();
    match behind.peek() {
        Kind::Name => named_struct(cursor, types, loops, depth, room),
        _ => Err(behind.syntax()),
    }
}

/// A `typedef`, which stands next. Its name is a type's from then on.
fn typedef<'a>(
    cursor: &mut Cursor<'a>,
    types: &mut TypeNames<'a>,
    depth: usize,
) -> Result<Declaration, ReadError>
    ensures given { (loops : Bool) (room : ℕ) → Gives (found_declaration room cursor.new.seen) result (declaration_by types.old loops depth room k.Typedef cursor.old.seen) }
    ensures names { IfOk result (λ x. types.new ≡ type_names_after types.old (declaration_of x)) }
    ensures placed { IfOk result (λ x. DeclarationStands cursor.old.position x cursor.new.position) }
{
    let start = cursor.start();
    cursor.advance();
    let found = cursor.value_type(types, depth)?;
    let letters = cursor.letters();
    let name = cursor.new_name(types)?;
    cursor.semi()?;
    types.add(letters)?;
    let kind = DeclarationKind::Typedef(found.value_type, name);
    Ok(declaration_node(cursor, start, kind))
}

/// A declaration whose parts have at most `depth` nodes on a path.
fn declaration<'a>(
    cursor: &mut Cursor<'a>,
    types: &mut TypeNames<'a>,
    loops: bool,
    depth: usize,
    room: &mut usize,
) -> Result<Declaration, ReadError>
    ensures given { Gives (found_declaration room.new cursor.new.seen) result (declaration_by types.old loops depth room.old (plain_at cursor.old.seen) cursor.old.seen) }
    ensures names { IfOk result (λ x. types.new ≡ type_names_after types.old (declaration_of x)) }
    ensures placed { IfOk result (λ x. DeclarationStands cursor.old.position x cursor.new.position) }
{
    match cursor.peek() {
        Kind::Use => use_declaration(cursor),
        Kind::Struct => struct_declaration(cursor, types, loops, depth, room),
        Kind::Typedef => typedef(cursor, types, depth),
        _ => function(cursor, types, loops, depth, room),
    }
}

/// Declarations up to the end of the tokens.
pub(crate) fn program(cursor: &mut Cursor<'_>, loops: bool) -> Result<Vec<Declaration>, ReadError>
    ensures given { Gives (λ v. map declaration_of v.items) result (read_program loops cursor.old.seen) }
    ensures placed { IfOk result (λ v. PlacedDeclarations cursor.old.position v.items) }
{
    let mut types = TypeNames::new(cursor.alloc());
    let mut room = MOST_FUNCTIONS;
    let mut declarations = Vec::new(cursor.alloc());
    for _turn in 0..cursor.remaining() {
        if cursor.remaining() == 0 {
            return Ok(declarations);
        }
        let declaration = declaration(cursor, &mut types, loops, MOST_NODES - 1, &mut room)?;
        declarations.push(declaration)?;
    }
    if cursor.remaining() == 0 {
        return Ok(declarations);
    }
    Err(cursor.syntax())
}
