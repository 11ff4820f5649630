//! The static rules of declarations, one after the other.

ghost use Rattle.std.specs.Prelude.{◌≡◌, ◌⊎◌, List, [], false, true, IfErr, IfOk, OnOk, map, option_map};
ghost use Rattle.c0_source.specs.declared.fault.FaultKind.TheVariants.{OutOfMemory};
ghost use Rattle.c0_syntax.specs.Trees.{DeclareFunction, DeclareStruct, DefineFunction, DefineStruct, Typedef as TypedefOf};
ghost use Rattle.c0_syntax.specs.Views.{declaration_of, header_of, name_of, statements_of, type_of, typed_name_of};
ghost use Rattle.c0_typed.specs.Views.{function_of};
ghost use Rattle.c0_types_bodies.specs.Bodies.{SpecsHaveTexts, StatementsHaveTexts};
ghost use Rattle.c0_types.specs.DeclareViews.{InDefinition, elaboration_of, use_of_conio};
ghost use Rattle.c0_types_declarations.specs.DeclarationViews.{InStruct, typed_field_of};
ghost use Rattle.c0_types.specs.FunctionViews.{DeclarationHasTexts, DeclarationsHaveTexts};
ghost use Rattle.c0_rules.specs.FaultExpressions.{TypeCause};
ghost use Rattle.c0_rules.specs.FaultPrograms.{AnySpecs, InDeclaration, InDeclarations, InHeader};
ghost use Rattle.c0_rules.specs.Mentions.{specs_in};
ghost use Rattle.c0_rules.specs.Programs.{beginning, begins_with_conio, cells_in, function_defined as defined_function, function_names_of, is_main, main_name, struct_defined as defined_struct, struct_names_of, typed_declaration, typed_declarations, with_struct};
ghost use Rattle.c0_rules.specs.Types.{Name as Word, same_types};
ghost use Rattle.c0_rules.specs.Answers.{Answers};
ghost use Rattle.c0_types_tables.specs.Views.{environment_of, signature_of};

use crate::functions::typed_function;
use c0_source::fault::Fault;
use c0_syntax::name::Name;
use c0_syntax::program::{Declaration, DeclarationKind, Header, TypedName};
use c0_syntax::statement::Statement;
use c0_syntax::value_type::ValueType;
use c0_typed::{Function, Struct};
use c0_types_declarations::definitions::{
    NewStruct, check_use, field_table, is_conio, new_struct, numbered_fields,
};
use c0_types_declarations::headers::{add_function, refuse_specs, signature};
use c0_types_tables::environment::Environment;
use c0_types_tables::names::Names;
use c0_types_tables::resolved::ResolvedType;
use c0_types_tables::signatures::Signature;
use c0_types_tables::structs::StructEntry;
use std::alloc::{AllocError, Global};

/// What stands before a declaration: what is declared, whether anything but `#use` stands there, and the structs and functions that are
/// defined.
#[derive(Debug, Drop)]
pub(crate) struct Elaborated {
    pub(crate) environment: Environment,
    pub(crate) begun: bool,
    pub(crate) structs: Vec<Struct>,
    pub(crate) functions: Vec<Function>,
}

impl Elaborated {
    /// Before the first declaration of a program.
    pub(crate) fn new(alloc: Global, declarations: &[Declaration]) -> Result<Elaborated, AllocError>
        ensures { (texts : List Word) → IfOk result (λ x. elaboration_of texts x ≡ beginning (map declaration_of declarations.now)) }
    {
        let structs = struct_names(alloc, declarations)?;
        let functions = function_names(alloc, declarations)?;
        let conio = begins_with_conio(declarations);
        Ok(Elaborated {
            environment: Environment::new(alloc, conio, structs, functions),
            begun: false,
            structs: Vec::new(alloc),
            functions: Vec::new(alloc),
        })
    }

    /// Declarations in order. What is left behind an `Err` is not told; so it is with one declaration.
    pub(crate) fn declarations(
        &mut self,
        alloc: Global,
        texts: &Names,
        declarations: &[Declaration],
    ) -> Result<(), Fault>
        requires { DeclarationsHaveTexts texts.now (map declaration_of declarations.now) }
        ensures answers { Answers (λ _. elaboration_of texts.now self.new) result (typed_declarations (map declaration_of declarations.now) (elaboration_of texts.now self.old)) }
        ensures cause { IfErr result (λ f. (f.kind ≡ OutOfMemory) ⊎ InDeclarations f (elaboration_of texts.now self.old) declarations.now) }
    {
        for declaration in declarations {
            self.declaration(alloc, texts, declaration)?;
        }
        Ok(())
    }

    /// A declaration, behind those before it.
    pub(crate) fn declaration(
        &mut self,
        alloc: Global,
        texts: &Names,
        declaration: &Declaration,
    ) -> Result<(), Fault>
        requires { DeclarationHasTexts texts.now (declaration_of declaration.now) }
        ensures answers { Answers (λ _. elaboration_of texts.now self.new) result (typed_declaration (declaration_of declaration.now) (elaboration_of texts.now self.old)) }
        ensures cause { IfErr result (λ f. (f.kind ≡ OutOfMemory) ⊎ InDeclaration f (elaboration_of texts.now self.old) declaration.now.kind declaration.now.span) }
    {
        let span = declaration.span;
        match &declaration.kind {
            DeclarationKind::UseName(library) => check_use(self.begun, true, library, span),
            DeclarationKind::UseText(library) => check_use(self.begun, false, library, span),
            DeclarationKind::DeclareStruct(_) => {
                self.begun = true;
                Ok(())
            }
            DeclarationKind::DefineStruct(name, items) => self.define_struct(alloc, name, items),
            DeclarationKind::Typedef(written, name) => self.define_type(alloc, written, name),
            DeclarationKind::DeclareFunction(header) => self.declare_function(alloc, header),
            DeclarationKind::DefineFunction(header, body) => self.define_function(
                alloc, texts, header, body,
            ),
        }
    }

    // A struct with its fields.
    fn define_struct(
        &mut self,
        alloc: Global,
        name: &Name,
        items: &[TypedName],
    ) -> Result<(), Fault>
        ensures answers { (texts : List Word) → Answers (λ _. elaboration_of texts self.new) result (typed_declaration (DefineStruct (name_of name.now) (map typed_name_of items.now)) (elaboration_of texts self.old)) }
        ensures cause { IfErr result (λ f. (f.kind ≡ OutOfMemory) ⊎ InStruct (environment_of self.old.environment) f name.now items.now) }
    {
        let made = new_struct(&self.environment, alloc, name, items)?;
        self.add_struct(alloc, name, made)?;
        Ok(())
    }

    // With one struct more.
    fn add_struct(&mut self, alloc: Global, name: &Name, made: NewStruct) -> Result<(), AllocError>
        requires { made.cells ≡ cells_in (environment_of self.old.environment).structs (map typed_field_of made.fields.items) }
        ensures { (texts : List Word) → OnOk result (elaboration_of texts self.new ≡ with_struct (name_of name.now) (map typed_field_of made.fields.items) (elaboration_of texts self.old)) }
    {
        let NewStruct { fields, cells } = made;
        let numbered = numbered_fields(&self.environment, alloc, &fields)?;
        let fields = field_table(alloc, fields)?;
        let key = name.text.clone()?;
        self.environment
            .structs
            .insert(key, StructEntry { fields, cells })?;
        self.structs.push(numbered)?;
        self.begun = true;
        Ok(())
    }

    // A typedef.
    fn define_type(&mut self, alloc: Global, written: &ValueType, name: &Name) -> Result<(), Fault>
        ensures answers { (texts : List Word) → Answers (λ _. elaboration_of texts self.new) result (typed_declaration (TypedefOf (type_of written.now) (name_of name.now)) (elaboration_of texts self.old)) }
        ensures cause { IfErr result (λ f. (f.kind ≡ OutOfMemory) ⊎ TypeCause (environment_of self.old.environment).typedefs f written.now.kind written.now.span) }
    {
        let resolved = self.environment.typedefs.resolve(alloc, written)?;
        self.environment.typedefs.insert(name, resolved)?;
        self.begun = true;
        Ok(())
    }

    // A function without its body.
    fn declare_function(&mut self, alloc: Global, header: &Header) -> Result<(), Fault>
        ensures answers { (texts : List Word) → Answers (λ _. elaboration_of texts self.new) result (typed_declaration (DeclareFunction (header_of header.now)) (elaboration_of texts self.old)) }
        ensures cause { IfErr result (λ f. (f.kind ≡ OutOfMemory) ⊎ InHeader f (environment_of self.old.environment) false header.now ⊎ AnySpecs f header.now.annotations.items) }
    {
        let signature = signature(&self.environment, alloc, false, header)?;
        refuse_specs(&header.annotations)?;
        add_function(&mut self.environment, signature)?;
        self.begun = true;
        Ok(())
    }

    // A function with its body, in which its own name is in scope.
    fn define_function(
        &mut self,
        alloc: Global,
        texts: &Names,
        header: &Header,
        body: &[Statement],
    ) -> Result<(), Fault>
        requires { SpecsHaveTexts texts.now (specs_in ((header_of header.now).annotations)) × StatementsHaveTexts texts.now (statements_of body.now) }
        ensures answers { Answers (λ _. elaboration_of texts.now self.new) result (typed_declaration (DefineFunction (header_of header.now) (statements_of body.now)) (elaboration_of texts.now self.old)) }
        ensures cause { IfErr result (λ f. (f.kind ≡ OutOfMemory) ⊎ InDefinition (environment_of self.old.environment) f header.now body.now) }
    {
        let signature = signature(&self.environment, alloc, true, header)?;
        add_function(&mut self.environment, signature)?;
        let environment = &self.environment;
        let Some(signature) = environment.functions.get(&header.name.text) else {
            unreachable!();
        };
        let function = typed_function(alloc, environment, texts, signature, header, body)?;
        self.functions.push(function)?;
        self.begun = true;
        Ok(())
    }
}

// The struct that a declaration defines.
fn struct_defined(declaration: &Declaration) -> Option<&Name>
    ensures { option_map (λ n. name_of n.now) result ≡ defined_struct (declaration_of declaration.now) }
{
    match &declaration.kind {
        DeclarationKind::DefineStruct(name, _) => Some(name),
        _ => None,
    }
}

// The function that a declaration defines.
fn function_defined(declaration: &Declaration) -> Option<&Name>
    ensures { option_map (λ n. name_of n.now) result ≡ defined_function (declaration_of declaration.now) }
{
    match &declaration.kind {
        DeclarationKind::DefineFunction(header, _) => Some(&header.name),
        _ => None,
    }
}

// Whether a `#use` names conio; none of any other declaration.
fn use_of_conio(declaration: &Declaration) -> Option<bool>
    ensures { result ≡ use_of_conio (declaration_of declaration.now) }
{
    match &declaration.kind {
        DeclarationKind::UseName(library) => Some(is_conio(true, library)),
        DeclarationKind::UseText(_) => Some(false),
        _ => None,
    }
}

/// Whether conio is used before the first declaration that is no `#use`.
pub(crate) fn begins_with_conio(declarations: &[Declaration]) -> bool
    ensures { result ≡ begins_with_conio (map declaration_of declarations.now) }
{
    for declaration in declarations {
        let Some(is_conio) = use_of_conio(declaration) else {
            return false;
        };
        if is_conio {
            return true;
        }
    }
    false
}

/// The names of the structs that a program defines, in order.
pub(crate) fn struct_names(alloc: Global, declarations: &[Declaration]) -> Result<Names, AllocError>
    ensures { IfOk result (λ v. v ≡ struct_names_of (map declaration_of declarations.now)) }
{
    let mut names = Names::new(alloc);
    for declaration in declarations {
        if let Some(name) = struct_defined(declaration) {
            names.push(name.text.clone()?)?;
        }
    }
    Ok(names)
}

/// The names of the functions that a program defines, in order.
pub(crate) fn function_names(
    alloc: Global,
    declarations: &[Declaration],
) -> Result<Names, AllocError>
    ensures { IfOk result (λ v. v ≡ function_names_of (map declaration_of declarations.now)) }
{
    let mut names = Names::new(alloc);
    for declaration in declarations {
        if let Some(name) = function_defined(declaration) {
            names.push(name.text.clone()?)?;
        }
    }
    Ok(names)
}

// Whether a function takes nothing.
fn has_no_parameters(function: &Signature) -> bool
    ensures { result ≡ same_types (signature_of function.now).parameters [] }
{
    function.parameters.is_empty()
}

/// Whether the table has a definition of `int main()`.
pub(crate) fn has_main(environment: &Environment) -> bool
    ensures { result ≡ is_main ((environment_of environment.now).functions main_name) }
{
    match environment.functions.get("main") {
        Some(main) => main.defined
            && main.result.same_as(&ResolvedType::INT)
            && has_no_parameters(main),
        None => false,
    }
}
