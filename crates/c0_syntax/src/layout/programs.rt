//! Laying out declarations and programs.

ghost use Rattle.std.specs.Prelude.{◌≡◌, true, ◌∷◌, ◌++◌, map, IfOk};
ghost use Rattle.c0_syntax.specs.declared.mark.Gap.TheVariants as g;
ghost use Rattle.c0_syntax.specs.Layouts.{comma_unless, gap_of_item, layout_typed_name, layout_fields, layout_parameters, layout_header, gap_of_function_body as spec_gap_of_function_body, layout_declaration, layout_program};
ghost use Rattle.c0_syntax.specs.Views.{annotation_of, typed_name_of, header_of, declaration_of};

use super::Layout;
use crate::mark::{Gap, Terminal};
use crate::program::{Declaration, DeclarationKind, Header, TypedName};
use crate::statement::Annotation;
use c0_source::kind::Kind;
use std::alloc::AllocError;

fn gap_of_function_body(annotations: &[Annotation]) -> Gap
    ensures { result ≡ spec_gap_of_function_body (map annotation_of annotations.now) }
{
    match annotations {
        [] => Gap::Blank,
        _ => Gap::Line(0),
    }
}

impl<'a> Layout<'a> {
    fn typed_name(&mut self, gap: Gap, typed: &'a TypedName) -> Result<(), AllocError>
        ensures { IfOk result (λ _. self.new ≡ self.old ++ layout_typed_name gap (typed_name_of typed.now)) }
    {
        self.value_type(gap, &typed.value_type)?;
        self.name(Gap::Blank, &typed.name)
    }

    // The fields of a struct, and the closing brace.
    fn fields(&mut self, fields: &'a [TypedName]) -> Result<(), AllocError>
        ensures { IfOk result (λ _. self.new ≡ self.old ++ layout_fields (map typed_name_of fields.now)) }
    {
        for field in fields {
            self.typed_name(Gap::Line(1), field)?;
            self.touching(Kind::Semi)?;
        }
        self.sign(Gap::Line(0), Kind::RBrace)
    }

    // A parameter, behind a comma where it isn't the first.
    fn parameter(&mut self, first: bool, parameter: &'a TypedName) -> Result<(), AllocError>
        ensures { IfOk result (λ _. self.new ≡ self.old ++ comma_unless first ++ layout_typed_name (gap_of_item first) (typed_name_of parameter.now)) }
    {
        if first {
            return self.typed_name(Gap::Touching, parameter);
        }
        self.touching(Kind::Comma)?;
        self.typed_name(Gap::Blank, parameter)
    }

    // The parameters of a function, and the closing parenthesis.
    fn parameters(&mut self, parameters: &'a [TypedName]) -> Result<(), AllocError>
        ensures { IfOk result (λ _. self.new ≡ self.old ++ layout_parameters true (map typed_name_of parameters.now)) }
    {
        let mut first = true;
        for parameter in parameters {
            self.parameter(first, parameter)?;
            first = false;
        }
        self.touching(Kind::RParen)
    }

    fn header(&mut self, gap: Gap, header: &'a Header) -> Result<(), AllocError>
        ensures { IfOk result (λ _. self.new ≡ self.old ++ layout_header gap (header_of header.now)) }
    {
        self.value_type(gap, &header.result)?;
        self.name(Gap::Blank, &header.name)?;
        self.touching(Kind::LParen)?;
        self.parameters(&header.parameters)?;
        self.annotations(1, &header.annotations)
    }

    fn declaration(&mut self, gap: Gap, declaration: &'a Declaration) -> Result<(), AllocError>
        ensures { IfOk result (λ _. self.new ≡ self.old ++ layout_declaration gap (declaration_of declaration.now)) }
    {
        match &declaration.kind {
            DeclarationKind::UseName(name) => self.push(gap, Terminal::UseName(name)),
            DeclarationKind::UseText(text) => self.push(gap, Terminal::UseText(text)),
            DeclarationKind::DeclareStruct(name) => {
                self.sign(gap, Kind::Struct)?;
                self.name(Gap::Blank, name)?;
                self.touching(Kind::Semi)
            }
            DeclarationKind::DefineStruct(name, fields) => {
                self.sign(gap, Kind::Struct)?;
                self.name(Gap::Blank, name)?;
                self.spaced(Kind::LBrace)?;
                self.fields(fields)?;
                self.touching(Kind::Semi)
            }
            DeclarationKind::Typedef(value_type, name) => {
                self.sign(gap, Kind::Typedef)?;
                self.value_type(Gap::Blank, value_type)?;
                self.name(Gap::Blank, name)?;
                self.touching(Kind::Semi)
            }
            DeclarationKind::DeclareFunction(header) => {
                self.header(gap, header)?;
                self.touching(Kind::Semi)
            }
            DeclarationKind::DefineFunction(header, body) => {
                self.header(gap, header)?;
                self.sign(gap_of_function_body(&header.annotations), Kind::LBrace)?;
                self.statements(0, body)
            }
        }
    }

    /// The declarations of a program, with an empty line before each but the first.
    pub fn declarations(&mut self, declarations: &'a [Declaration]) -> Result<(), AllocError>
        ensures { IfOk result (λ _. self.new ≡ self.old ++ layout_program g.Touching (map declaration_of declarations.now)) }
    {
        let mut gap = Gap::Touching;
        for declaration in declarations {
            self.declaration(gap, declaration)?;
            gap = Gap::EmptyLine;
        }
        Ok(())
    }
}
