//! What instructions print.
ghost use Rattle.code_operations.specs.Commands.{bytes_of};
ghost use Rattle.std.specs.Prelude.{◌≡◌, ◌++◌, ◌∷◌, [], IfOk, MatchResult, string_bytes};

use std::alloc::{AllocError, Global};

/// What an instruction prints.
#[derive(Clone, Copy)]
pub enum Printed<'a> {
    Text(&'a str),
    /// A text and the end of its line.
    Line(&'a str),
    Number(i32),
    Truth(bool),
    Letter(u8),
}

impl<'a> Printed<'a> {
    /// Its bytes.
    fn bytes(self, alloc: Global) -> Result<Vec<u8>, AllocError>
        ensures { IfOk result (λ bytes. bytes.items ≡ bytes_of self.entry) }
    {
        let shown = match self {
            Printed::Text(text) => String::from_str(alloc, text)?,
            Printed::Line(text) => line(alloc, text)?,
            Printed::Number(number) => format!(in alloc; "{}", number)?,
            Printed::Truth(value) => format!(in alloc; "{}", value)?,
            Printed::Letter(code) => return Vec::from_slice(alloc, &[code]),
        };
        Ok(shown.into_bytes())
    }

    /// Puts it behind the output. Where memory is refused nothing is changed.
    #[inline(never)]
    pub fn print(self, alloc: Global, output: &mut Vec<u8>) -> Result<(), AllocError>
        ensures { MatchResult result (λ _. output.new.items ≡ output.old.items ++ bytes_of self.entry) (λ _. output.new.items ≡ output.old.items) }
    {
        let bytes = self.bytes(alloc)?;
        output.extend_from_slice(&bytes)?;
        Ok(())
    }
}

/// The text and the end of its line.
fn line(alloc: Global, text: &str) -> Result<String, AllocError>
    ensures { IfOk result (λ line. string_bytes line ≡ text.now ++ 10 ∷ []) }
{
    let mut line = String::from_str(alloc, text)?;
    line.push_str("\n")?;
    Ok(line)
}
