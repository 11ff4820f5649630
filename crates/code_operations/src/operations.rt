//! What simple instructions do: a command for the registers, the allocations or the output.
ghost use Rattle.code_form.specs.Code.{Frame, after, int_of, makes, op_fits};
ghost use Rattle.code_form.specs.declared.form.Operation.TheVariants as form;
ghost use Rattle.code_form.specs.Form.{Instruction, image_of};
ghost use Rattle.code_form.specs.Growth.{prints};
ghost use Rattle.code_form.specs.Touches.{touch_of};
ghost use Rattle.code_operations.specs.Commands.{did_by, did_of, done_by};
ghost use Rattle.code_operations.specs.Layouts.{are_small};
ghost use Rattle.code_operations.specs.Outcomes.{only_writes};
ghost use Rattle.std.specs.Prelude.{◌≡◌, ◌<◌, ◌*◌, ℕ, List, false, slice_get, slice_index, true};

use crate::allocations::Allocations;
use crate::fault::Fault;
use crate::fits::operation_fits;
use crate::output::Printed;
use crate::registers::{AnyRegisters, offset_in};
use crate::results::{Outcome, outcome_of};
use crate::values::{natural_of, number, text_of, value_in};
use code_form::{Allocation, Cell, Image, Kind, Operation, Touch};

/// What a simple instruction is to do.
#[derive(Clone, Copy)]
pub enum Command<'a> {
    Goes,
    /// Goes on, and tells that the piece of this cell will be wanted.
    Tells(Option<Cell>),
    Sets { to: u32, value: u64 },
    Makes { to: u32, allocation: Allocation },
    Prints(Printed<'a>),
    Stops(Fault),
    Fails,
}

/// What simple instructions read.
#[derive(Clone, Copy)]
pub struct Operands<'a, 'r> {
    pub image: &'a Image,
    pub kinds: &'r [Kind],
    pub registers: &'r [u64],
    pub allocations: &'r Allocations,
}

impl<'a> Command<'a> {
    /// What it touches.
    #[tactic(auto, using(crate::proofs::Placing::cell_back))]
    #[inline(always)]
    pub fn touch(self) -> Touch
        ensures { (is : List Instruction) (f : Frame) (st : List Frame) (al : List Allocation) (o : List ℕ) → result ≡ touch_of (after (did_of self.entry) is f st al o) }
    {
        match self {
            Command::Goes | Command::Sets { .. } | Command::Prints(_) => Touch::Plain,
            Command::Tells(cell) => Touch::Hints(cell),
            Command::Makes { allocation, .. } => Touch::Allocs(allocation.cells),
            Command::Stops(_) => Touch::Ends,
            Command::Fails => Touch::Wrong,
        }
    }
}

impl<'a, 'r> Operands<'a, 'r> {
    /// What a register holds; 0 where there is none.
    #[inline(always)]
    fn register(&self, register: u32) -> u64
        ensures { result ≡ slice_index self.now.registers.now register }
    {
        value_in(self.registers, register)
    }

    /// The number that a register holds.
    #[inline(always)]
    fn number(&self, register: u32) -> i32
        ensures { result ≡ int_of (slice_index self.now.registers.now register) }
    {
        number(self.register(register))
    }

    #[tactic(auto, using(crate::proofs::Placing::place_back))]
    fn prefetch(&self, register: u32, offset: Option<u32>, displacement: u32) -> Command<'a>
        ensures { did_of result ≡ done_by self.now (form.Prefetch register offset displacement) }
    {
        let registers = AnyRegisters {
            values: self.registers,
        };
        let start = offset_in(&registers, offset);
        Command::Tells(
            self.allocations
                .cell(self.register(register), start, displacement),
        )
    }

    /// A new array of so many elements, or a fault where there is no such number.
    fn array(&self, to: u32, layout: u32, count: Option<u32>) -> Command<'a>
        requires { are_small (image_of self.now.image.now).head.layouts ≡ true }
        ensures { did_of result ≡ makes to layout count (slice_get (image_of self.now.image.now).head.layouts layout) }
    {
        match self.image.layouts.get(layout as usize) {
            None => Command::Fails,
            Some(kinds) => match count {
                None => Command::Stops(Fault::Length),
                Some(count) => Command::Makes {
                    to,
                    allocation: elements(layout, count, kinds.len()),
                },
            },
        }
    }

    fn print(&self, from: u32) -> Command<'a>
        ensures { did_of result ≡ done_by self.now (form.Print from) }
    {
        match text_of(self.image, self.register(from)) {
            Some(text) => Command::Prints(Printed::Text(text)),
            None => Command::Fails,
        }
    }

    fn println(&self, from: u32) -> Command<'a>
        ensures { did_of result ≡ done_by self.now (form.Println from) }
    {
        match text_of(self.image, self.register(from)) {
            Some(text) => Command::Prints(Printed::Line(text)),
            None => Command::Fails,
        }
    }

    fn printbool(&self, from: u32) -> Command<'a>
        ensures { did_of result ≡ done_by self.now (form.Printbool from) }
    {
        if self.register(from) == 0 {
            Command::Prints(Printed::Truth(false))
        } else {
            Command::Prints(Printed::Truth(true))
        }
    }

    fn printchar(&self, from: u32) -> Command<'a>
        ensures { did_of result ≡ done_by self.now (form.Printchar from) }
    {
        Command::Prints(Printed::Letter((self.register(from) % (1 << 8)) as u8))
    }

    /// What an instruction that prints is to do, whose operands fit.
    fn output(&self, operation: &Operation) -> Command<'a>
        requires { prints operation.now ≡ true }
        ensures { did_of result ≡ done_by self.now operation.now }
    {
        match *operation {
            Operation::Print { from } => self.print(from),
            Operation::Println { from } => self.println(from),
            Operation::Printint { from } => Command::Prints(Printed::Number(self.number(from))),
            Operation::Printbool { from } => self.printbool(from),
            Operation::Printchar { from } => self.printchar(from),
            _ => unreachable!(),
        }
    }

    /// What a simple instruction is to do whose operands fit, and which does more than to write a register, or stops the program.
    #[inline(never)]
    #[cold]
    fn does_more(&self, operation: &Operation) -> Command<'a>
        requires small { are_small (image_of self.now.image.now).head.layouts ≡ true }
        requires more { only_writes (done_by self.now operation.now) ≡ false }
        ensures { did_of result ≡ done_by self.now operation.now }
    {
        match *operation {
            Operation::Binary { .. } => Command::Stops(Fault::Arith),
            Operation::CheckNull { .. } => Command::Stops(Fault::Null),
            Operation::CheckIndex { .. } => Command::Stops(Fault::Bounds),
            Operation::Assert { .. } => Command::Stops(Fault::AssertFailed),
            Operation::Prefetch {
                register,
                offset,
                displacement,
            } => self.prefetch(register, offset, displacement),
            Operation::Alloc { to, layout } => self.array(to, layout, Some(1)),
            Operation::AllocArray { to, layout, length } => {
                self.array(to, layout, natural_of(self.number(length)))
            }
            Operation::Print { .. }
            | Operation::Println { .. }
            | Operation::Printint { .. }
            | Operation::Printbool { .. }
            | Operation::Printchar { .. } => self.output(operation),
            _ => unreachable!(),
        }
    }

    /// What a simple instruction is to do whose operands fit.
    #[inline(always)]
    fn does(&self, operation: &Operation) -> Command<'a>
        requires { are_small (image_of self.now.image.now).head.layouts ≡ true }
        ensures { did_of result ≡ done_by self.now operation.now }
    {
        let registers = AnyRegisters {
            values: self.registers,
        };
        match outcome_of(operation, &registers, self.allocations) {
            Outcome::Sets { to, value } | Outcome::SetsScalar { to, value } => {
                Command::Sets { to, value }
            }
            Outcome::Goes => Command::Goes,
            Outcome::Other => self.does_more(operation),
        }
    }

    /// What a simple instruction is to do. Where `fits` it is known that its operands fit; else they are looked at.
    #[inline(always)]
    pub fn command(&self, operation: &Operation, fits: bool) -> Command<'a>
        requires small { are_small (image_of self.now.image.now).head.layouts ≡ true }
        requires known { fits ≡ true → op_fits (image_of self.now.image.now).head self.now.kinds.now operation.now ≡ true }
        ensures { did_of result ≡ did_by self.now operation.now }
    {
        if fits || operation_fits(self.image, self.kinds, operation) {
            self.does(operation)
        } else {
            Command::Fails
        }
    }
}

/// The allocation of an array of `count` elements of a layout with so many cells.
fn elements(layout: u32, count: u32, size: usize) -> Allocation
    requires { size < 4294967296 }
    ensures { result ≡ record { layout = layout; length = count; cells = count * size } }
{
    Allocation {
        layout,
        length: u64::from(count),
        cells: u64::from(count) * size as u64,
    }
}
