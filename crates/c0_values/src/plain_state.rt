//! What the plain run changes.
ghost use Rattle.std.specs.Prelude.{◌≡◌, ◌++◌, [], ◌∷◌, map, pos, string_bytes, IfErr, IfOk, IfSome};
ghost use Rattle.c0_typed.specs.Values.{Number, Void, array_length, as_number, as_ref, as_text, load, store};
ghost use Rattle.c0_typed.specs.Meaning.{State, allocate as allocate_of, allocate_array, default, element as element_of, holds, local as local_of, pointed as pointed_of, printed as printed_of, set_local as set_local_of, stop, struct_defaults};
ghost use Rattle.c0_typed.specs.Views.{output_of, struct_of, text_at as text_of, texts_of, type_of};
ghost use Rattle.cells.specs.Outcomes.{Done};
ghost use Rattle.cells.specs.Stops.{ErrorCalled};
ghost use Rattle.c0_values.specs.declared.plain_state.Halt.TheVariants.{Memory};
ghost use Rattle.c0_values.specs.PlainStates.{Agrees, TakesTurn, Texts, field_of, next_of, nothing_of, opening, prints, spot_of, state_of, tree_of, value_of};

use crate::heap::{Spot, Tree, copies, default_tree, part, part_count, stored};
use crate::value::Value;
use c0_typed::{Output, Struct, Typed, ValueType};
use cells::Stop;
use std::alloc::Global;
use std::mem;

/// Why an evaluation isn't done.
#[derive(Debug, Drop)]
pub enum Halt {
    Stopped(Stop),
    /// A turn was wanted, and none was left.
    Cut,
    /// A growth was refused.
    Memory,
}

/// The turns that are left, the heap, the locals of the running call, and what was printed.
#[derive(Debug, Drop)]
pub struct PlainState {
    pub turns: u64,
    pub heap: Vec<Tree>,
    pub locals: Vec<Value>,
    pub output: Vec<u8>,
}

/// Goes on where a condition holds.
pub fn asserted(condition: Value) -> Result<(), Halt>
    ensures { (texts : Texts) (s : State) → Agrees next_of result (holds (value_of texts condition) s) s }
{
    if !condition.truth() {
        return Err(Halt::Stopped(Stop::AssertFailed));
    }
    Ok(())
}

/// The place that a pointer points to.
pub fn pointed(alloc: Global, pointer: Value) -> Result<Spot, Halt>
    ensures { (texts : Texts) (s : State) → Agrees spot_of result (pointed_of (value_of texts pointer) s) s }
{
    let reference = pointer.reference();
    if reference == 0 {
        return Err(Halt::Stopped(Stop::NullFault));
    }
    Ok(Spot {
        index: reference - 1,
        path: Vec::new(alloc),
    })
}

/// The place of a field of the struct at a place.
pub fn at_field(mut spot: Spot, field: usize) -> Result<Spot, Halt>
    ensures ok { IfOk result (λ inner. spot_of inner ≡ field_of (spot_of spot) field) }
    ensures err { IfErr result (λ h. h ≡ Memory) }
{
    let Ok(()) = spot.path.push(field) else {
        return Err(Halt::Memory);
    };
    Ok(spot)
}

/// The text with a number: 0 is the empty one.
fn text_at(texts: &[String], number: u32) -> &str
    ensures { result.now ≡ text_of (map string_bytes texts.now) number }
{
    if number == 0 {
        return "";
    }
    match texts.get(number as usize - 1) {
        Some(text) => text.as_str(),
        None => "",
    }
}

/// What a call of the library prints. None where a growth is refused.
fn printed(alloc: Global, texts: &[String], output: Output, value: Value) -> Option<Vec<u8>>
    ensures { IfSome result (λ bytes. bytes.items ≡ printed_of (output_of output) (value_of (map string_bytes texts.now) value ∷ [])) }
{
    let shown = match output {
        Output::Print | Output::Println => String::from_str(alloc, text_at(texts, value.text())),
        Output::Printint => format!(in alloc; "{}", value.number()),
        Output::Printbool => format!(in alloc; "{}", value.truth()),
        Output::Printchar => return Vec::from_slice(alloc, &[value.letter()]).ok(),
        Output::Flush => return Some(Vec::new(alloc)),
    };
    let mut bytes = shown.ok()?.into_bytes();
    if output == Output::Println {
        let Ok(()) = bytes.push(10) else {
            return None;
        };
    }
    Some(bytes)
}

/// How the program stops with a text.
pub fn error_called(alloc: Global, program: &Typed, value: Value) -> Halt
    ensures { (s : State) → Agrees (value_of (texts_of program.now)) (Err result) (stop (ErrorCalled (as_text (value_of (texts_of program.now) value))) s) s }
{
    match String::from_str(alloc, text_at(&program.texts, value.text())) {
        Ok(text) => Halt::Stopped(Stop::ErrorCalled(text)),
        Err(_) => Halt::Memory,
    }
}

impl PlainState {
    /// The state where the call of `main` begins: nothing is allocated, and nothing was printed.
    pub fn begin(alloc: Global, turns: u64) -> PlainState
        ensures { (texts : Texts) → state_of texts result ≡ opening turns }
    {
        PlainState {
            turns,
            heap: Vec::new(alloc),
            locals: Vec::new(alloc),
            output: Vec::new(alloc),
        }
    }

    /// What a local holds.
    pub fn local(&self, x: usize) -> Value
        ensures { (texts : Texts) → value_of texts result ≡ local_of x (state_of texts self.now) }
    {
        self.locals.get(x).copied().unwrap_or(Value::Void)
    }

    /// Writes a value to a local.
    pub fn set_local(&mut self, x: usize, value: Value)
        ensures { (texts : Texts) → state_of texts self.new ≡ set_local_of x (value_of texts value) (state_of texts self.old) }
    {
        if x < self.locals.len() {
            self.locals[x] = value;
        }
    }

    /// The value at a place.
    pub fn load(&self, spot: &Spot) -> Value
        ensures { (texts : Texts) → value_of texts result ≡ load (state_of texts self.now).heap (spot_of spot.now) }
    {
        match self.heap.get(spot.index) {
            Some(tree) => part(tree, &spot.path),
            None => Value::Void,
        }
    }

    /// Writes a value to a place.
    pub fn store(&mut self, spot: &Spot, value: Value)
        ensures { (texts : Texts) → state_of texts self.new ≡ record (state_of texts self.old) { heap = store (state_of texts self.old).heap (spot_of spot.now) (value_of texts value) } }
    {
        if spot.index < self.heap.len() {
            let tree = mem::replace(&mut self.heap[spot.index], Tree::Leaf(Value::Void));
            self.heap[spot.index] = stored(tree, &spot.path, value);
        }
    }

    /// A fresh allocation that holds a tree.
    fn allocate(&mut self, tree: Tree) -> Result<Value, Halt>
        ensures { (texts : Texts) → Agrees (value_of texts) result (allocate_of (tree_of texts tree) (state_of texts self.old)) (state_of texts self.new) }
    {
        let Ok(()) = self.heap.push(tree) else {
            return Err(Halt::Memory);
        };
        Ok(Value::Reference(self.heap.len()))
    }

    /// A fresh pointer to what has a type, over the structs of the program.
    pub fn allocate_one(
        &mut self,
        alloc: Global,
        structs: &[Struct],
        ty: &ValueType,
    ) -> Result<Value, Halt>
        ensures { (texts : Texts) → Agrees (value_of texts) result (allocate_of (default (struct_defaults [] (map struct_of structs.now)) (type_of ty.now)) (state_of texts self.old)) (state_of texts self.new) }
    {
        let Some(tree) = default_tree(alloc, structs, ty) else {
            return Err(Halt::Memory);
        };
        self.allocate(tree)
    }

    /// A fresh array of so many elements of a type, over the structs of the program.
    pub fn allocate_many(
        &mut self,
        alloc: Global,
        structs: &[Struct],
        ty: &ValueType,
        count: Value,
    ) -> Result<Value, Halt>
        ensures { (texts : Texts) → Agrees (value_of texts) result (allocate_array (default (struct_defaults [] (map struct_of structs.now)) (type_of ty.now)) (as_number (value_of texts count)) (state_of texts self.old)) (state_of texts self.new) }
    {
        let Some(count) = count.size() else {
            return Err(Halt::Stopped(Stop::LengthFault));
        };
        let Some(tree) = default_tree(alloc, structs, ty) else {
            return Err(Halt::Memory);
        };
        let Some(elements) = copies(alloc, count, &tree) else {
            return Err(Halt::Memory);
        };
        self.allocate(Tree::Node(elements))
    }

    /// How many elements an array has; the empty default array has none.
    pub fn length(&self, array: usize) -> usize
        ensures { (texts : Texts) → result ≡ array_length (state_of texts self.now).heap array }
    {
        if array == 0 {
            return 0;
        }
        match self.heap.get(array - 1) {
            Some(tree) => part_count(tree),
            None => 0,
        }
    }

    /// How many elements an array has, as a number. None has more than a number can tell.
    pub fn length_value(&self, array: Value) -> Result<Value, Halt>
        ensures { (texts : Texts) → Agrees (value_of texts) result (Done (Number (pos (array_length (state_of texts self.now).heap (as_ref (value_of texts array))))) (state_of texts self.now)) (state_of texts self.now) }
    {
        match i32::try_from(self.length(array.reference())) {
            Ok(length) => Ok(Value::Number(length)),
            Err(_) => Err(Halt::Memory),
        }
    }

    /// The place of an element of an array.
    pub fn element(&self, alloc: Global, array: Value, index: Value) -> Result<Spot, Halt>
        ensures { (texts : Texts) → Agrees spot_of result (element_of (value_of texts array) (as_number (value_of texts index)) (state_of texts self.now)) (state_of texts self.now) }
    {
        let Some(index) = index.size() else {
            return Err(Halt::Stopped(Stop::BoundsFault));
        };
        let reference = array.reference();
        if index >= self.length(reference) {
            return Err(Halt::Stopped(Stop::BoundsFault));
        }
        let mut path = Vec::new(alloc);
        let Ok(()) = path.push(index) else {
            return Err(Halt::Memory);
        };
        Ok(Spot {
            index: reference - 1,
            path,
        })
    }

    /// Prints bytes.
    fn write(&mut self, bytes: &[u8]) -> Result<(), Halt>
        ensures { (texts : Texts) → Agrees nothing_of result (Done Void (record (state_of texts self.old) { output = (state_of texts self.old).output ++ bytes.now })) (state_of texts self.new) }
    {
        match self.output.extend_from_slice(bytes) {
            Ok(()) => Ok(()),
            Err(_) => Err(Halt::Memory),
        }
    }

    /// What a call of the library does.
    pub fn print(
        &mut self,
        alloc: Global,
        program: &Typed,
        output: Output,
        values: Vec<Value>,
    ) -> Result<Value, Halt>
        ensures { Agrees (value_of (texts_of program.now)) result (prints (output_of output) (map (value_of (texts_of program.now)) values.items) (state_of (texts_of program.now) self.old)) (state_of (texts_of program.now) self.new) }
    {
        let Some(value) = values.first() else {
            return Ok(Value::Void);
        };
        let Some(bytes) = printed(alloc, &program.texts, output, *value) else {
            return Err(Halt::Memory);
        };
        self.write(&bytes)?;
        Ok(Value::Void)
    }

    /// Uses a turn.
    pub fn take_turn(&mut self) -> Result<(), Halt>
        ensures { (texts : Texts) → TakesTurn result (state_of texts self.old) (state_of texts self.new) }
    {
        if self.turns == 0 {
            return Err(Halt::Cut);
        }
        self.turns -= 1;
        Ok(())
    }
}
