//! The words, frames and cells of the world, and what the owner of each object knows.
ghost use Rattle.cells.specs.Pieces.{cells_in};
ghost use Rattle.std.specs.Prelude.{◌≡◌, ◌<◌, ◌≤◌, ◌^◌, IfOk, Some, None, is_none, length};
ghost use Rattle.pointer_word.specs.Hands.{upd};
ghost use Rattle.pointer_word.specs.Machine.{State, after_clear, after_close, after_open, after_told};
ghost use Rattle.pointer_word.specs.Words.{clean_bit, cleared, counted, framed, mark_bit, pack, place_bits};
ghost use Rattle.world_memory.specs.Tables.{cell_at, frame_at, frame_word, is_at_rest_in, is_away_at, is_clean_in, is_marked_by, object_at, opened, place_of, resting, with_cell, with_frame, with_object, word_of, FrameFits};
ghost use Rattle.world_memory.specs.Shown.{Shown};
ghost use Rattle.world_semantics.specs.Worlds.{Sizes};

use cells::Piece;
use pointer_word::Word;
use std::alloc::{AllocError, Global};
use std::marker::Model;

/// Where an object is.
#[derive(Clone, Copy, PartialEq, Eq, Debug)]
pub enum ObjectPlace {
    /// In its store cell.
    Away,
    /// A mover brings it in.
    Coming(u16),
    /// In a frame; it may be clean: then its store cell has the same words.
    Here(usize, bool),
    /// In a frame, while a mover copies it out; the mark may still stand.
    Leaving(usize, u16, bool),
}

/// An object's word, and what its owner knows of it: the frame where it was told to be, and whether it may be written there.
#[derive(Clone, Copy, PartialEq, Eq, Debug)]
pub struct Object {
    pub count: u8,
    pub place: ObjectPlace,
    pub told: Option<usize>,
    pub writing: bool,
}

/// The words of all objects with what their owners know, the object for which each frame is held, and the cells of all frames: those of
/// a frame stand behind those of the frame before it, `size` of each. The word of a frame is the number of its object and one more, and 0
/// where it is free.
#[derive(Drop)]
pub struct WorldMemory {
    objects: Vec<Object>,
    frames: Vec<Option<usize>>,
    cells: Vec<u64>,
    size: usize,
}

impl Model for WorldMemory {
    ghost use Rattle.std.specs.Prelude.{◌≡◌, ◌*◌, length};
    ghost use Rattle.world_memory.specs.Tables.{Tables};

    ghost Value = { Tables };

    ghost view = { λ m. record { objects = m.objects.items; frames = m.frames.items; cells = m.cells.items; size = m.size } };

    ghost invariant = { λ m. length m.cells.items ≡ length m.frames.items * m.size };
}

impl ObjectPlace {
    /// The frame where the object is.
    pub fn frame(self) -> Option<usize>
        ensures { result ≡ framed (place_of self) }
    {
        match self {
            ObjectPlace::Away | ObjectPlace::Coming(_) => None,
            ObjectPlace::Here(frame, _) | ObjectPlace::Leaving(frame, _, _) => Some(frame),
        }
    }
}

impl ObjectPlace {
    /// The bits of the place in a word.
    fn bits(self) -> u64
        ensures value { FrameFits (place_of self) → result ≡ place_bits (place_of self) }
        ensures room { result < 2 ^ 61 }
    {
        match self {
            ObjectPlace::Away => 0,
            ObjectPlace::Coming(mover) => 0x4_0000 + mover as u64 * 0x1000_0000_0000,
            ObjectPlace::Here(frame, clean) => {
                clean_bits(clean) + 0x8_0000 + (frame as u64 % 0x100_0000) * 0x10_0000
            }
            ObjectPlace::Leaving(frame, mover, marked) => {
                let at = (frame as u64 % 0x100_0000) * 0x10_0000;
                mark_bits(marked) + 0xa_0000 + at + mover as u64 * 0x1000_0000_0000
            }
        }
    }
}

impl Object {
    /// An object in its store cell, with no hold.
    fn resting() -> Object
        ensures { result ≡ resting }
    {
        Object {
            count: 0,
            place: ObjectPlace::Away,
            told: None,
            writing: false,
        }
    }

    /// The bits of its word, whose frame has 24 of them.
    pub fn word(self) -> Word
        ensures { FrameFits (place_of self.place) → result.bits ≡ pack (word_of self) }
    {
        Word {
            bits: self.count as u64 + self.place.bits(),
        }
    }

    /// Whether it is in its store cell.
    pub fn is_away(self) -> bool
        ensures { result ≡ is_away_at self.place }
    {
        matches!(self.place, ObjectPlace::Away)
    }

    /// Whether it has no hold, and this mover's mark in this frame stands.
    pub fn is_marked(self, frame: usize, mover: u16) -> bool
        ensures { result ≡ is_marked_by self frame mover }
    {
        match self.place {
            ObjectPlace::Leaving(at, by, true) => at == frame && by == mover && self.count == 0,
            _ => false,
        }
    }

    /// Whether it is in this frame with no hold, is not clean, and no mover moves it.
    pub fn is_at_rest(self, frame: usize) -> bool
        ensures { result ≡ is_at_rest_in self frame }
    {
        match self.place {
            ObjectPlace::Here(at, false) => at == frame && self.count == 0,
            _ => false,
        }
    }

    /// Whether it is clean in this frame with no hold.
    pub fn is_clean(self, frame: usize) -> bool
        ensures { result ≡ is_clean_in self frame }
    {
        match self.place {
            ObjectPlace::Here(at, true) => at == frame && self.count == 0,
            _ => false,
        }
    }

    /// The place with no mark, and not clean.
    fn cleared(self) -> ObjectPlace
        ensures { place_of result ≡ cleared (place_of self.place) }
    {
        match self.place {
            ObjectPlace::Here(frame, _) => ObjectPlace::Here(frame, false),
            ObjectPlace::Leaving(frame, mover, _) => ObjectPlace::Leaving(frame, mover, false),
            place => place,
        }
    }
}

impl WorldMemory {
    /// Every object away with no hold, and every frame free and zero. A frame has the cells of a piece.
    pub fn new(
        alloc: Global,
        objects: usize,
        frames: usize,
        piece: Piece,
    ) -> Result<WorldMemory, AllocError>
        requires { frames ≤ 1048576 }
        ensures { IfOk result (λ m. m ≡ opened objects frames (cells_in piece)) }
    {
        let size = piece.cells();
        Ok(WorldMemory {
            objects: Vec::from_elem(alloc, Object::resting(), objects)?,
            frames: Vec::from_elem(alloc, None, frames)?,
            cells: Vec::from_elem(alloc, 0, frames * size)?,
            size,
        })
    }

    /// How many objects there are.
    pub fn objects(&self) -> usize
        ensures { result ≡ length self.now.objects }
    {
        self.objects.len()
    }

    /// How many frames there are.
    pub fn frames(&self) -> usize
        ensures { result ≡ length self.now.frames }
    {
        self.frames.len()
    }

    /// How many cells a frame has.
    pub fn size(&self) -> usize
        ensures { result ≡ self.now.size }
    {
        self.size
    }

    /// An object; one that isn't there is away with no hold.
    pub fn object(&self, object: usize) -> Object
        ensures { result ≡ object_at self.now object }
    {
        if object < self.objects.len() {
            self.objects[object]
        } else {
            Object::resting()
        }
    }

    fn put_object(&mut self, object: usize, value: Object)
        ensures { self.new ≡ with_object self.old object value }
    {
        if object < self.objects.len() {
            self.objects[object] = value;
        }
    }

    /// Whether nobody holds the frame.
    pub fn is_free(&self, frame: usize) -> bool
        ensures { result ≡ is_none (frame_at self.now frame) }
    {
        if frame < self.frames.len() {
            self.frames[frame].is_none()
        } else {
            true
        }
    }

    /// A frame's cell; 0 where there is none.
    pub fn cell(&self, frame: usize, index: usize) -> u64
        ensures { result ≡ cell_at self.now frame index }
    {
        if frame < self.frames.len() && index < self.size {
            self.cells[frame * self.size + index]
        } else {
            0
        }
    }

    fn set_frame(&mut self, frame: usize, held_for: Option<usize>)
        ensures { self.new ≡ with_frame self.old frame held_for }
    {
        if frame < self.frames.len() {
            self.frames[frame] = held_for;
        }
    }

    fn set_cell(&mut self, frame: usize, index: usize, value: u64)
        ensures { frame < length self.old.frames → index < self.old.size → self.new ≡ with_cell self.old frame index value }
    {
        if frame < self.frames.len() && index < self.size {
            self.cells[frame * self.size + index] = value;
        }
    }

    /// One hold of the object more, whose owner is told where it is.
    pub fn open(&mut self, object: usize)
        requires { (object_at self.old object).count < 4 }
        ensures { (z : Sizes) (s : State) → Shown z self.old s → object < z.objects → Shown z self.new (after_open s object) }
    {
        let row = self.object(object);
        let opened = Object {
            count: row.count + 1,
            place: row.place,
            told: row.place.frame(),
            writing: row.writing,
        };
        self.put_object(object, opened);
    }

    /// One hold of the object less; with the last one goes what its owner knows.
    pub fn close(&mut self, object: usize)
        requires { 0 < (object_at self.old object).count }
        ensures { (z : Sizes) (s : State) → Shown z self.old s → Shown z self.new (after_close s object) }
    {
        let row = self.object(object);
        let last = row.count == 1;
        let closed = Object {
            count: row.count - 1,
            place: row.place,
            told: if last { None } else { row.told },
            writing: !last && row.writing,
        };
        self.put_object(object, closed);
    }

    /// The object is neither marked nor clean, and its owner may write where it knows the frame.
    pub fn clear(&mut self, object: usize)
        ensures { (z : Sizes) (s : State) → Shown z self.old s → object < z.objects → Shown z self.new (after_clear s object) }
    {
        let row = self.object(object);
        let cleared = Object {
            count: row.count,
            place: row.cleared(),
            told: row.told,
            writing: row.told.is_some(),
        };
        self.put_object(object, cleared);
    }

    /// The object's owner is told where it is.
    pub fn tell(&mut self, object: usize)
        ensures { (z : Sizes) (s : State) → Shown z self.old s → object < z.objects → Shown z self.new (after_told s object) }
    {
        let row = self.object(object);
        let told = Object {
            count: row.count,
            place: row.place,
            told: row.place.frame(),
            writing: row.writing,
        };
        self.put_object(object, told);
    }

    /// The object is elsewhere.
    pub fn put_place(&mut self, object: usize, place: ObjectPlace)
        ensures { (z : Sizes) (s : State) → Shown z self.old s → object < z.objects
            → Shown z self.new (record s { word = upd s.word object (counted (s.word object).count (place_of place)) }) }
    {
        let row = self.object(object);
        let moved = Object {
            count: row.count,
            place,
            told: row.told,
            writing: row.writing,
        };
        self.put_object(object, moved);
    }

    /// The frame is held for another object, or is free.
    pub fn hold_frame(&mut self, frame: usize, held_for: Option<usize>)
        ensures { (z : Sizes) (s : State) → Shown z self.old s → frame < z.frames → Shown z self.new (record s { frame = upd s.frame frame (frame_word held_for) }) }
    {
        self.set_frame(frame, held_for);
    }

    /// A cell of the frame has another value.
    pub fn put_cell(&mut self, frame: usize, index: usize, value: u64)
        ensures { (z : Sizes) (s : State) → Shown z self.old s → frame < z.frames → index < z.cells
            → Shown z self.new (record s { cell = upd s.cell frame (upd (s.cell frame) index value) }) }
    {
        self.set_cell(frame, index, value);
    }
}

/// The bits of a mark that stands or doesn't.
fn mark_bits(marked: bool) -> u64
    ensures value { result ≡ mark_bit marked }
    ensures room { result ≤ 65536 }
{
    if marked { 0x1_0000 } else { 0 }
}

/// The bits of an object in a frame that is clean or isn't.
fn clean_bits(clean: bool) -> u64
    ensures value { result ≡ clean_bit clean }
    ensures room { result ≤ 0x1000_0000_0000_0000 }
{
    if clean { 0x1000_0000_0000_0000 } else { 0 }
}
