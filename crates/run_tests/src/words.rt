//! Which words there are, and which changes of a word are lawful, by the fields of its bits.
//!
//! Bits 0 to 15 count the owner's holds, 16 is the mark, 17 says that the object is moved out, 18 and 19 are 0 of an object that is away, 1 of one that comes and 2 of one in
//! a frame; bits 20 to 43 are the frame, bits 44 to 59 the mover, and bit 60 is set of a clean one.

const HOLDS: u64 = 0xffff;

const MARK: u64 = 0x1_0000;

const OUT: u64 = 0x2_0000;

const COMING: u64 = 0x4_0000;

const HERE: u64 = 0x8_0000;

const FRAME: u64 = 0xfff_fff0_0000;

const MOVER: u64 = 0xffff << 44;

const CLEAN: u64 = 1 << 60;

/// One bit for the frame where the object is, if it is in one of the first 64.
pub(crate) fn frame_bit(word: u64) -> u64 {
    if word & HERE == 0 {
        return 0;
    }
    let frame = u32::try_from((word & FRAME) >> 20).unwrap_or(64);
    1u64.checked_shl(frame).unwrap_or(0)
}

/// Whether the word is one of an object that is away, comes by one of so many movers, or is in one of so many frames: there it is clean, or not, or is moved out by one of
/// these movers, with the mark or without. At most four holds are open.
pub(crate) fn is_word(word: u64, movers: u64, frames: u64) -> bool {
    let mover = (word & MOVER) >> 44;
    let has_mover = mover > 0 && mover <= movers;
    let rest = word & !(HOLDS | FRAME | MOVER);
    let fits = match rest {
        0 => mover == 0 && word & FRAME == 0,
        COMING => has_mover && word & FRAME == 0,
        _ => {
            let is_moved = rest == HERE | OUT || rest == HERE | OUT | MARK;
            let is_still = rest == HERE || rest == HERE | CLEAN;
            (word & FRAME) >> 20 < frames && (is_moved && has_mover || is_still && mover == 0)
        }
    };
    fits && word & HOLDS <= 4
}

/// Whether an owner makes this change: it opens a hold, closes one, or begins to write under one.
fn is_owners(old: u64, new: u64) -> bool {
    let holds = old & HOLDS;
    let opens = holds < 4 && new == old.wrapping_add(1);
    let closes = holds > 0 && new == old.wrapping_sub(1);
    let writes = holds > 0 && old & HERE != 0 && new == old & !(MARK | CLEAN);
    opens || closes || writes
}

/// Whether the mover of these bits makes this change of the word of an object in a frame: it marks it, commits, or aborts, or the object leaves, as it is clean.
fn is_movers_here(old: u64, new: u64, hand: u64) -> bool {
    let rest = old & !FRAME;
    let marks = rest == HERE && new == old | MARK | OUT | hand;
    let commits = rest == HERE | MARK | OUT | hand && new == 0;
    let aborts = old & OUT != 0 && old & MOVER == hand && new == old & !(MARK | OUT | MOVER);
    let leaves = rest == HERE | CLEAN && new == 0;
    marks || commits || aborts || leaves
}

/// Whether the mover of this number makes this change: it begins to bring the object in, where that has a hold or the mover is no owner, retreats, or arrives; or the object
/// is in a frame.
fn is_movers(old: u64, new: u64, mover: u64, owns: bool) -> bool {
    let holds = old & HOLDS;
    let hand = mover << 44;
    let begins = old == holds && owns == (holds > 0) && new == holds | COMING | hand;
    let brings = old == holds | COMING | hand;
    let retreats = brings && new == holds;
    let arrives = brings && new & !FRAME == holds | HERE | CLEAN;
    begins || retreats || arrives || is_movers_here(old, new, hand)
}

/// Whether the actor that is this mover, and owns the object or does not, may make this change of its word.
pub(crate) fn is_lawful(old: u64, new: u64, mover: u64, owns: bool) -> bool {
    owns && is_owners(old, new) || is_movers(old, new, mover, owns)
}
