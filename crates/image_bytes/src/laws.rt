//! Laws of the definitions of an image's bytes: functions that do nothing, and whose contracts hold.
ghost use Rattle.code_form.specs.declared.form.Kind.TheVariants.{Int, Off};
ghost use Rattle.code_form.specs.declared.form.Operation.TheVariants.{CharOf};
ghost use Rattle.code_form.specs.Form.{Aim, Simple};
ghost use Rattle.image_bytes.specs.Bytes.{first_bytes, image_bytes};
ghost use Rattle.image_bytes.specs.Encodable.{IsEncodable};
ghost use Rattle.image_bytes.specs.Worked.{bytes_of_returns_zero, first_bytes_of_returns_zero, returns_zero, with_byte, with_cell, with_first};
ghost use Rattle.std.specs.Prelude.{◌≡◌, Some, length};

/// The bytes of a small image, in both versions.
pub fn worked()
    ensures bytes { image_bytes returns_zero ≡ bytes_of_returns_zero }
    ensures count { length bytes_of_returns_zero ≡ 57 }
    ensures first { first_bytes returns_zero ≡ first_bytes_of_returns_zero }
    ensures first_count { length first_bytes_of_returns_zero ≡ 55 }
{}

/// Images that the format has bytes for, and beside them what it has none for: a text and a character beyond ASCII, an offset in a layout, and an offset register
/// with the number that stands for none.
pub fn worked_images()
    ensures encodable { IsEncodable returns_zero }
    ensures byte { IsEncodable (with_byte 127) }
    ensures text { IsEncodable (with_byte 128) → ⊥ }
    ensures letter { IsEncodable (with_first (Simple (CharOf 0 127))) }
    ensures character { IsEncodable (with_first (Simple (CharOf 0 128))) → ⊥ }
    ensures cell { IsEncodable (with_cell Int) }
    ensures offset { IsEncodable (with_cell (Off 0)) → ⊥ }
    ensures last { IsEncodable (with_first (Aim 0 0 (Some 4294967294) 0)) }
    ensures register { IsEncodable (with_first (Aim 0 0 (Some 4294967295) 0)) → ⊥ }
{}
