// The field reader: one field at an offset of the file, its head judged, its content handed on as a part of the file's own bytes.
ghost use Rattle.std.specs.Prelude.{◌≡◌};
ghost use Rattle.file_field.specs.Head.{head_told, head_of};

use crate::tags::{comes_once, is_tag, length_allowed};
use bytes_get::two_at;
use rules_plan::Fault;

// The head of a field without a fault: its tag and the size of its content.
#[derive(Clone, Copy)]
pub struct Head {
    pub tag: u8,
    pub size: u16,
}

// Reads a field's tag and length, and judges them: verdicts 2 to 5.
pub fn head_at(file: &[u8], at: usize, before: u8) -> Result<Head, Fault>
    ensures { head_told result ≡ head_of file.now at before }
{
    let left = file.len().saturating_sub(at);
    if left < 3 {
        return Err(Fault::CutOff);
    }
    let size = two_at(file, at + 1);
    if left - 3 < size as usize {
        return Err(Fault::CutOff);
    }
    let tag = file[at];
    if !is_tag(tag) {
        return Err(Fault::UnknownTag);
    }
    if tag < before || tag == before && comes_once(tag) {
        return Err(Fault::TagOrder);
    }
    if !length_allowed(tag, size) {
        return Err(Fault::FieldLength);
    }
    Ok(Head { tag, size })
}
