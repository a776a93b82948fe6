// Records of a model file, "File" of the specification: the table of kinds, the record step, the places of a file and the order of
// kinds.
//
// No public function has a `requires`: any bytes, any offset, any kind gets its answer. How many records a part has so far, and what a
// body may hold, is the reader's.
#![tactic(auto)]

pub mod kinds;
pub mod order;
pub mod places;

ghost use Rattle.records.specs.Records.{RecordStep};

use kinds::kind_layout;

// Why no whole record stands at an offset: no byte is left; the file's end cuts off the body of this kind; or the kind is unknown.
#[derive(Clone, Copy, Debug, PartialEq, Eq)]
pub enum NoRecord {
    Nothing,
    Short(u8),
    Unknown(u8),
}

// Routines 12. The record whose kind byte is at the offset `at`: its kind, and its body, which lies in the file.
pub fn record_at(file: &[u8], at: usize) -> Result<(u8, &[u8]), NoRecord>
    ensures { RecordStep file.entry at result }
{
    let Some(&kind) = file.get(at) else {
        return Err(NoRecord::Nothing);
    };
    let Some(layout) = kind_layout(kind) else {
        return Err(NoRecord::Unknown(kind));
    };
    let start = at + 1;
    if file.len() - start < layout.length {
        return Err(NoRecord::Short(kind));
    }
    Ok((kind, &file[start..start + layout.length]))
}
