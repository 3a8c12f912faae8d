ghost use Rattle.std.specs.Prelude.{◌≡◌};

use super::value_type::ValueType;

// What a host says of one node.
#[derive(Clone, Copy, Debug, PartialEq, Eq)]
pub struct Row {
    pub effects: bool,
    pub global: bool,
    pub value_type: ValueType,
}

// A row's byte has a bit for effects, one for a global name, and the number of its type in the others.
const EFFECTS: u8 = 0x80;

const GLOBAL: u8 = 0x40;

const NUMBER: u8 = 0x3F;

impl Row {
    ghost use Rattle.host.specs.Row.{row_of};

    // What is said where nothing is known.
    pub const SILENT: Row = Row {
        effects: true,
        global: false,
        value_type: ValueType::Undetermined,
    };

    // The row that the byte spells, if it spells one.
    #[tactic(auto, using(crate::proofs::Bits::effects_bit, crate::proofs::Bits::global_bit, crate::proofs::Bits::number_bits))]
    pub fn from_byte(byte: u8) -> Option<Row>
        ensures { result ≡ row_of byte }
    {
        let value_type = ValueType::from_number(byte & NUMBER)?;
        Some(Row {
            effects: byte & EFFECTS != 0,
            global: byte & GLOBAL != 0,
            value_type,
        })
    }
}
