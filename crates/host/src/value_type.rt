ghost use Rattle.std.specs.Prelude.{◌≡◌};
ghost use Rattle.std.specs.List.{slice_get};

// The type of each value that a node's run ends with, or that nothing is known of it.
#[derive(Clone, Copy, Debug, PartialEq, Eq)]
pub enum ValueType {
    Undetermined,
    Undefined,
    Null,
    Number,
    BigInt,
    String,
    Boolean,
    Object,
}

impl ValueType {
    ghost use Rattle.host.specs.ValueType.{types};

    // The type with this number in a row, if there is one.
    pub fn from_number(number: u8) -> Option<ValueType>
        ensures { result ≡ slice_get types number }
    {
        match number {
            0 => Some(ValueType::Undetermined),
            1 => Some(ValueType::Undefined),
            2 => Some(ValueType::Null),
            3 => Some(ValueType::Number),
            4 => Some(ValueType::BigInt),
            5 => Some(ValueType::String),
            6 => Some(ValueType::Boolean),
            7 => Some(ValueType::Object),
            _ => None,
        }
    }
}
