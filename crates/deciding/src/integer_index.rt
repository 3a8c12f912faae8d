ghost use Rattle.deciding.specs.Index.{IntegerIndex};

// The whole number from 0 that a number's 64 bits stand for, if 32 bits hold it. −0 is 0.
pub(crate) fn to_integer_index(bits: u64) -> Option<u32>
    ensures { IntegerIndex bits result }
{
    if bits == 0 || bits == NEGATIVE_ZERO {
        return Some(0);
    }
    let exponent = bits / FRACTIONS;
    if exponent < EXPONENT_OF_ONE || exponent >= EXPONENT_OF_FRACTIONS {
        return None;
    }
    let significand = FRACTIONS + bits % FRACTIONS;
    let one = 1u64 << (EXPONENT_OF_FRACTIONS - exponent);
    if significand % one != 0 {
        return None;
    }
    u32::try_from(significand / one).ok()
}

const NEGATIVE_ZERO: u64 = 1 << 63;

// How many fractions there are to each exponent, 2 ^ 52.
const FRACTIONS: u64 = 1 << 52;

// The exponent's field of 1, and of 2 ^ 52. A sign, which is the field's next bit, makes it greater.
const EXPONENT_OF_ONE: u64 = 1023;

const EXPONENT_OF_FRACTIONS: u64 = 1075;
