// The record of a node, as the file has it.
ghost use Rattle.std.specs.Prelude.{◌≡◌, ◌≢◌, ℕ, ◌+◌, ◌≤◌, length, MatchOption};
ghost use Rattle.tree.specs.declared.node.Node.{Node};
ghost use Rattle.file.specs.Format.{word, record_at, record_of, flag_of_boolean, flag_of_unary, flag_of_binary, flag_of_first};
ghost use Rattle.file.specs.Decoding.{Decodes};

use tree::{BinaryOperator, FirstChild, ListRun, Node, TextRun, UnaryOperator};

// The bytes of a word, and of a record.
pub const WORD: usize = 4;

pub const RECORD: usize = 20;

#[derive(Clone, Copy)]
pub struct Record {
    pub kind: u8,
    pub flag: u8,
    pub zeros: u16,
    pub a: u32,
    pub b: u32,
    pub c: u32,
    pub d: u32,
}

// A record that is that of no node.
#[derive(Clone, Copy, Debug, PartialEq, Eq)]
pub struct UnknownRecord;

// The word of four bytes from `at` on, the lowest first.
pub(crate) fn word(bytes: &[u8], at: usize) -> u32
    requires { at + 4 ≤ length bytes.now }
    ensures { result ≡ word bytes.now at }
{
    u32::from_le_bytes([bytes[at], bytes[at + 1], bytes[at + 2], bytes[at + 3]])
}

impl From<&[u8; RECORD]> for Record {
    ghost from_gives = { λ bytes r. r ≡ record_at bytes.now 0 };

    fn from(bytes: &[u8; RECORD]) -> Record {
        Record {
            kind: bytes[0],
            flag: bytes[1],
            zeros: u16::from_le_bytes([bytes[2], bytes[3]]),
            a: word(bytes, 4),
            b: word(bytes, 8),
            c: word(bytes, 12),
            d: word(bytes, 16),
        }
    }
}

// A record is that of a node if it has a known kind and flag, and zero in all that the kind does not use.
impl TryFrom<Record> for Node {
    type Error = UnknownRecord;

    ghost try_from_gives = { Decodes };

    fn try_from(record: Record) -> Result<Node, UnknownRecord> {
        let node = match (record.zeros, record.kind) {
            (0, 1..=8) => record.simple(),
            (0, 9..=16) => record.compound(),
            _ => None,
        };
        node.ok_or(UnknownRecord)
    }
}

// The kinds in two halves, since one match of all is long.
impl Record {
    // Literals, names, holes, spreads and arrays.
    fn simple(self) -> Option<Node>
        requires { (self.zeros ≡ 0) × (self.kind ≤ 8) }
        ensures { MatchOption result ((n : Node) → record_of n ≢ self) (λ n. record_of n ≡ self) }
    {
        match (self.kind, self.flag, self.a, self.b, self.c, self.d) {
            (1, 0, start, len, 0, 0) => Some(Node::String(TextRun::new(start, len))),
            (2, 0, low, high, 0, 0) => Some(Node::Number(high as u64 * 0x1_0000_0000 + low as u64)),
            (3, flag, 0, 0, 0, 0) => Some(Node::Boolean(bool::from_flag(flag)?)),
            (4, 0, 0, 0, 0, 0) => Some(Node::Null),
            (5, 0, start, len, 0, 0) => Some(Node::Name(TextRun::new(start, len))),
            (6, 0, 0, 0, 0, 0) => Some(Node::Hole),
            (7, 0, operand, 0, 0, 0) => Some(Node::Spread(operand)),
            (8, 0, start, len, 0, 0) => Some(Node::Array(ListRun::new(start, len))),
            _ => None,
        }
    }

    // Members, calls, templates, operators and opaque nodes.
    fn compound(self) -> Option<Node>
        requires { (self.zeros ≡ 0) × (9 ≤ self.kind) }
        ensures { MatchOption result ((n : Node) → record_of n ≢ self) (λ n. record_of n ≡ self) }
    {
        match (self.kind, self.flag, self.a, self.b, self.c, self.d) {
            (9, 0, object, start, len, 0) => Some(Node::StaticMember {
                object,
                name: TextRun::new(start, len),
            }),
            (10, 0, object, key, 0, 0) => Some(Node::ComputedMember { object, key }),
            (11, 0, callee, start, len, 0) => Some(Node::Call {
                callee,
                arguments: ListRun::new(start, len),
            }),
            (12, 0, start, len, 0, 0) => Some(Node::Template(ListRun::new(start, len))),
            (13, 0, a, b, c, d) => Some(Node::Quasi {
                raw: TextRun::new(a, b),
                cooked: TextRun::new(c, d),
            }),
            (14, flag, operand, 0, 0, 0) => Some(Node::Unary {
                operator: UnaryOperator::from_flag(flag)?,
                operand,
            }),
            (15, flag, left, right, 0, 0) => Some(Node::Binary {
                operator: BinaryOperator::from_flag(flag)?,
                left,
                right,
            }),
            (16, flag, start, len, mark, 0) => Some(Node::Opaque {
                children: ListRun::new(start, len),
                mark,
                first: FirstChild::from_flag(flag)?,
            }),
            _ => None,
        }
    }
}

// What the flag of a record stands for.
trait Flag: Sized {
    ghost flag_of: { Self → ℕ };

    // The value with this flag, if there is one.
    fn from_flag(flag: u8) -> Option<Self>
        ensures { MatchOption result ((value : Self) → flag_of value ≢ flag) (λ value. flag_of value ≡ flag) };
}

impl Flag for bool {
    ghost flag_of = { flag_of_boolean };

    fn from_flag(flag: u8) -> Option<bool> {
        match flag {
            0 => Some(false),
            1 => Some(true),
            _ => None,
        }
    }
}

impl Flag for UnaryOperator {
    ghost flag_of = { flag_of_unary };

    fn from_flag(flag: u8) -> Option<UnaryOperator> {
        match flag {
            0 => Some(UnaryOperator::Plus),
            1 => Some(UnaryOperator::Minus),
            2 => Some(UnaryOperator::Void),
            _ => None,
        }
    }
}

impl Flag for BinaryOperator {
    ghost flag_of = { flag_of_binary };

    fn from_flag(flag: u8) -> Option<BinaryOperator> {
        match flag {
            0 => Some(BinaryOperator::Exponentiation),
            1 => Some(BinaryOperator::Subtraction),
            2 => Some(BinaryOperator::Division),
            _ => None,
        }
    }
}

// What an opaque node does with its first child.
impl Flag for FirstChild {
    ghost flag_of = { flag_of_first };

    fn from_flag(flag: u8) -> Option<FirstChild> {
        match flag {
            0 => Some(FirstChild::Value),
            1 => Some(FirstChild::Reference),
            _ => None,
        }
    }
}
