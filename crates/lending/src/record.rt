// The records of nodes, as a file has them.
ghost use Rattle.std.specs.Prelude.{◌≡◌, ◌*◌, ◌≤◌, length};
ghost use Rattle.file.specs.Format.{record_at, record_of, row, flag_of_boolean, flag_of_unary, flag_of_binary, flag_of_first};
ghost use Rattle.lending.specs.Lending.{Recorded};

use base::append;
use tree::{BinaryOperator, FirstChild, Node, UnaryOperator};

// The bytes of a record.
pub const RECORD: usize = 20;

// How many words of 32 bits there are.
const WORDS: u64 = 0x1_0000_0000;

// Writes the records of the nodes to the front of the memory, one behind the other.
pub(crate) fn write_records(nodes: &[Node], memory: &mut [u8])
    requires { 20 * length nodes.now ≤ length memory.old }
    ensures { Recorded nodes.now memory.old memory.new }
{
    let mut end = 0;
    for &node in nodes {
        end = append(memory, end, &record_of(node)).unwrap();
    }
}

// The record of a node. What a kind does not use is 0.
fn record_of(node: Node) -> [u8; RECORD]
    ensures { record_at result 0 ≡ record_of node }
{
    match node {
        Node::String(text) => row(1, 0, text.start, text.len, 0, 0),
        Node::Number(bits) => row(2, 0, (bits % WORDS) as u32, (bits / WORDS) as u32, 0, 0),
        Node::Boolean(value) => row(3, u8::from(value), 0, 0, 0, 0),
        Node::Null => row(4, 0, 0, 0, 0, 0),
        Node::Name(text) => row(5, 0, text.start, text.len, 0, 0),
        Node::Hole => row(6, 0, 0, 0, 0, 0),
        Node::Spread(operand) => row(7, 0, operand, 0, 0, 0),
        Node::Array(list) => row(8, 0, list.start, list.len, 0, 0),
        Node::StaticMember { object, name } => row(9, 0, object, name.start, name.len, 0),
        Node::ComputedMember { object, key } => row(10, 0, object, key, 0, 0),
        Node::Call { callee, arguments } => row(11, 0, callee, arguments.start, arguments.len, 0),
        Node::Template(list) => row(12, 0, list.start, list.len, 0, 0),
        Node::Quasi { raw, cooked } => row(13, 0, raw.start, raw.len, cooked.start, cooked.len),
        Node::Unary { operator, operand } => row(14, flag_of_unary(operator), operand, 0, 0, 0),
        Node::Binary {
            operator,
            left,
            right,
        } => row(15, flag_of_binary(operator), left, right, 0, 0),
        Node::Opaque {
            children,
            mark,
            first,
        } => row(
            16,
            flag_of_first(first),
            children.start,
            children.len,
            mark,
            0,
        ),
    }
}

fn flag_of_unary(operator: UnaryOperator) -> u8
    ensures { result ≡ flag_of_unary operator }
{
    match operator {
        UnaryOperator::Plus => 0,
        UnaryOperator::Minus => 1,
        UnaryOperator::Void => 2,
    }
}

fn flag_of_binary(operator: BinaryOperator) -> u8
    ensures { result ≡ flag_of_binary operator }
{
    match operator {
        BinaryOperator::Exponentiation => 0,
        BinaryOperator::Subtraction => 1,
        BinaryOperator::Division => 2,
    }
}

fn flag_of_first(first: FirstChild) -> u8
    ensures { result ≡ flag_of_first first }
{
    match first {
        FirstChild::Value => 0,
        FirstChild::Reference => 1,
    }
}

// A record by its kind, flag and words, each with its lowest byte first.
fn row(kind: u8, flag: u8, a: u32, b: u32, c: u32, d: u32) -> [u8; RECORD]
    ensures { record_at result 0 ≡ row kind flag a b c d }
{
    let [a0, a1, a2, a3] = a.to_le_bytes();
    let [b0, b1, b2, b3] = b.to_le_bytes();
    let [c0, c1, c2, c3] = c.to_le_bytes();
    let [d0, d1, d2, d3] = d.to_le_bytes();
    [
        kind, flag, 0, 0, a0, a1, a2, a3, b0, b1, b2, b3, c0, c1, c2, c3, d0, d1, d2, d3,
    ]
}
