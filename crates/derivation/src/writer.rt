// The writer: the bytes of a derivation, put into a buffer that the caller lends.
ghost use Rattle.std.specs.Prelude.{◌≡◌, ◌≤◌, ℕ, List, length};
ghost use Rattle.std.specs.List.{flat_map};
ghost use Rattle.derivation.specs.Format.{encode, row_bytes, type_bytes};
ghost use Rattle.derivation.specs.Written.{put_front, write_after, write_answer};

use crate::rows::{Row, Rule};
use crate::types::{TypeEntry, TypeKind};
use basics::refusal::Refusal;

// Puts bytes at the front of the buffer, and answers their number.
fn put_bytes(bytes: &[u8], buffer: &mut [u8]) -> usize
    requires { length bytes.now ≤ length buffer.old }
    ensures after { buffer.new ≡ put_front buffer.old bytes.now }
    ensures len { result ≡ length bytes.now }
{
    buffer[..bytes.len()].copy_from_slice(bytes);
    bytes.len()
}

// An item that is written as a record.
trait ToBytes {
    ghost bytes_of: { Self → List ℕ };

    // Puts the record at the front of the buffer, and answers its length.
    fn put(&self, buffer: &mut [u8]) -> usize
        requires { length (bytes_of self.now) ≤ length buffer.old }
        ensures after { buffer.new ≡ put_front buffer.old (bytes_of self.now) }
        ensures len { result ≡ length (bytes_of self.now) };
}

impl ToBytes for TypeEntry {
    ghost bytes_of = { type_bytes };

    fn put(&self, buffer: &mut [u8]) -> usize {
        let (left, right) = (self.left.0, self.right.0);
        match self.kind {
            TypeKind::Arrow => put_bytes(&[3, 1, left, right], buffer),
            TypeKind::Pair => put_bytes(&[3, 2, left, right], buffer),
        }
    }
}

impl ToBytes for Row {
    ghost bytes_of = { row_bytes };

    fn put(&self, buffer: &mut [u8]) -> usize {
        let ty = self.ty.0;
        match self.rule {
            Rule::Variable => put_bytes(&[2, 1, ty], buffer),
            Rule::Zero => put_bytes(&[2, 2, ty], buffer),
            Rule::One => put_bytes(&[2, 3, ty], buffer),
            Rule::Gate(gate) => put_bytes(&[3, 4, ty, gate.code()], buffer),
            Rule::Lambda { premise, x } => put_bytes(&[4, 5, ty, premise.0, x.0], buffer),
            Rule::PairLambda { premise, x, y } => {
                put_bytes(&[5, 6, ty, premise.0, x.0, y.0], buffer)
            }
            Rule::Apply { function, argument } => {
                put_bytes(&[4, 7, ty, function.0, argument.0], buffer)
            }
            Rule::Pair { left, right } => put_bytes(&[4, 8, ty, left.0, right.0], buffer),
        }
    }
}

// Puts the records of items at the front of the buffer, and answers their length.
fn put_all<T: ToBytes>(items: &[T], buffer: &mut [u8]) -> usize
    requires { length (flat_map T.bytes_of items.now) ≤ length buffer.old }
    ensures after { buffer.new ≡ put_front buffer.old (flat_map T.bytes_of items.now) }
    ensures len { result ≡ length (flat_map T.bytes_of items.now) }
{
    let mut at = 0;
    for item in items {
        at += item.put(&mut buffer[at..]);
    }
    at
}

// How many bytes a row's record has.
fn row_len(row: &Row) -> usize
    ensures { result ≡ length (row_bytes row.now) }
{
    match row.rule {
        Rule::Variable | Rule::Zero | Rule::One => 3,
        Rule::Gate(_) => 4,
        Rule::Lambda { .. } | Rule::Apply { .. } | Rule::Pair { .. } => 5,
        Rule::PairLambda { .. } => 6,
    }
}

// Types and rows that are few enough to be written.
#[derive(Clone, Copy)]
pub(crate) struct Encoding<'a> {
    pub(crate) types: &'a [TypeEntry],
    pub(crate) rows: &'a [Row],
    ghost few_types: { length types.now ≤ 64 },
    ghost few_rows: { length rows.now ≤ 128 },
}

impl Encoding<'_> {
    // How many bytes they have.
    fn len(&self) -> usize
        ensures { result ≡ length (encode self.now.types.now self.now.rows.now) }
    {
        5 + 4 * self.types.len() + self.rows.iter().map(row_len).sum::<usize>()
    }

    // Fills the front of the buffer with their bytes, and answers the number of these.
    pub(crate) fn write(&self, buffer: &mut [u8]) -> Result<usize, Refusal>
        ensures answer { result ≡ write_answer self.now.types.now self.now.rows.now (length buffer.old) }
        ensures after { buffer.new ≡ write_after self.now.types.now self.now.rows.now buffer.old }
    {
        let len = self.len();
        if len > buffer.len() {
            return Err(Refusal::BufferTooShort(len));
        }
        let [high, low] = (len as u16).to_be_bytes();
        let header = [1, high, low, self.types.len() as u8, self.rows.len() as u8];
        let mut at = put_bytes(&header, buffer);
        at += put_all(self.types, &mut buffer[at..]);
        at += put_all(self.rows, &mut buffer[at..]);
        Ok(at)
    }
}
