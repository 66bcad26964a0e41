// A slow reference of the frames of requests: the bytes of a stream as one list, read by a table of
// the ops. It stands on nothing of the engine.
use std::alloc::Global;
use std::process::Abort;

/// The most bytes that a length counts.
const LENGTH_MAX: u64 = 70_000;

/// What a field is.
#[derive(Clone, Copy)]
pub enum Field {
    U8,
    U32,
    U64,
    I32,
    I64,
    /// A count of two bytes, and as many bytes.
    Text,
    /// A count of four bytes, and as many bytes.
    Block,
}

/// Each op with its fields in their order.
const OPS: [(u8, &[Field]); 26] = [
    (1, &[Field::Text]),
    (2, &[Field::Text]),
    (3, &[Field::U32, Field::Text]),
    (4, &[Field::U32, Field::U32, Field::Text]),
    (5, &[Field::Text, Field::Text, Field::Text]),
    (6, &[Field::Text, Field::Text]),
    (7, &[Field::Text, Field::Text]),
    (8, &[Field::Text]),
    (9, &[Field::U32, Field::Text]),
    (10, &[Field::Text, Field::Text]),
    (11, &[Field::U8, Field::U32, Field::Text]),
    (12, &[Field::Text]),
    (13, &[Field::Text]),
    (14, &[Field::Text, Field::Text]),
    (15, &[Field::Text, Field::Text]),
    (16, &[Field::U32, Field::U32]),
    (17, &[Field::U32, Field::Block]),
    (18, &[Field::U32, Field::I64, Field::U8]),
    (19, &[Field::U32, Field::U64]),
    (20, &[Field::U32]),
    (21, &[Field::U32, Field::U32]),
    (22, &[Field::U32]),
    (23, &[Field::U8, Field::U32, Field::Text]),
    (24, &[Field::I32]),
    (25, &[Field::U32]),
    (26, &[]),
];

/// The fields of an op in their order; none where no call has the op.
pub fn fields_of(op: u8) -> Option<&'static [Field]> {
    for (known, fields) in OPS {
        if known == op {
            return Some(fields);
        }
    }
    None
}

/// A request: its op, and the values of its fields. The texts of each op follow its numbers.
#[derive(Drop, PartialEq, Eq)]
pub struct Asked {
    pub op: u8,
    pub numbers: Vec<i128>,
    pub texts: Vec<Vec<u8>>,
}

/// How a stream ends.
#[derive(Clone, Copy, PartialEq, Eq)]
pub enum StreamEnd {
    /// Where a frame would begin.
    Whole,
    /// Inside a frame.
    Cut,
    BadLength,
    BadOp,
    BadFields,
}

/// What a stream asks before it ends, and how it ends.
#[derive(Drop)]
pub struct Stream {
    pub asked: Vec<Asked>,
    pub end: StreamEnd,
}

// The number of the first bytes, eight at most, and the bytes behind them; none where there are
// too few.
fn number_at(width: usize, bytes: &[u8]) -> Option<(u64, &[u8])> {
    if bytes.len() < width {
        return None;
    }
    let (front, rest) = bytes.split_at(width);
    let mut number = 0u64;
    for byte in front {
        number = number.wrapping_mul(256).wrapping_add(u64::from(*byte));
    }
    Some((number, rest))
}

// A number in two's complement, of which the first one that stands for a negative number is given.
fn signed(number: u64, first_negative: u64) -> i128 {
    let value = i128::from(number);
    if number < first_negative {
        value
    } else {
        value - 2 * i128::from(first_negative)
    }
}

// Adds the value of the field at the front of the bytes. What follows it; none where the bytes are
// too few.
fn read_field<'b>(
    rt: &impl Abort,
    alloc: Global,
    asked: &mut Asked,
    field: Field,
    bytes: &'b [u8],
) -> Option<&'b [u8]> {
    let width = match field {
        Field::U8 => 1,
        Field::Text => 2,
        Field::U32 | Field::I32 | Field::Block => 4,
        Field::U64 | Field::I64 => 8,
    };
    let (number, rest) = number_at(width, bytes)?;
    let number = match field {
        Field::U8 | Field::U32 | Field::U64 => i128::from(number),
        Field::I32 => signed(number, 1 << 31),
        Field::I64 => signed(number, 1 << 63),
        Field::Text | Field::Block => return read_counted(rt, alloc, asked, number, rest),
    };
    asked.numbers.push(number).expect(rt, "memory");
    Some(rest)
}

// Adds so many bytes. What follows them; none where there are too few.
fn read_counted<'b>(
    rt: &impl Abort,
    alloc: Global,
    asked: &mut Asked,
    count: u64,
    bytes: &'b [u8],
) -> Option<&'b [u8]> {
    if (bytes.len() as u64) < count {
        return None;
    }
    let (text, rest) = bytes.split_at(count as usize);
    let text = Vec::from_slice(alloc, text).expect(rt, "memory");
    asked.texts.push(text).expect(rt, "memory");
    Some(rest)
}

// The request of the bytes that a length counts, or their fault.
fn request_of(rt: &impl Abort, alloc: Global, frame: &[u8]) -> Result<Asked, StreamEnd> {
    let [op, fields @ ..] = frame else {
        return Err(StreamEnd::BadLength);
    };
    let Some(kinds) = fields_of(*op) else {
        return Err(StreamEnd::BadOp);
    };
    let mut asked = Asked {
        op: *op,
        numbers: Vec::new(alloc),
        texts: Vec::new(alloc),
    };
    let mut rest = fields;
    for field in kinds {
        match read_field(rt, alloc, &mut asked, *field, rest) {
            Some(behind) => rest = behind,
            None => return Err(StreamEnd::BadFields),
        }
    }
    if rest.is_empty() {
        Ok(asked)
    } else {
        Err(StreamEnd::BadFields)
    }
}

// The bytes that the first length counts, and what follows them.
fn first_frame(bytes: &[u8]) -> Result<(&[u8], &[u8]), StreamEnd> {
    let Some((length, rest)) = number_at(4, bytes) else {
        return Err(StreamEnd::Cut);
    };
    if length == 0 || length > LENGTH_MAX {
        return Err(StreamEnd::BadLength);
    }
    if (rest.len() as u64) < length {
        return Err(StreamEnd::Cut);
    }
    Ok(rest.split_at(length as usize))
}

/// Reads all bytes of a stream. There are fewer frames than bytes.
pub fn read_stream(rt: &impl Abort, alloc: Global, bytes: &[u8]) -> Stream {
    let mut asked = Vec::new(alloc);
    let mut rest = bytes;
    for _ in 0..bytes.len() {
        if rest.is_empty() {
            break;
        }
        match next_request(rt, alloc, rest) {
            Ok((request, behind)) => {
                asked.push(request).expect(rt, "memory");
                rest = behind;
            }
            Err(end) => return Stream { asked, end },
        }
    }
    Stream {
        asked,
        end: StreamEnd::Whole,
    }
}

// The request of the first frame, and what follows it.
fn next_request<'b>(
    rt: &impl Abort,
    alloc: Global,
    bytes: &'b [u8],
) -> Result<(Asked, &'b [u8]), StreamEnd> {
    let (frame, behind) = first_frame(bytes)?;
    let request = request_of(rt, alloc, frame)?;
    Ok((request, behind))
}
