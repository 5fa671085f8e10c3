// The layout of an image: a table of record kinds, and the fixed places that follow from it.
ghost use Rattle.std.specs.Prelude.{◌≡◌};
ghost use Rattle.image_layout.specs.Layout.{fixed_of, form_of, thread_row, row_of, kind_at, order_of, head_length, record_size, extent_of, start_of, body_place};

use answer::{BLOCK_RECORD, FIXED_PART, OLD_FIXED_PART};

// The kinds of records, in their order in the image. Ti is TH in the old form.
#[derive(Clone, Copy, PartialEq, Eq, Debug)]
pub enum Kind {
    Hd,
    Ti,
    Sr,
    Vr,
    Mm,
}

// The place numbers behind a record's mark.
#[derive(Clone, Copy, PartialEq, Eq, Debug)]
pub enum Places {
    Nothing,
    ByThread,
    ByRegister,
    ByBlock,
}

// The forms of an image: the newest, and the one that holds no counts of turns.
#[derive(Clone, Copy, PartialEq, Eq, Debug)]
pub enum Form {
    Newest,
    Old,
}

// What the layout goes by: the form, and the 64-byte blocks of memory.
#[derive(Clone, Copy, PartialEq, Eq, Debug)]
pub struct Shape {
    pub form: Form,
    pub blocks: u16,
}

// A kind's mark, its place numbers, how many records there are, and the bytes behind the place numbers of one.
#[derive(Clone, Copy, PartialEq, Eq, Debug)]
pub struct RecordRow {
    pub first: u8,
    pub second: u8,
    pub places: Places,
    pub count: usize,
    pub size: u16,
}

// Their order in the image.
const ORDER: [Kind; 5] = [Kind::Hd, Kind::Ti, Kind::Sr, Kind::Vr, Kind::Mm];

// How many kinds there are.
pub const KINDS: usize = ORDER.len();

// The first of them, which hold the machine record.
pub const RECORD_KINDS: usize = 2;

// The kind at a position; the first where there is no such position.
pub fn kind_at(position: usize) -> Kind
    ensures { result ≡ kind_at position }
{
    ORDER.get(position).copied().unwrap_or(Kind::Hd)
}

// The position of a kind.
fn order_of(kind: Kind) -> usize
    ensures { result ≡ order_of kind }
{
    kind as usize
}

// The fixed part of the length of a form's image.
pub fn fixed_part(form: Form) -> u32
    ensures { result ≡ fixed_of form }
{
    match form {
        Form::Newest => FIXED_PART,
        Form::Old => OLD_FIXED_PART,
    }
}

// The form of an image of so many bytes, if any has so many.
pub fn form_of(size: usize) -> Form
    ensures { result ≡ form_of size }
{
    if size % BLOCK_RECORD == OLD_FIXED_PART as usize % BLOCK_RECORD {
        Form::Old
    } else {
        Form::Newest
    }
}

// The row of a thread's entry.
pub fn thread_row(form: Form) -> RecordRow
    ensures { result ≡ thread_row form }
{
    match form {
        Form::Newest => row_with(b'T', b'I', Places::ByThread, 8, 8),
        Form::Old => row_with(b'T', b'H', Places::ByThread, 8, 4),
    }
}

// The table.
pub fn row_of(shape: Shape, kind: Kind) -> RecordRow
    ensures { result ≡ row_of shape kind }
{
    match kind {
        Kind::Hd => row_with(b'H', b'D', Places::Nothing, 1, 2),
        Kind::Ti => thread_row(shape.form),
        Kind::Sr => row_with(b'S', b'R', Places::ByThread, 8, 256),
        Kind::Vr => row_with(b'V', b'R', Places::ByRegister, 512, 64),
        Kind::Mm => row_with(b'M', b'M', Places::ByBlock, shape.blocks as usize, 64),
    }
}

// A row by its columns.
fn row_with(first: u8, second: u8, places: Places, count: usize, size: u16) -> RecordRow
    ensures { result ≡ record { first = first; second = second; places = places; count = count; size = size } }
{
    RecordRow {
        first,
        second,
        places,
        count,
        size,
    }
}

// How many records the kind at a position has. They are looked up in an array by the position, and not in the table by the kind: there the
// compiler sees which are eight, and unrolls the loops over them.
pub fn count_at(shape: Shape, position: usize) -> usize
    ensures { result ≡ (row_of shape (kind_at position)).count }
{
    let counts = ORDER.map(|kind| row_of(shape, kind).count);
    counts.get(position).copied().unwrap_or(counts[0])
}

// The bytes of a mark and place numbers.
pub fn head_length(places: Places) -> usize
    ensures { result ≡ head_length places }
{
    match places {
        Places::Nothing => 2,
        Places::ByThread => 3,
        Places::ByRegister | Places::ByBlock => 4,
    }
}

// The bytes of a record.
pub fn record_size(row: RecordRow) -> usize
    ensures { result ≡ record_size row }
{
    head_length(row.places) + row.size as usize
}

// The bytes of all records of a kind.
pub fn extent_of(shape: Shape, kind: Kind) -> usize
    ensures { result ≡ extent_of (row_of shape kind) }
{
    let row = row_of(shape, kind);
    record_size(row) * row.count
}

// Where a kind begins.
fn start_of(shape: Shape, kind: Kind) -> usize
    ensures { result ≡ start_of shape (order_of kind) }
{
    let mut at: usize = 0;
    for before in &ORDER[..order_of(kind)] {
        at += extent_of(shape, *before);
    }
    at
}

// Where the body of a kind's first record begins; the next bodies follow a record apart.
pub fn first_body(shape: Shape, kind: Kind) -> usize
    ensures { result ≡ body_place (row_of shape kind) (start_of shape (order_of kind)) 0 }
{
    start_of(shape, kind) + head_length(row_of(shape, kind).places)
}
