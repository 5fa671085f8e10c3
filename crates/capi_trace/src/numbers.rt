// Rows as numbers in a lent list: thread, address, word, and the status with what it carries.
ghost use Rattle.std.specs.Prelude.{◌+◌, ◌<◌, ◌^◌, ◌≡◌, length, set};
ghost use Rattle.capi_trace.specs.Numbers.{status_numbers, numbers_of, put_all, put_row, put_rows};

use thread_entry::Status;
use trace::Row;

// Numbers that a row takes.
pub const ROW_NUMBERS: usize = 7;

fn put_number(numbers: &mut [u32], at: usize, number: u32)
    ensures { numbers.new ≡ set numbers.old at number }
{
    // By index: behind a `get_mut` the check knows nothing of the list's other numbers.
    if at < numbers.len() {
        numbers[at] = number;
    }
}

// A status and what it carries.
fn status_numbers(status: Status) -> [u32; 4]
    ensures { (result ≡ status_numbers status) × (length result ≡ 4) }
{
    match status {
        Status::Idle => [0, 0, 0, 0],
        Status::Running => [1, 0, 0, 0],
        Status::Ended => [2, 0, 0, 0],
        Status::Trapped(reason) => [3, reason as u32, 0, 0],
        Status::Waiting(id, count) => [4, 0, id as u32, count as u32],
    }
}

#[tactic(auto, unfolding(crate::specs::Numbers::numbers_of))]
fn numbers_of(row: Row) -> [u32; ROW_NUMBERS]
    ensures { (result ≡ numbers_of row) × (length result ≡ 7) }
{
    let [status, reason, id, count] = status_numbers(row.status);
    [
        row.thread as u32,
        row.address,
        row.word,
        status,
        reason,
        id,
        count,
    ]
}

#[tactic(auto, unfolding(crate::specs::Numbers::put_all))]
fn put_numbers(numbers: &mut [u32], place: usize, row: [u32; ROW_NUMBERS])
    requires { place < 2 ^ 40 }
    ensures { numbers.new ≡ put_all numbers.old place row }
{
    for (i, number) in row.iter().enumerate() {
        put_number(numbers, place + i, *number);
    }
}

// Puts the numbers of a row in its place.
#[tactic(auto, unfolding(crate::specs::Numbers::put_row))]
fn put_row(numbers: &mut [u32], at: u32, row: Row)
    ensures { numbers.new ≡ put_row numbers.old at row }
{
    put_numbers(numbers, ROW_NUMBERS * at as usize, numbers_of(row));
}

// Puts the rows of a page, from a row's place on. A call of its own, so that what it keeps on the stack is not there below a run.
#[inline(never)]
#[tactic(auto, unfolding(crate::specs::Numbers::put_rows))]
pub fn put_page(numbers: &mut [u32], at: u32, rows: &[Row])
    requires { at + length rows.now < 2 ^ 32 }
    ensures { numbers.new ≡ put_rows numbers.old at rows.now }
{
    for (i, row) in rows.iter().enumerate() {
        put_row(numbers, at + i as u32, *row);
    }
}
