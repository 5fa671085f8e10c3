// The instruction of a name, found in the rows of `names`.
ghost use Rattle.std.specs.Prelude.{◌≡◌, ◌≤◌};
ghost use Rattle.std.proofs.Math.Option.{none};
ghost use Rattle.isa.specs.Found.{found};
ghost use Rattle.names.specs.Rows.{rows};
ghost use Rattle.expression.specs.Label.{same};
ghost use Rattle.statement.specs.Mnemonic.{named as Mnemonic·named};
ghost use Rattle.statement.specs.Rows.{row_template, row_name, tried as Rows·tried, in_rows};

use isa::{Instruction, template_of};
use names::{NameRow, table};

// With a letter behind the name or without: two passes by a flag, since `in_rows` of the definitions goes by the same one.

// The instruction of a row: of I, where the row is one of R and I has words of its operation, or of the row's own format.
fn template_in(immediate: bool, row: NameRow) -> Option<Instruction>
    ensures { found result ≡ row_template immediate row }
{
    if !immediate {
        template_of(row.0, row.1)
    } else if row.0 == 0 {
        template_of(1, row.1)
    } else {
        None
    }
}

// Whether a word is a row's name, with the letter of I behind it or without.
fn is_named(immediate: bool, row: NameRow, word: &[u8]) -> bool
    requires { row.2 ≤ 16 }
    ensures { result ≡ same (row_name immediate row) word.now }
{
    // by parts: of a row that is copied whole, the length is read from memory just written, for which a processor waits
    let NameRow(_, _, len, bytes) = row;
    let name = &bytes[..len];
    if !immediate {
        return name == word;
    }
    let [stem @ .., last] = word else {
        return false;
    };
    (*last == b'i') & (name == stem)
}

// The instruction of a row, if a word is its name.
fn tried(immediate: bool, row: NameRow, word: &[u8]) -> Option<Instruction>
    requires { row.2 ≤ 16 }
    ensures { found result ≡ Rows·tried immediate row word.now none }
{
    if is_named(immediate, row, word) {
        template_in(immediate, row)
    } else {
        None
    }
}

// The instruction of the first row that a word is the name of.
fn first_named(immediate: bool, word: &[u8]) -> Option<Instruction>
    ensures { found result ≡ in_rows immediate rows word.now none }
{
    let rows = table();
    for row in rows {
        if let Some(i) = tried(immediate, row, word) {
            return Some(i);
        }
    }
    None
}

// The instruction of a name.
pub fn named(word: &[u8]) -> Option<Instruction>
    ensures { found result ≡ Mnemonic·named word.now }
{
    if let Some(i) = first_named(false, word) {
        return Some(i);
    }
    first_named(true, word)
}
