// A program imported from Intel HEX and exported into it.
ghost use Rattle.std.specs.Prelude.{◌≡◌};
ghost use Rattle.capi_hex.specs.Calls.{took, import_call, gave, export_call};

use answer::RefusedLine;

// Imports a text's program; the result is its words, and the line that is refused.
#[tactic(auto, unfolding(crate::specs::Calls::import_call))]
pub fn korvammel_hex_import(text: &[u8], program: &mut [u32], res: &mut [usize; 2]) -> u32
    ensures { took result res.new program.new ≡ import_call text.now program.old }
{
    match intel_hex::import(text, program) {
        Ok(count) => {
            *res = [count, 0];
            0
        }
        Err(RefusedLine { refusal, line }) => {
            *res = [0, line];
            u32::from(refusal.number())
        }
    }
}

// Exports a program into a text, and puts the length of the text.
#[tactic(auto, unfolding(crate::specs::Calls::export_call))]
pub fn korvammel_hex_export(program: &[u32], text: &mut [u8], length: &mut usize) -> u32
    ensures { gave result length.new text.new ≡ export_call program.now text.old length.old }
{
    match intel_hex::export(program, text) {
        Ok(n) => {
            *length = n;
            0
        }
        Err(refusal) => u32::from(refusal.number()),
    }
}
