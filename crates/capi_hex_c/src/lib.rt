// Exports the C library's calls on Intel HEX to C: each export is the call of crate capi_hex of its name.
#![tactic(auto)]

ghost use Rattle.std.specs.Prelude.{◌≡◌};
ghost use Rattle.capi_hex.specs.Calls.{export_call, gave, import_call, took};

// Imports a text's program; the result is its words, and the line that is refused.
#[unsafe(no_mangle)]
pub extern "C" fn korvammel_hex_import(
    text: &[u8],
    program: &mut [u32],
    res: &mut [usize; 2],
) -> u32
    ensures { took result res.new program.new ≡ import_call text.now program.old }
{
    capi_hex::korvammel_hex_import(text, program, res)
}

// Exports a program into a text, and puts the length of the text.
#[unsafe(no_mangle)]
pub extern "C" fn korvammel_hex_export(program: &[u32], text: &mut [u8], length: &mut usize) -> u32
    ensures { gave result length.new text.new ≡ export_call program.now text.old length.old }
{
    capi_hex::korvammel_hex_export(program, text, length)
}
