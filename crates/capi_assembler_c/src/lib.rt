// Exports the C library's call on programs as text to C: the export is the call of crate capi_assembler of its name.
#![tactic(auto)]

ghost use Rattle.std.specs.Prelude.{◌≡◌};
ghost use Rattle.capi_assembler.specs.Calls.{assemble_call, took};

// Assembles a source; the result is its words, and the line that is refused.
#[unsafe(no_mangle)]
pub extern "C" fn korvammel_assemble(
    source: &[u8],
    program: &mut [u32],
    res: &mut [usize; 2],
) -> u32
    ensures { took result res.new program.new ≡ assemble_call source.now program.old }
{
    capi_assembler::korvammel_assemble(source, program, res)
}
