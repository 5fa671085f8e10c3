// A program assembled from its text.
ghost use Rattle.std.specs.Prelude.{◌≡◌};
ghost use Rattle.capi_assembler.specs.Calls.{took, assemble_call};

// Assembles a source; the result is its words, and the line that is refused.
#[tactic(auto, unfolding(crate::specs::Calls::assemble_call))]
pub fn korvammel_assemble(source: &[u8], program: &mut [u32], res: &mut [usize; 2]) -> u32
    ensures { took result res.new program.new ≡ assemble_call source.now program.old }
{
    match assembler::assemble(source, program) {
        Ok(count) => {
            *res = [count, 0];
            0
        }
        Err(refused) => {
            *res = [0, refused.line];
            u32::from(refused.refusal.number())
        }
    }
}
