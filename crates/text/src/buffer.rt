// A lent buffer, written from a place on. The buffer and the place are no struct: each function that puts a line would have to promise,
// in a clause of its own, that such a struct still holds the same reference.
ghost use Rattle.std.specs.Prelude.{◌≡◌};
ghost use Rattle.text.specs.Buffer.{wrote, puts};

// Puts the bytes of a text at a place, and answers the place behind them; nothing where they have no room there.
pub fn put_text(out: &mut [u8], at: usize, text: &[u8]) -> usize
    ensures { wrote result out.new ≡ puts (wrote at out.old) text.now }
{
    if out.len() < text.len() || out.len() - text.len() < at {
        return at;
    }
    let end = at + text.len();
    out[at..end].copy_from_slice(text);
    end
}
