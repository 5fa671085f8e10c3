// Words and bytes moved between lent slices. A buffer and a place go together, here and in what stands on this: `Grown` says of the whole
// buffer what stands before and behind, which a part of it can't; a struct of both would have to promise that it is still the same buffer.
ghost use Rattle.std.specs.Prelude.{◌+◌, ◌*◌, ◌≤◌, ◌≡◌, length, take, drop};
ghost use Rattle.image_layout.specs.Join.{Grown};
ghost use Rattle.little_endian.specs.Numbers.{number_at, number_bytes, bytes_of, words_of};

// A word stored from a place on, the lowest byte first.
pub fn put_word(word: u32, buffer: &mut [u8], at: usize)
    requires { at + 4 ≤ length buffer.old }
    ensures { Grown buffer.old buffer.new at (at + 4) (number_bytes 4 word) }
{
    buffer[at..at + 4].copy_from_slice(&word.to_le_bytes());
}

// Four words stored from a place on: all are read before one is stored, so that they move as one.
fn put_four(registers: &[u32], from: usize, buffer: &mut [u8], at: usize)
    requires { (from + 4 ≤ length registers.now) × (at + 16 ≤ length buffer.old) }
    ensures { Grown buffer.old buffer.new at (at + 16) (bytes_of 4 (drop from registers.now)) }
{
    let w0 = registers[from];
    let w1 = registers[from + 1];
    let w2 = registers[from + 2];
    let w3 = registers[from + 3];
    put_word(w0, buffer, at);
    put_word(w1, buffer, at + 4);
    put_word(w2, buffer, at + 8);
    put_word(w3, buffer, at + 12);
}

// n times four words stored from a place on. By number: a zip of four words with sixteen bytes is no plainer.
pub fn put_words(registers: &[u32], from: usize, n: usize, buffer: &mut [u8], at: usize)
    requires { (from + 4 * n ≤ length registers.now) × (at + 16 * n ≤ length buffer.old) }
    ensures { Grown buffer.old buffer.new at (at + 16 * n) (bytes_of (4 * n) (drop from registers.now)) }
{
    for j in 0..n {
        put_four(registers, from + 4 * j, buffer, at + 16 * j);
    }
}

// The word at a place. Beside little_endian's, which reads zeros past the end: this one asks for four bytes.
pub fn word_at(image: &[u8], at: usize) -> u32
    requires { at + 4 ≤ length image.now }
    ensures { result ≡ number_at 4 image.now at }
{
    u32::from_le_bytes([image[at], image[at + 1], image[at + 2], image[at + 3]])
}

// Four words taken from a place of an image, and stored from a place on: all are read before one is stored. Place by place: by
// copy_from_slice they would not move as one, and the longest image be converted in 79,000 instructions in place of 60,000.
fn take_four(image: &[u8], at: usize, registers: &mut [u32], from: usize)
    requires { (at + 16 ≤ length image.now) × (from + 4 ≤ length registers.old) }
    ensures { Grown registers.old registers.new from (from + 4) (words_of 4 (drop at image.now)) }
{
    let w0 = word_at(image, at);
    let w1 = word_at(image, at + 4);
    let w2 = word_at(image, at + 8);
    let w3 = word_at(image, at + 12);
    registers[from] = w0;
    registers[from + 1] = w1;
    registers[from + 2] = w2;
    registers[from + 3] = w3;
}

// n times four words taken from a place of an image, and stored from a place on. By number, as above.
pub fn take_words(image: &[u8], at: usize, n: usize, registers: &mut [u32], from: usize)
    requires { (at + 16 * n ≤ length image.now) × (from + 4 * n ≤ length registers.old) }
    ensures { Grown registers.old registers.new from (from + 4 * n) (words_of (4 * n) (drop at image.now)) }
{
    for j in 0..n {
        take_four(image, at + 16 * j, registers, from + 4 * j);
    }
}

// n times sixteen bytes taken from a place, and stored from a place on, by number. They have a copy of their own, so that they move as one:
// between two slices they would first be compared for overlap (docs/SPEED.md).
pub fn copy_sixteens(source: &[u8], from: usize, n: usize, target: &mut [u8], at: usize)
    requires { (from + 16 * n ≤ length source.now) × (at + 16 * n ≤ length target.old) }
    ensures { Grown target.old target.new at (at + 16 * n) (take (16 * n) (drop from source.now)) }
{
    for k in 0..n {
        let here = from + 16 * k;
        let there = at + 16 * k;
        let mut sixteen = [0u8; 16];
        sixteen.copy_from_slice(&source[here..here + 16]);
        target[there..there + 16].copy_from_slice(&sixteen);
    }
}
