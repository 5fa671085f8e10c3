// Numbers in bytes, the lowest byte first. A function for each size: most are the library's method of its own type, and a size as a const
// parameter would need a loop.
ghost use Rattle.std.specs.Prelude.{◌≡◌, ◌+◌, ◌≤◌, ◌<◌, ◌^◌, length, get_or};
ghost use Rattle.little_endian.specs.Numbers.{number_at, with_number};

#[tactic(auto, unfolding(little_endian::specs::Numbers::number_at))]
pub fn read8(memory: &[u8], a: usize) -> u32
    requires { a + 1 ≤ length memory.now }
    ensures { result ≡ number_at 1 memory.now a }
{
    u32::from(memory[a])
}

#[tactic(auto, unfolding(little_endian::specs::Numbers::number_at))]
pub fn read16(memory: &[u8], a: usize) -> u32
    requires { a + 2 ≤ length memory.now }
    ensures { result ≡ number_at 2 memory.now a }
{
    u32::from(u16::from_le_bytes([memory[a], memory[a + 1]]))
}

#[tactic(auto, unfolding(little_endian::specs::Numbers::number_at))]
pub fn read32(memory: &[u8], a: usize) -> u32
    requires { a + 4 ≤ length memory.now }
    ensures { result ≡ number_at 4 memory.now a }
{
    u32::from_le_bytes([memory[a], memory[a + 1], memory[a + 2], memory[a + 3]])
}

pub fn write8(memory: &mut [u8], a: usize, w: u32)
    requires { a + 1 ≤ length memory.old }
    ensures { memory.new ≡ with_number 1 memory.old a w }
{
    memory[a] = (w % 256) as u8;
}

#[tactic(auto, unfolding(little_endian::specs::Numbers::with_number))]
pub fn write16(memory: &mut [u8], a: usize, w: u32)
    requires { a + 2 ≤ length memory.old }
    ensures { memory.new ≡ with_number 2 memory.old a w }
{
    memory[a..a + 2].copy_from_slice(&((w % 65536) as u16).to_le_bytes());
}

// In two halves: of four bytes at once the search did not close.
pub fn write32(memory: &mut [u8], a: usize, w: u32)
    requires { a + 4 ≤ length memory.old }
    ensures { memory.new ≡ with_number 4 memory.old a w }
{
    write16(memory, a, w);
    write16(memory, a + 2, w / 65536);
}
