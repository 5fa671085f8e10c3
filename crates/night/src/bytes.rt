// The bytes of memory that a call writes before its run, and those that it reads behind it.
ghost use Rattle.std.specs.Prelude.{◌≤◌, ◌≡◌, length};
ghost use Rattle.night.specs.Bytes.{with_reading, relays_in};

// Puts the minute into bytes 0 to 3, and the minutes skipped into bytes 4 to 7.
#[tactic(auto, unfolding(crate::specs::Bytes::with_reading))]
pub fn put_reading(memory: &mut [u8], minute: u32, skipped: u32)
    requires { 8 ≤ length memory.old }
    ensures { memory.new ≡ with_reading memory.old minute skipped }
{
    memory[..4].copy_from_slice(&minute.to_le_bytes());
    memory[4..8].copy_from_slice(&skipped.to_le_bytes());
}

// The low 16 bits of the word at byte 64.
#[tactic(auto, unfolding(crate::specs::Bytes::relays_in))]
pub fn relays(memory: &[u8]) -> u32
    requires { 68 ≤ length memory.now }
    ensures { result ≡ relays_in memory.now }
{
    u32::from(u16::from_le_bytes([memory[64], memory[65]]))
}
