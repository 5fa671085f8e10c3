// Words put together from their parts, each of which has room. A function for each format: one over a list of parts
// would loop where these add.
ghost use Rattle.std.specs.Prelude.{◌≡◌, ◌<◌, [], ◌∷◌};
ghost use Rattle.word_layout.specs.Layout.{pack, layout_r, layout_i, layout_movei, layout_j, layout_c, layout_m, prefix_r, prefix_i, prefix_movei, prefix_j, prefix_c, prefix_m};

use word_layout::{PREFIX_C, PREFIX_I, PREFIX_J, PREFIX_M, PREFIX_MOVEI, PREFIX_R};

pub fn r(opcode: u8, d: u32, a: u32, b: u32, flags: u32) -> u32
    requires { (opcode < 64) × (d < 64) × (a < 64) × (b < 64) × (flags < 8) }
    ensures { result ≡ pack layout_r (prefix_r ∷ opcode ∷ d ∷ a ∷ b ∷ 0 ∷ 0 ∷ flags ∷ 0 ∷ []) }
{
    PREFIX_R * 0x40000000
        + (opcode as u32) * 0x1000000
        + d * 0x40000
        + a * 0x1000
        + b * 0x40
        + flags * 2
}

pub fn i(opcode: u8, d: u32, a: u32, immediate: u32, flags: u32) -> u32
    requires { (opcode < 32) × (d < 64) × (a < 64) × (immediate < 512) × (flags < 4) }
    ensures { result ≡ pack layout_i (prefix_i ∷ opcode ∷ d ∷ a ∷ immediate ∷ flags ∷ 0 ∷ []) }
{
    PREFIX_I * 0x20000000
        + (opcode as u32) * 0x1000000
        + d * 0x40000
        + a * 0x1000
        + immediate * 8
        + flags * 2
}

pub fn movei(opcode: u8, d: u32, immediate: u32, flag: u32) -> u32
    requires { (opcode < 8) × (d < 64) × (immediate < 65536) × (flag < 2) }
    ensures { result ≡ pack layout_movei (prefix_movei ∷ opcode ∷ d ∷ immediate ∷ flag ∷ 0 ∷ []) }
{
    PREFIX_MOVEI * 0x8000000 + (opcode as u32) * 0x1000000 + d * 0x40000 + immediate * 4 + flag * 2
}

pub fn j(opcode: u8, register: u32, offset: u32) -> u32
    requires { (opcode < 8) × (register < 64) × (offset < 262144) }
    ensures { result ≡ pack layout_j (prefix_j ∷ opcode ∷ register ∷ offset ∷ []) }
{
    PREFIX_J * 0x8000000 + (opcode as u32) * 0x1000000 + register * 0x40000 + offset
}

pub fn c(opcode: u8, first: u32, second: u32) -> u32
    requires { (opcode < 8) × (first < 64) × (second < 64) }
    ensures { result ≡ pack layout_c (prefix_c ∷ opcode ∷ first ∷ second ∷ 0 ∷ []) }
{
    PREFIX_C * 0x8000000 + (opcode as u32) * 0x1000000 + first * 0x40000 + second * 0x1000
}

pub fn m(opcode: u8, register: u32, base: u32, offset: u32) -> u32
    requires { (opcode < 64) × (register < 64) × (base < 64) × (offset < 512) }
    ensures { result ≡ pack layout_m (prefix_m ∷ opcode ∷ register ∷ base ∷ offset ∷ 0 ∷ 0 ∷ []) }
{
    PREFIX_M * 0x40000000
        + (opcode as u32) * 0x1000000
        + register * 0x40000
        + base * 0x1000
        + offset * 8
}
