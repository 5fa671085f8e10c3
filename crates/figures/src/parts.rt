// Parts of an issue, and the number of a signed field, called as another crate calls them: on numbers in range, and on others. What is
// wanted follows from the sentence of document 01 above a test; where a number has no place or no room, from what docs/DECISIONS.md says.
use answer::REGISTER_WORDS;
use isa::MoveiOp;

// "Thread t (0..7), scalar i at 64t+i"
#[test]
fn scalars(rt: HostRuntime) {
    let mut registers = [0u32; REGISTER_WORDS];
    execution::set_scalar(&mut registers, 7, 62, 5);
    assert_eq!(rt; registers[510], 5);
    registers[511] = 6;
    assert_eq!(rt; execution::scalar(&registers, 7, 62), 5);
    assert_eq!(rt; execution::scalar(&registers, 7, 63), 6);
}

// 64 * 136 is 8704, which is past the last place: nothing is written there, and 0 read. Nor is there a place so high that it has no number.
#[test]
fn scalars_past_the_end(rt: HostRuntime) {
    let mut registers = [1u32; REGISTER_WORDS];
    execution::set_scalar(&mut registers, 136, 0, 5);
    execution::set_scalar(&mut registers, usize::MAX, 63, 5);
    assert_eq!(rt; registers, [1u32; REGISTER_WORDS]);
    assert_eq!(rt; execution::scalar(&registers, 135, 63), 1);
    assert_eq!(rt; execution::scalar(&registers, 136, 0), 0);
    assert_eq!(rt; execution::scalar(&registers, usize::MAX, 63), 0);
}

// "vector i, lane j at 512+1024t+16i+j"
#[test]
fn vectors(rt: HostRuntime) {
    let lanes = [0u32, 1, 2, 3, 4, 5, 6, 7, 8, 9, 10, 11, 12, 13, 14, 15];
    let mut registers = [0u32; REGISTER_WORDS];
    execution::set_vector(&mut registers, 7, 63, lanes);
    assert_eq!(rt; registers[8687], 0);
    assert_eq!(rt; registers[8689], 1);
    assert_eq!(rt; registers[8703], 15);
    assert_eq!(rt; execution::vector(&registers, 7, 63), lanes);
    assert_eq!(rt; execution::vector(&registers, 7, 62), [0u32; 16]);
}

// 512 + 1024 * 8 is 8704.
#[test]
fn vectors_past_the_end(rt: HostRuntime) {
    let mut registers = [1u32; REGISTER_WORDS];
    execution::set_vector(&mut registers, 8, 0, [5; 16]);
    execution::set_vector(&mut registers, usize::MAX, 0, [5; 16]);
    assert_eq!(rt; registers, [1u32; REGISTER_WORDS]);
    assert_eq!(rt; execution::vector(&registers, 8, 0), [0u32; 16]);
    assert_eq!(rt; execution::vector(&registers, usize::MAX, 0), [0u32; 16]);
    assert_eq!(rt;
        execution::vector(&registers[..8696], 7, 63),
        [1u32, 1, 1, 1, 1, 1, 1, 1, 0, 0, 0, 0, 0, 0, 0, 0]
    );
}

// "s63 grows by 4"; thread 2's is at 191. Modulo 2^32, 4 more than the highest number is 3.
#[test]
fn addresses(rt: HostRuntime) {
    let mut registers = [0u32; REGISTER_WORDS];
    execution::advance(&mut registers, 2, 65532);
    assert_eq!(rt; registers[191], 65536);
    execution::advance(&mut registers, 2, u32::MAX);
    assert_eq!(rt; registers[191], 3);
}

// "0 moveil replaces the low half, 1 moveih the high half, 2 movei sets the value"
#[test]
fn moves(rt: HostRuntime) {
    assert_eq!(rt;
        execution::replace(MoveiOp::Low, 0x12345678, 0xABCD),
        0x1234ABCD
    );
    assert_eq!(rt;
        execution::replace(MoveiOp::High, 0x12345678, 0xABCD),
        0xABCD5678
    );
    assert_eq!(rt;
        execution::replace(MoveiOp::Whole, 0x12345678, 0xFFFFABCD),
        0xFFFFABCD
    );
    assert_eq!(rt; execution::replace(MoveiOp::Low, 0xFFFF0000, 0x10000), 0);
    assert_eq!(rt;
        execution::replace(MoveiOp::High, 0x12345678, 0x1ABCD),
        0xABCD5678
    );
}

// "s63 not a multiple of 4, or at or past the program's end"
#[test]
fn words_of_a_program(rt: HostRuntime) {
    assert!(rt; execution::in_program(2, 0));
    assert!(rt; execution::in_program(2, 4));
    assert!(rt; !execution::in_program(2, 6));
    assert!(rt; !execution::in_program(2, 8));
    assert!(rt; execution::in_program(usize::MAX, 0xFFFFFFFC));
}

// "Program: 1 to 16,384 words"; 8,704 words of registers; threads 0 to 7.
#[test]
fn lengths(rt: HostRuntime) {
    assert!(rt; execution::fits(16384, 8704, 7));
    assert!(rt; !execution::fits(16385, 8704, 7));
    assert!(rt; !execution::fits(16384, 8703, 7));
    assert!(rt; !execution::fits(16384, 8704, 8));
}

// "A scalar among vectors counts as sixteen equal lanes."
#[test]
fn equal_lanes(rt: HostRuntime) {
    assert_eq!(rt;
        execution::splat(7),
        [7u32, 7, 7, 7, 7, 7, 7, 7, 7, 7, 7, 7, 7, 7, 7, 7]
    );
}

// "signed immediate 11-3", whose sign bit weighs 256, and "signed byte offset 17-0"; then a sign bit that weighs nothing, and one that
// weighs more than 2^31.
#[test]
fn signed_fields(rt: HostRuntime) {
    assert_eq!(rt; word_layout::signed_number::<256>(255), 255);
    assert_eq!(rt; word_layout::signed_number::<256>(256), 0xFFFFFF00);
    assert_eq!(rt; word_layout::signed_number::<0x20000>(0x3FFFF), 0xFFFFFFFF);
    assert_eq!(rt; word_layout::signed_number::<0>(5), 5);
    assert_eq!(rt;
        word_layout::signed_number::<0xC0000000>(0xFFFFFFFF),
        0xFFFFFFFF
    );
}
