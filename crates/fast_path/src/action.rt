// What the fast path does with a word.

#[derive(Clone, Copy, Debug, PartialEq, Eq)]
pub enum Action {
    // The register in bits 23-18 gets a number, and the thread goes on with the next word.
    Write(u32),
    // The thread goes on with the next word.
    Next,
    // The thread jumps, over so many bytes from the word's own address.
    Jump(u32),
    // Nothing: the word may be an R or an I word on vectors, and is tried as such.
    Lanes,
    // Nothing: the word is left to the slow path.
    Defer,
}
