// What an issue is told beside registers and memory: the thread, the address of its word, the enabled mask, how many words the program
// has, and how many turns the thread has had before. Its bounds stand in the contracts and are no ghost fields: the definitions speak of
// any state's context, so that each clause would have to turn this one into theirs.

#[derive(Clone, Copy, Debug, PartialEq, Eq)]
pub struct Context {
    pub thread: usize,
    pub pc: u32,
    pub enabled: u8,
    pub words: usize,
    pub turns: u32,
}
