// The commands of a fault script, as they stand in it: whether a command may stand there, and may say what it says, is
// the loader's to judge.
use carrier::ConsoleSet;

// The operands of a CARD: what one console proposes.
#[derive(Clone, Copy, PartialEq, Eq, Debug)]
pub struct CardEntry {
    pub console: u8,
    pub letter: u8,
    pub delay: u8,
    pub modes: u16,
    pub seed: u32,
}

// The operands of a CRASH: one console is lost in one round, and these hear it then.
#[derive(Clone, Copy, PartialEq, Eq, Debug)]
pub struct CrashEntry {
    pub round: u8,
    pub console: u8,
    pub hearers: ConsoleSet,
}

// One command. A remark's eight bytes are a part of the script itself.
#[derive(Clone, Copy, Debug)]
pub enum Command<'a> {
    Link { n: u8, f: u8 },
    Card(CardEntry),
    Crash(CrashEntry),
    Remark(&'a [u8]),
    End,
}

// A command with the place of its first byte, and the place where the next one begins.
#[derive(Clone, Copy, Debug)]
pub struct Found<'a> {
    pub command: Command<'a>,
    pub place: usize,
    pub next: usize,
}
