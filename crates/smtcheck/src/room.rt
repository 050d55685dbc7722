//! What the program asks of the machine before it begins. A stack that can't grow ends a program by a signal, without
//! a message. This file knows no dialogue and no verdict.

use std::fs;
use std::rt::Files;

/// The bytes of stack that are enough for the report on any texts and its explanation, and for the words of the command
/// line and the environment. Linux keeps these words on the stack, and they have at most a quarter of this limit.
const STACK: u64 = 256 << 10;

/// The bytes of address space that are enough for the program and that stack.
const ADDRESSES: u64 = 8 << 20;

/// The bytes of a block of stack, and a number of blocks that no report and no explanation needs in full. The blocks
/// fit on the least stack beside the words with their quarter.
const BLOCK: usize = 4096;

const BLOCKS: usize = 40;

/// Whether the limits of the process leave room for the stack that any texts need. Where address space is limited, the
/// heap could use all of it: so the program claims that stack at once. Otherwise the stack grows when it is needed.
/// Linux has the limits in a file; a system without this file counts as one without limits.
pub(crate) fn has_room<R: Files + AllocGlobal>(rt: &R) -> bool {
    let Ok(limits) = fs::read_to_string(rt, "/proc/self/limits") else {
        return true;
    };
    let mut is_limited = false;
    for line in limits.as_str().lines() {
        if !allows(line, "Max stack size", STACK) || !allows(line, "Max address space", ADDRESSES) {
            return false;
        }
        is_limited |= !allows(line, "Max address space", u64::MAX);
    }
    let mark = limits.as_str().as_bytes().first().copied().unwrap_or(0);
    !is_limited || takes_stack(BLOCKS, mark)
}

// Claims this number of blocks of stack and one more: it fills each with a mark, and returns whether each holds the
// mark. Linux grows a stack when the program writes to it, if addresses are left, and never shrinks it. So the
// program has these blocks from here on, however many addresses its heap uses. The function reads each block after
// the inner call, and no compiler knows the mark: so none makes a loop of this or drops a block.
#[inline(never)]
fn takes_stack(blocks: usize, mark: u8) -> bool {
    let block = [mark; BLOCK];
    (blocks == 0 || takes_stack(blocks - 1, mark)) && block.get(blocks % BLOCK) == Some(&mark)
}

// Whether a line allows this number of bytes, if it is the limit of this name; any other line allows them. The
// first word after the name is the limit in bytes, or a word for no limit.
fn allows(line: &str, name: &str, bytes: u64) -> bool {
    let Some(rest) = line.strip_prefix(name) else {
        return true;
    };
    let Some(word) = rest.split_whitespace().next() else {
        return true;
    };
    match word.parse::<u64>() {
        Ok(limit) => limit >= bytes,
        Err(_) => true,
    }
}
