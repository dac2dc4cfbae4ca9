//! Numbers, pages, spans, accesses, calls, commands and turns as values. Each type keeps its numbers in range.
#![tactic(auto)]

mod access;
mod calls;
mod leaf;
mod numbers;
mod page;
mod script;
mod span;
mod values;

pub use access::Access;
pub use calls::{Ioctl, Region};
pub use leaf::Leaf;
pub use numbers::{
    BLOCK, BLOCK_PAGES, BUFFER_FILLS, COUNTER_LIMIT, KVM_EXIT_MEMORY_FAULT, KVM_EXIT_MMIO,
    KVM_MEM_GUEST_MEMFD, KVM_MEM_READONLY, KVM_MEMORY_ATTRIBUTE_PRIVATE,
    KVM_MEMORY_EXIT_FLAG_PRIVATE, MOST_CALLERS, MOST_COMMANDS, MOST_FRAMES, MOST_SCRIPT_BYTES,
    MOST_TURNS, MOST_USER_PAGES, MOST_VCPUS, PAGE_BYTES, PAGE_LIMIT, PAGE_WORDS, SLOT_IDS,
    WORD_BYTES,
};
pub use page::Page;
pub use script::{Command, Turn};
pub use span::Span;
pub use values::{Actor, Errno, Folio, Kind, Level, NoMemory, Op, Place, Setup};

#[cfg(test)]
mod tests;
