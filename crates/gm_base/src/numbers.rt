//! The numbers of the interface, and the limits.

/// A guest page's number is below this, 2^52.
pub const PAGE_LIMIT: u64 = 4_503_599_627_370_496;

/// The bytes of a page.
pub const PAGE_BYTES: u64 = 4096;

/// The words of a page.
pub const PAGE_WORDS: u16 = 512;

/// The bytes of a word.
pub const WORD_BYTES: u64 = 8;

/// The pages of a block, which begins at a multiple of this.
pub const BLOCK_PAGES: u64 = 512;

/// Flag of a slot that guests can't write (`KVM_MEM_READONLY`).
pub const KVM_MEM_READONLY: u32 = 2;

/// Flag of a slot with a guest_memfd (`KVM_MEM_GUEST_MEMFD`).
pub const KVM_MEM_GUEST_MEMFD: u32 = 4;

/// Attribute of a private page (`KVM_MEMORY_ATTRIBUTE_PRIVATE`).
pub const KVM_MEMORY_ATTRIBUTE_PRIVATE: u64 = 8;

/// Flag of a memory fault by a private access (`KVM_MEMORY_EXIT_FLAG_PRIVATE`).
pub const KVM_MEMORY_EXIT_FLAG_PRIVATE: u64 = 8;

/// Exit reason of an access that no memory serves (`KVM_EXIT_MMIO`).
pub const KVM_EXIT_MMIO: u32 = 6;

/// Exit reason of a memory fault (`KVM_EXIT_MEMORY_FAULT`).
pub const KVM_EXIT_MEMORY_FAULT: u32 = 39;

/// Flag of a file whose first uses take blocks. It is this project's own.
pub const BLOCK: u64 = 1;

/// The most bytes of a script.
pub const MOST_SCRIPT_BYTES: usize = 16_777_216;

/// The most vCPUs of a machine. It has at least one.
pub const MOST_VCPUS: u32 = 64;

/// The most callers of a machine.
pub const MOST_CALLERS: u32 = 16;

/// The most frames of a machine.
pub const MOST_FRAMES: u32 = 65_536;

/// The most pages of user memory.
pub const MOST_USER_PAGES: u32 = 65_536;

/// The most commands of a script.
pub const MOST_COMMANDS: usize = 65_536;

/// The most turns of a script.
pub const MOST_TURNS: usize = 262_144;

/// A slot's id is below this.
pub const SLOT_IDS: u32 = 4096;

/// The fills that a vCPU's buffer keeps.
pub const BUFFER_FILLS: usize = 256;

/// Serials, requests, sequences and generations stay below this, 2^62.
pub const COUNTER_LIMIT: u64 = 4_611_686_018_427_387_904;
