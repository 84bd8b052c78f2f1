//! Tunes the C library's allocator.

use std::alloc::Global;

/// Blocks up to this size come from the heap once a block of this size has been freed.
const LARGE: usize = 4_194_304;

/// Allocates a large block and frees it at once. An allocation that fails is ignored.
///
/// The C library's allocator maps each large block by itself and unmaps it when it is freed, so
/// each large allocation after that pays a page fault for every page again. Blocks of 128 KiB and
/// more are large at first; then the largest mapped block that was freed is the threshold. So from
/// here on blocks up to 4 MiB, such as the texts of files, come from the heap, whose pages are used
/// again.
pub fn keep_pages(alloc: Global) {
    let _ = Vec::<u8>::with_capacity(alloc, LARGE);
}
