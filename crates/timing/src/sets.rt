// Event sets, once: a few instructions, and only their stack is measured.
#[unsafe(no_mangle)]
pub extern "C" fn timing_size(set: u64) -> u32 {
    engine::size(set)
}

#[unsafe(no_mangle)]
pub extern "C" fn timing_lowest(set: u64) -> u32 {
    engine::lowest(set)
}
