// Step widths of the instances.

// The greatest width of the instance.
pub fn widest(instance: u32) -> u32 {
    if instance == 3 { 16 } else { 8 }
}

// A width of the instance for call i: 1, 8 and the greatest, over and over.
pub fn width_at(instance: u32, i: usize) -> u32 {
    match i % 3 {
        0 => 1,
        1 => 8,
        _ => widest(instance),
    }
}
