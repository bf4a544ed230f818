// Numbers cut to a smaller type.

// The low 8 bits.
pub fn low_byte(number: u32) -> u8 {
    let [_, _, _, low] = number.to_be_bytes();
    low
}

// The low 16 bits.
pub fn low_half(number: u32) -> u16 {
    let [_, _, high, low] = number.to_be_bytes();
    u16::from_be_bytes([high, low])
}

// The low 32 bits.
pub fn low_word(number: u64) -> u32 {
    let [_, _, _, _, a, b, c, d] = number.to_be_bytes();
    u32::from_be_bytes([a, b, c, d])
}
