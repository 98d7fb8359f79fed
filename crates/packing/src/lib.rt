// Three bytes are one number of 24 bits, top byte first; so are four symbols. A written column is 30 bits from the top and two zeros in four bytes.
// A signed number is written as 16 bits.
#![tactic(auto)]

ghost use Rattle.std.specs.Prelude.{◌≡◌, ◌<◌, ◌^◌, EachIndex, slice_index};
ghost use Rattle.packing.specs.Packing.{symbols_of, bytes_of, column_bytes, sixteen_bits};

// Three bytes as four symbols, top bits first.
pub fn unpack(bytes: [u8; 3]) -> [u8; 4]
    ensures { result ≡ symbols_of bytes }
{
    let [b0, b1, b2] = bytes;
    [
        b0 >> 2,
        ((b0 & 3) << 4) | (b1 >> 4),
        ((b1 & 15) << 2) | (b2 >> 6),
        b2 & 63,
    ]
}

// Four symbols as three bytes.
pub fn pack(symbols: [u8; 4]) -> [u8; 3]
    requires { EachIndex symbols (λ k. slice_index symbols k < 64) }
    ensures { result ≡ bytes_of symbols }
{
    let [s0, s1, s2, s3] = symbols;
    [
        (s0 << 2) | (s1 >> 4),
        ((s1 & 15) << 4) | (s2 >> 2),
        ((s2 & 3) << 6) | s3,
    ]
}

// A column as its four written bytes: by shifts and masks, the form that 01 names.
pub fn column_bytes(column: u64) -> [u8; 4]
    requires { column < 2 ^ 30 }
    ensures { result ≡ column_bytes column }
{
    [
        (column >> 22) as u8,
        ((column >> 14) & 255) as u8,
        ((column >> 6) & 255) as u8,
        ((column & 63) << 2) as u8,
    ]
}

// A signed number as 16 bits, two's complement.
pub fn sixteen_bits(z: i16) -> u64
    ensures { result ≡ sixteen_bits z }
{
    u64::from(z.cast_unsigned())
}
