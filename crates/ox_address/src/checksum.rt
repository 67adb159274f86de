//! The checksum of an address (BIP 173, "Checksum"; BIP 350).

ghost use Rattle.std.specs.Prelude.{◌≡◌, ℕ, ◌+◌, ◌*◌, ◌/◌, ◌%◌, ◌^◌, ◌<◌, length, All, fold};
ghost use Rattle.ox_address.specs.Address.{IsHrp};
ghost use Rattle.ox_address.specs.Checksum.{step, polynomial, expanded, wanted, generators};

/// The generators of the code, joined for each set of bits above the low 25.
const GENERATORS: [u32; 32] = [
    0x0000_0000,
    0x3b6a_57b2,
    0x2650_8e6d,
    0x1d3a_d9df,
    0x1ea1_19fa,
    0x25cb_4e48,
    0x38f1_9797,
    0x039b_c025,
    0x3d42_33dd,
    0x0628_646f,
    0x1b12_bdb0,
    0x2078_ea02,
    0x23e3_2a27,
    0x1889_7d95,
    0x05b3_a44a,
    0x3ed9_f3f8,
    0x2a14_62b3,
    0x117e_3501,
    0x0c44_ecde,
    0x372e_bb6c,
    0x34b5_7b49,
    0x0fdf_2cfb,
    0x12e5_f524,
    0x298f_a296,
    0x1756_516e,
    0x2c3c_06dc,
    0x3106_df03,
    0x0a6c_88b1,
    0x09f7_4894,
    0x329d_1f26,
    0x2fa7_c6f9,
    0x14cd_914b,
];

/// The generators that some bits above the low 25 choose.
fn generators_at(top: u32) -> u32
    requires { top < 32 }
    ensures value { result ≡ generators top }
    ensures bounded { result < 2 ^ 30 }
{
    GENERATORS[top as usize]
}

/// The polynomial with one value more.
#[inline(always)]
pub(crate) fn with_value(sum: u32, value: u8) -> u32
    requires bounded { sum < 2 ^ 30 }
    requires symbol { value < 32 }
    ensures value { result ≡ step sum value }
    ensures bounded { result < 2 ^ 30 }
{
    let low = (sum % (1 << 25)) * 32;
    low ^ value as u32 ^ generators_at(sum / (1 << 25))
}

/// The polynomial of the values that a human-readable part stands for.
pub(crate) fn polynomial_of(hrp: &[u8]) -> u32
    ensures value { result ≡ polynomial (expanded hrp.now) }
    ensures bounded { result < 2 ^ 30 }
{
    let mut sum = 1;
    for letter in hrp {
        sum = with_value(sum, *letter / 32);
    }
    sum = with_value(sum, 0);
    for letter in hrp {
        sum = with_value(sum, *letter % 32);
    }
    sum
}

/// What the polynomial of an address of this version has to be.
pub(crate) fn wanted_of(version: u8) -> u32
    ensures value { result ≡ wanted version }
    ensures bounded { result < 2 ^ 30 }
{
    if version == 0 { 1 } else { 0x2bc8_30a3 }
}
