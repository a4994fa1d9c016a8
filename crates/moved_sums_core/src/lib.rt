// Workers: sums as of places that lie further on, formed with terms in common: S1 times a power of a, S3 times its cube, for the 32 words
// of a pair side by side. Over `networks_spec`; `gathering_core` gathers syndromes with them.
#![tactic(auto)]

ghost use Rattle.std.specs.Prelude.{◌≡◌};
ghost use Rattle.networks_spec.specs.Networks.{network, up64_columns, up32_columns, up16_columns};

// Sums moved 64 places on.
pub fn up64(x: &[u32; 16]) -> [u32; 16]
    ensures { result ≡ network up64_columns x.now }
{
    let [x0, x1, x2, x3, x4, x5, x6, x7, ..] = *x;
    let [.., x8, x9, x10, x11, x12, x13, x14, x15] = *x;
    let s0 = x0 ^ x6;
    let s1 = x1 ^ x7;
    let s2 = s0 ^ s1;
    let s3 = x4 ^ s2;
    let s4 = x12 ^ x13;
    let s5 = x13 ^ x14;
    let s6 = x2 ^ x5;
    let s7 = x3 ^ s0;
    let s8 = x5 ^ s7;
    let s9 = x8 ^ x15;
    let s10 = x9 ^ s5;
    let s11 = x9 ^ s4;
    let s12 = x4 ^ s1;
    let s13 = x0 ^ s6;
    let s14 = x10 ^ x14;
    let s15 = x9 ^ x10;
    let s16 = x3 ^ s12;
    let s17 = x4 ^ s13;
    let s18 = x10 ^ x11;
    let s19 = s1 ^ s6;
    let s20 = s9 ^ s14;
    let s21 = x15 ^ s5;
    let s22 = x8 ^ s4;
    let s23 = x11 ^ x12;
    let s24 = x11 ^ s21;
    let s25 = x5 ^ s3;
    let s26 = x15 ^ s11;
    let s27 = x5 ^ s2;
    let s28 = x2 ^ s7;
    let s29 = x1 ^ s8;
    [
        s17, s29, s27, s25, s3, s19, s28, s16, s10, s20, s24, s26, s15, s18, s23, s22,
    ]
}

// Sums moved 32 places on, of two lanes at once: one in the upper halves of the numbers, one in the lower.
pub fn up32(x: &[u64; 16]) -> [u64; 16]
    ensures { result ≡ network up32_columns x.now }
{
    let [x0, x1, x2, x3, x4, x5, x6, x7, ..] = *x;
    let [.., x8, x9, x10, x11, x12, x13, x14, x15] = *x;
    let s0 = x0 ^ x3;
    let s1 = x2 ^ x5;
    let s2 = x9 ^ x11;
    let s3 = x1 ^ x7;
    let s4 = x4 ^ s3;
    let s5 = x6 ^ s0;
    let s6 = x8 ^ x15;
    let s7 = x8 ^ x12;
    let s8 = s0 ^ s1;
    let s9 = x10 ^ x14;
    let s10 = x7 ^ s5;
    let s11 = x10 ^ s2;
    let s12 = x13 ^ s11;
    let s13 = x14 ^ s2;
    let s14 = x2 ^ s4;
    let s15 = x1 ^ s1;
    let s16 = s2 ^ s6;
    let s17 = x9 ^ s6;
    let s18 = x10 ^ s7;
    let s19 = x9 ^ s18;
    let s20 = s5 ^ s14;
    let s21 = x9 ^ x13;
    let s22 = x0 ^ s4;
    let s23 = x8 ^ s9;
    [
        s22, s15, s20, s8, s10, s4, s1, s5, s19, s12, s13, s17, s7, s21, s23, s16,
    ]
}

// Sums moved 16 places on.
pub fn up16(x: &[u32; 16]) -> [u32; 16]
    ensures { result ≡ network up16_columns x.now }
{
    let [x0, x1, x2, x3, x4, x5, x6, x7, ..] = *x;
    let [.., x8, x9, x10, x11, x12, x13, x14, x15] = *x;
    let s0 = x2 ^ x5;
    let s1 = x3 ^ x6;
    let s2 = x1 ^ x4;
    let s3 = x4 ^ s0;
    let s4 = x0 ^ s1;
    let s5 = x7 ^ s4;
    let s6 = x6 ^ s3;
    let s7 = x0 ^ s3;
    let s8 = x8 ^ x11;
    let s9 = x7 ^ s2;
    let s10 = x11 ^ x13;
    let s11 = x9 ^ s10;
    let s12 = x8 ^ x12;
    let s13 = x9 ^ x10;
    let s14 = x8 ^ x14;
    let s15 = x3 ^ x5;
    let s16 = x9 ^ x15;
    let s17 = x7 ^ s0;
    let s18 = s12 ^ s13;
    let s19 = x2 ^ s5;
    let s20 = x1 ^ s19;
    let s21 = x5 ^ s5;
    let s22 = x13 ^ x15;
    let s23 = x12 ^ x14;
    let s24 = s2 ^ s15;
    let s25 = x6 ^ s9;
    [
        s17, s1, s7, s20, s24, s6, s21, s25, x10, s8, s18, s11, s23, s22, s14, s16,
    ]
}
