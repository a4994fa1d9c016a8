// Workers: the remainder's digits from S1 and S3, formed with terms in common, for the 32 words of a pair side by side. Over
// `networks_spec`; `completing_core` completes words with them.
#![tactic(auto)]

ghost use Rattle.std.specs.Prelude.{◌≡◌};
ghost use Rattle.networks_spec.specs.Networks.{network, check_columns};

// Of each word sixteen digits, in the order of the columns.
pub fn check_bits(x: &[u32; 16]) -> [u32; 16]
    ensures { result ≡ network check_columns x.now }
{
    let [x0, x1, x2, x3, x4, x5, x6, x7, ..] = *x;
    let [.., x8, x9, x10, x11, x12, x13, x14, x15] = *x;
    let s0 = x1 ^ x11;
    let s1 = x0 ^ x8;
    let s2 = x2 ^ s0;
    let s3 = x14 ^ s2;
    let s4 = x7 ^ x10;
    let s5 = x12 ^ x13;
    let s6 = x3 ^ s3;
    let s7 = x5 ^ x15;
    let s8 = x6 ^ s5;
    let s9 = x6 ^ s1;
    let s10 = s0 ^ s9;
    let s11 = x15 ^ s6;
    let s12 = x9 ^ s4;
    let s13 = x7 ^ x12;
    let s14 = x13 ^ s10;
    let s15 = s4 ^ s7;
    let s16 = x4 ^ s7;
    let s17 = s5 ^ s12;
    let s18 = s1 ^ s6;
    let s19 = x4 ^ x9;
    let s20 = s1 ^ s3;
    let s21 = x6 ^ s15;
    let s22 = s4 ^ s18;
    let s23 = x5 ^ s17;
    let s24 = x4 ^ x6;
    let s25 = x4 ^ s18;
    let s26 = x7 ^ s11;
    let s27 = s13 ^ s24;
    let s28 = s11 ^ s12;
    let s29 = s13 ^ s20;
    let s30 = x9 ^ s14;
    let s31 = s8 ^ s11;
    let s32 = x0 ^ x10;
    let s33 = x11 ^ s27;
    let s34 = s1 ^ s15;
    let s35 = s20 ^ s23;
    let s36 = x13 ^ s26;
    let s37 = x12 ^ s28;
    let s38 = s14 ^ s16;
    let s39 = s7 ^ s17;
    let s40 = x10 ^ s10;
    let s41 = x3 ^ s39;
    let s42 = x14 ^ s34;
    let s43 = s19 ^ s36;
    let s44 = s8 ^ s16;
    let s45 = s8 ^ s22;
    let s46 = s31 ^ s32;
    let s47 = s19 ^ s40;
    [
        s45, s8, s29, s30, s42, s33, s46, s35, s47, s37, s21, s44, s25, s41, s38, s43,
    ]
}
