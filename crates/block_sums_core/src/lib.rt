// Workers: the sums over the last block of either half, formed with terms in common, for the sixteen words of a row side by side: sum i is
// digit i of S1, sum 8 + i digit i of S3. Bit 255 is taken as if the powers of a went on behind bit 254. Over `networks_spec`;
// `gathering_core` gathers syndromes with them.
#![tactic(auto)]

ghost use Rattle.std.specs.Prelude.{◌≡◌};
ghost use Rattle.networks_spec.specs.Networks.{network, front_columns, back_columns};

// S1 and S3 of the last block of the front halves.
pub fn front(x: &[u16; 16]) -> [u16; 16]
    ensures { result ≡ network front_columns x.now }
{
    let [x0, x1, x2, x3, x4, x5, x6, x7, ..] = *x;
    let [.., x8, x9, x10, x11, x12, x13, x14, x15] = *x;
    let s0 = x1 ^ x13;
    let s1 = x0 ^ x3;
    let s2 = x7 ^ x10;
    let s3 = x5 ^ x15;
    let s4 = x9 ^ x12;
    let s5 = x8 ^ x11;
    let s6 = x14 ^ s2;
    let s7 = s0 ^ s4;
    let s8 = x4 ^ s1;
    let s9 = x2 ^ s6;
    let s10 = x6 ^ x14;
    let s11 = s3 ^ s7;
    let s12 = s8 ^ s9;
    let s13 = x6 ^ s5;
    let s14 = x4 ^ x7;
    let s15 = x6 ^ s1;
    let s16 = x1 ^ s3;
    let s17 = x0 ^ s2;
    let s18 = s4 ^ s17;
    let s19 = x5 ^ s15;
    let s20 = s5 ^ s12;
    let s21 = x3 ^ s6;
    let s22 = x8 ^ x12;
    let s23 = s5 ^ s8;
    let s24 = x15 ^ s10;
    let s25 = x9 ^ x15;
    let s26 = s0 ^ s12;
    let s27 = x3 ^ s25;
    let s28 = s0 ^ s14;
    let s29 = x12 ^ s20;
    let s30 = s13 ^ s27;
    let s31 = x11 ^ s11;
    let s32 = x8 ^ s9;
    let s33 = x5 ^ s0;
    let s34 = x2 ^ s10;
    let s35 = x10 ^ s5;
    let s36 = s10 ^ s28;
    let s37 = s16 ^ s21;
    let s38 = x13 ^ s22;
    let s39 = s14 ^ s16;
    let s40 = s3 ^ s18;
    let s41 = s3 ^ s32;
    let s42 = x3 ^ x8;
    let s43 = x9 ^ s36;
    let s44 = s7 ^ s19;
    let s45 = s11 ^ s23;
    let s46 = x6 ^ s26;
    let s47 = s13 ^ s40;
    let s48 = s8 ^ s24;
    let s49 = s33 ^ s35;
    let s50 = s19 ^ s38;
    let s51 = s31 ^ s34;
    let s52 = s7 ^ s42;
    let s53 = x2 ^ s44;
    let s54 = x4 ^ s18;
    [
        s43, s50, s51, s47, s49, s54, s30, s41, s29, s48, s37, s52, s46, s45, s39, s53,
    ]
}

// S1 and S3 of the last block of the back halves.
pub fn back(x: &[u16; 16]) -> [u16; 16]
    ensures { result ≡ network back_columns x.now }
{
    let [x0, x1, x2, x3, x4, x5, x6, x7, ..] = *x;
    let [.., x8, x9, x10, x11, x12, x13, x14, x15] = *x;
    let s0 = x2 ^ x15;
    let s1 = x0 ^ x1;
    let s2 = x3 ^ s0;
    let s3 = x6 ^ x10;
    let s4 = x7 ^ s1;
    let s5 = x8 ^ s3;
    let s6 = s2 ^ s4;
    let s7 = s5 ^ s6;
    let s8 = x13 ^ x15;
    let s9 = x6 ^ x11;
    let s10 = x4 ^ x5;
    let s11 = x4 ^ x8;
    let s12 = x4 ^ x12;
    let s13 = x5 ^ s8;
    let s14 = x3 ^ x9;
    let s15 = x0 ^ s3;
    let s16 = s2 ^ s9;
    let s17 = x1 ^ s0;
    let s18 = x15 ^ s15;
    let s19 = x7 ^ x10;
    let s20 = x14 ^ s1;
    let s21 = s6 ^ s11;
    let s22 = x14 ^ s7;
    let s23 = x2 ^ s20;
    let s24 = x7 ^ s2;
    let s25 = s1 ^ s13;
    let s26 = s12 ^ s19;
    let s27 = s12 ^ s17;
    let s28 = x9 ^ s21;
    let s29 = x2 ^ s11;
    let s30 = s10 ^ s14;
    let s31 = x11 ^ s13;
    let s32 = x11 ^ s4;
    let s33 = x3 ^ s29;
    let s34 = x5 ^ s7;
    let s35 = s10 ^ s15;
    let s36 = s5 ^ s31;
    let s37 = x6 ^ s23;
    let s38 = x9 ^ s34;
    let s39 = x1 ^ s24;
    let s40 = s9 ^ s14;
    let s41 = x5 ^ s16;
    let s42 = x11 ^ s28;
    let s43 = x6 ^ s27;
    [
        s37, s25, s43, s41, s35, s30, s33, s39, s22, s40, s38, s36, s32, s42, s26, s18,
    ]
}
