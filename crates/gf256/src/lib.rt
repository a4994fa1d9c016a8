// GF(256): the table of the powers of a, a root of y^8+y^4+y^3+y^2+1, and what is read off it. Over `bits`, below `word_spec`.
#![tactic(auto)]

mod tables;

ghost use Rattle.std.specs.Prelude.{◌≡◌, ◌<◌, get_or};
ghost use Rattle.gf256.specs.Field.{◌·◌, cube};
ghost use Rattle.gf256.specs.Tables.{powers, logs as exponents, cubed};

// The table of powers.
pub fn powers() -> [u8; 255]
    ensures { result ≡ powers }
{
    tables::POWERS
}

// The table of exponents.
pub fn logs() -> [u8; 256]
    ensures { result ≡ exponents }
{
    tables::LOGS
}

// The table of cubes.
pub fn cubes() -> [u8; 256]
    ensures { result ≡ cubed }
{
    tables::CUBES
}

// Power k of a.
pub fn power(k: usize) -> u8
    requires { k < 255 }
    ensures { result ≡ get_or powers k 0 }
{
    tables::POWERS[k]
}

// The exponent of an element that is not 0.
pub fn log(x: u8) -> usize
    requires { 0 < x }
    ensures { (result < 255) × (get_or powers result 0 ≡ x) }
{
    usize::from(tables::LOGS[usize::from(x)])
}

// x times x times x.
pub fn cube(x: u8) -> u8
    ensures { result ≡ cube x }
{
    tables::CUBES[usize::from(x)]
}

// x times y, of which neither is 0.
#[tactic(auto, using(crate::proofs::PowerLaws::multiplying))]
pub fn times(x: u8, y: u8) -> u8
    requires { (0 < x) × (0 < y) }
    ensures { result ≡ x · y }
{
    let k = log(x) + log(y);
    if k < 255 { power(k) } else { power(k - 255) }
}

// x over y, which is not 0.
#[tactic(auto, using(crate::proofs::PowerLaws::dividing))]
pub fn over(x: u8, y: u8) -> u8
    requires { 0 < y }
    ensures { result · y ≡ x }
{
    if x == 0 {
        return 0;
    }
    let i = log(x);
    let j = log(y);
    if i < j {
        power(i + 255 - j)
    } else {
        power(i - j)
    }
}
