// A DOUBLE, given as its 64 bits: its rank key, and its thousandths.
ghost use Rattle.std.specs.Prelude.{◌≡◌, ℤ};
ghost use Rattle.fixes.specs.Keys.{key};
ghost use Rattle.fixes.specs.Values.{NansAreNans, KeysBelow, KeysNoLater, KeysAsWholeNumbers, NumbersInUnits, NansLast};
ghost use Rattle.fixes.specs.Thousandths.{thousandths_of, ThousandthsAreExact};

// The low 63 bits; the bits of the infinity; the sign bit.
const SIZE: u64 = 0x7FFF_FFFF_FFFF_FFFF;

const INFINITE: u64 = 0x7FF0_0000_0000_0000;

const SIGN: u64 = 0x8000_0000_0000_0000;

// The bits of 1,000.
const THOUSAND: u64 = 0x408f_4000_0000_0000;

// The least exponent field of a number that has a thousandth.
const THOUSANDTH: u64 = 1012;

// Keys compare as the numbers do, and a NaN comes last.
pub fn rank_key(bits: u64) -> i64
    ensures { result ≡ key bits }
{
    let m = bits & SIZE;
    if m > INFINITE {
        i64::MAX
    } else if bits >= SIGN {
        -(m as i64)
    } else {
        m as i64
    }
}

// The thousandths, exact and rounded down; -1 for a NaN, below 0 and from 1,000 on.
pub fn thousandths(bits: u64) -> i32
    ensures { result ≡ thousandths_of bits }
{
    if bits == SIGN {
        return 0;
    }
    // All with the sign bit set have larger bits, too.
    if bits >= THOUSAND {
        return -1;
    }
    let exponent = bits >> 52;
    let fraction = bits % 0x10_0000_0000_0000;
    if exponent < THOUSANDTH {
        return 0;
    }
    let significand = fraction + 0x10_0000_0000_0000;
    (significand * 1000 >> (1075 - exponent)) as i32
}

// That rank keys compare as IEEE 754 has the numbers and infinities, and that the NaNs come last.
pub fn keys_compare() -> u8
    ensures nans { NansAreNans }
    ensures below { KeysBelow }
    ensures no_later { KeysNoLater }
    ensures whole_numbers { KeysAsWholeNumbers }
    ensures in_units { NumbersInUnits }
    ensures nans_last { NansLast }
{
    0
}

// That thousandths are those of the number that IEEE 754 has for the bits.
pub fn thousandths_are_exact() -> u8
    ensures { ThousandthsAreExact }
{
    0
}
