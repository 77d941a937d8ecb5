// One soft value: the product of an amplitude and a scale, rounded once in f32, to the nearest whole number in range.
#![tactic(auto)]

ghost use Rattle.std.specs.Prelude.{◌≡◌, not, min, max, ◌≤◌, T};
ghost use Rattle.std.specs.Float.{binary32};
ghost use Rattle.std.specs.Float.Ieee.{is_nan, of_bits};
ghost use Rattle.std.specs.Float.Ieee.Positive.{positive};
ghost use Rattle.std.specs.Float.Ieee.Scale.{finite};
ghost use Rattle.rounding.specs.Rounding.{rounded, limited, nearest_limited};
ghost use Rattle.soft_value.specs.Value.{soft_value};

// w / 2^25, which is at most 127, to the nearest whole number: a half is added, and the whole part taken.
fn nearest(w: u32) -> u8
    requires { w ≤ 4261412864 }
    ensures { result ≡ rounded w 33554432 }
{
    ((w + 16777216) / 33554432) as u8
}

// The patterns of 1/4, which goes to 0, and of 127.
const LEAST: u32 = 0x3e800000;

const GREATEST: u32 = 0x42fe0000;

// A pattern without its sign, limited to these two.
fn limited_pattern(pattern: u32) -> u32
    ensures { result ≡ min 0x42fe0000 (max 0x3e800000 pattern) }
{
    pattern.max(LEAST).min(GREATEST)
}

// The limited size of the number whose pattern, without its sign, is given.
fn magnitude(pattern: u32) -> u8
    requires { pattern ≤ 2139095040 }
    ensures { result ≡ limited (of_bits binary32 pattern) }
{
    let within = limited_pattern(pattern);
    let digits = within % 8388608 + 8388608;
    nearest(digits << (within / 8388608 - 125))
}

// A product to the nearest whole number, limited to -127 to 127.
fn nearest_limited(p: f32) -> i8
    requires { T (not (is_nan p)) }
    ensures { result ≡ nearest_limited p }
{
    let pattern = p.to_bits();
    let size = magnitude(pattern % 2147483648) as i8;
    if pattern < 2147483648 { size } else { -size }
}

/// The soft value of an amplitude.
pub fn quantise(scale: f32, x: f32) -> i8
    requires { T (positive scale) × T (finite x) }
    ensures { result ≡ soft_value scale x }
{
    nearest_limited(x * scale)
}

/// Whether a number is neither a NaN nor infinite.
pub fn is_finite(x: f32) -> bool
    ensures { result ≡ finite x }
{
    // The contract has the definitions' word for it, which std's has not.
    x.is_finite()
}

/// Whether a number is finite and above zero.
pub fn is_positive(x: f32) -> bool
    ensures { result ≡ positive x }
{
    x.is_finite() && 0.0 < x
}
