//! Rules that are broken, and the least of them.

ghost use Rattle.std.specs.Prelude.{◌≡◌};
ghost use Rattle.st_rules.specs.Faults as faults;

use plc_text::Code;

fn rank(code: Code) -> u8
    ensures { result ≡ faults.rank code }
{
    match code {
        Code::E01 => 1,
        Code::E02 => 2,
        Code::E03 => 3,
        Code::E04 => 4,
        Code::E05 => 5,
        Code::E06 => 6,
        Code::E07 => 7,
        Code::E08 => 8,
        Code::E09 => 9,
        Code::E10 => 10,
        Code::E11 => 11,
        Code::E12 => 12,
        Code::E13 => 13,
        Code::E14 => 14,
        Code::E15 => 15,
        Code::E16 => 16,
        Code::E17 => 17,
    }
}

fn comes_before(a: (Code, u32), b: (Code, u32)) -> bool
    ensures { result ≡ faults.comes_before a b }
{
    let (code, line) = a;
    let (other, other_line) = b;
    rank(code) < rank(other) || rank(code) == rank(other) && line < other_line
}

/// The first of both: the lesser code, or of one code the lesser line.
pub fn earlier(a: Option<(Code, u32)>, b: Option<(Code, u32)>) -> Option<(Code, u32)>
    ensures { result ≡ faults.earlier a b }
{
    match (a, b) {
        (None, _) => b,
        (Some(_), None) => a,
        (Some(x), Some(y)) => Some(if comes_before(y, x) { y } else { x }),
    }
}

/// The rule is broken at the line.
pub fn at(code: Code, line: u32) -> Option<(Code, u32)>
    ensures { result ≡ faults.least (faults.at code line) }
{
    Some((code, line))
}

/// The rule is broken at the line where the test holds.
pub fn when(test: bool, code: Code, line: u32) -> Option<(Code, u32)>
    ensures { result ≡ faults.least (faults.when test code line) }
{
    if test { Some((code, line)) } else { None }
}
