//! The lines of a scenario's bytes, one after another.

ghost use Rattle.std.specs.Prelude.{◌≡◌, ◌<◌, [], ◌∷◌, length, nat_eq, position, IfSome, MatchOption};
ghost use Rattle.plc_text.specs.Lines.{lines_of};
ghost use Rattle.scenario.specs.Reading.{without_returns, unmarked, scenario_lines};
ghost use Rattle.scenario.specs.Private.Lines.{without_return as without_return_of};

use std::marker::Model;

const BYTE_ORDER_MARK: &[u8; 3] = b"\xef\xbb\xbf";

/// The lines that are still to be read. Contracts see them as a list.
#[derive(Drop)]
pub struct ScenarioLines<'a> {
    rest: &'a [u8],
}

impl<'a> Model for ScenarioLines<'a> {
    ghost use Rattle.std.specs.Prelude.{List, ℕ};
    ghost use Rattle.plc_text.specs.Lines.{lines_of};
    ghost use Rattle.scenario.specs.Reading.{without_returns};

    ghost Value = { List (List ℕ) };

    ghost view = { λ lines. lines_of (without_returns lines.rest.now) };
}

impl<'a> ScenarioLines<'a> {
    /// The lines of the bytes, behind a byte order mark.
    pub fn new(bytes: &'a [u8]) -> ScenarioLines<'a>
        ensures { result ≡ scenario_lines bytes.now }
    {
        ScenarioLines {
            rest: unmarked(bytes),
        }
    }

    /// Takes the next line, if there is one. It comes without the LF that ends it, and without a CR directly before that.
    pub fn next_line(&mut self) -> Option<&'a [u8]>
        ensures { MatchOption result ((self.old ≡ []) × (self.new ≡ [])) (λ line. self.old ≡ line.now ∷ self.new) }
    {
        if self.rest.is_empty() {
            return None;
        }
        let (line, rest) = first_line(self.rest);
        self.rest = rest;
        Some(line)
    }
}

/// The bytes behind a byte order mark, where one stands at the front.
fn unmarked(bytes: &[u8]) -> &[u8]
    ensures { result.now ≡ unmarked bytes.now }
{
    if bytes.starts_with(BYTE_ORDER_MARK) {
        &bytes[3..]
    } else {
        bytes
    }
}

/// The first line and what follows its end.
fn first_line(bytes: &[u8]) -> (&[u8], &[u8])
    requires { 0 < length bytes.now }
    ensures { lines_of (without_returns bytes.now) ≡ result.0.now ∷ lines_of (without_returns result.1.now) }
{
    match line_feed(bytes) {
        Some(end) => (without_return(&bytes[..end]), &bytes[end + 1..]),
        None => (bytes, &[]),
    }
}

/// The place of the first LF.
fn line_feed(bytes: &[u8]) -> Option<usize>
    ensures place { result ≡ position (λ b. nat_eq b 10) bytes.now }
    ensures within { IfSome result (λ end. end < length bytes.now) }
{
    bytes.iter().position(|byte| *byte == b'\n')
}

/// The bytes without a CR at their end.
fn without_return(bytes: &[u8]) -> &[u8]
    ensures { result.now ≡ without_return_of bytes.now }
{
    bytes.strip_suffix(b"\r").unwrap_or(bytes)
}
