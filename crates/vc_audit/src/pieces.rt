//! Lines of a report, each with its line feed.

ghost use Rattle.std.specs.Prelude.{◌≡◌, ◌≤◌, length, drop};
ghost use Rattle.vc_model.specs.Script.{first_lines, fault_in, split_lines};
ghost use Rattle.vc_model.specs.Audit.{same_lines};
ghost use Rattle.vc_audit.specs.Replays.{judged};

use memchr::memchr;

/// How the lines of the report that a line of the script prints are.
#[derive(Clone, Copy)]
pub(crate) enum LineEnd {
    /// They are what the device prints: so many bytes, and so many lines.
    Same { length: usize, lines: u64 },
    /// They aren't. So many of them are.
    Wrong { lines: u64 },
    /// The engine gave up in the job, of which the report tells no fault.
    Fault,
}

/// The first line.
pub(crate) fn first_line(report: &[u8]) -> &[u8]
    ensures first { result.now ≡ first_lines report.now 1 }
    ensures within { length result.now ≤ length report.now }
{
    match memchr(b'\n', report) {
        Some(at) => &report[..=at],
        None => report,
    }
}

/// What follows so many bytes.
pub(crate) fn rest_of(text: &[u8], count: usize) -> &[u8]
    requires { count ≤ length text.now }
    ensures { result.now ≡ drop count text.now }
{
    &text[count..]
}

/// The first two lines.
pub(crate) fn two_lines(report: &[u8]) -> &[u8]
    ensures { result.now ≡ first_lines report.now 2 }
{
    let first = first_line(report).len();
    let second = first_line(rest_of(report, first)).len();
    &report[..first + second]
}

/// Whether the text tells that the engine gave up.
pub(crate) fn tells_fault(text: &[u8]) -> bool
    ensures { result ≡ fault_in text.now }
{
    let mark = b" finish fault\n".as_slice();
    rest_of(text, text.len().saturating_sub(mark.len())) == mark
}

// How many lines two texts begin with alike.
fn same_lines(text: &[u8], wanted: &[u8]) -> u64
    ensures { result ≡ same_lines (split_lines text.now) (split_lines wanted.now) }
{
    let mut left = text;
    let mut others = wanted;
    let mut same = 0;
    'comparing: while !left.is_empty() {
        let line = first_line(left);
        let other = first_line(others);
        if line != other {
            return same;
        }
        same += 1;
        left = rest_of(left, line.len());
        others = rest_of(others, other.len());
    }
    same
}

/// Compares lines of the report with those that are wanted in their place.
pub(crate) fn judge(text: &[u8], wanted: &[u8], lines: u64) -> LineEnd
    ensures { result ≡ judged text.now wanted.now lines }
{
    if text == wanted {
        LineEnd::Same {
            length: text.len(),
            lines,
        }
    } else {
        LineEnd::Wrong {
            lines: same_lines(text, wanted),
        }
    }
}
