//! The input of an audit: a script, and a report behind the separating line.

ghost use Rattle.std.specs.Prelude.{◌≡◌, option_map};
ghost use Rattle.vc_model.specs.Audit.{audit_input};
ghost use Rattle.vc_audit.specs.Parts.{now_of};

use crate::pieces::first_line;

/// The line between a script and a report.
const SEPARATOR: [u8; 5] = *b"====\n";

/// A script, and the report behind the separating line where there is one.
#[derive(Clone, Copy, Debug)]
pub struct Parts<'a> {
    /// What stands before the separating line, or all where there is none.
    pub script: &'a [u8],
    /// What stands behind it.
    pub report: Option<&'a [u8]>,
}

/// Cuts the input of an audit at the first separating line, which is exactly `====` and a line feed.
pub fn cut(input: &[u8]) -> Parts<'_>
    ensures script { result.script.now ≡ (audit_input input.now).script }
    ensures report { option_map now_of result.report ≡ (audit_input input.now).report }
{
    let mut at = 0;
    'cutting: while at < input.len() {
        let line = first_line(&input[at..]);
        if line == SEPARATOR.as_slice() {
            return Parts {
                script: &input[..at],
                report: Some(&input[at + 5..]),
            };
        }
        at += line.len();
    }
    Parts {
        script: input,
        report: None,
    }
}
