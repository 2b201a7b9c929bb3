// The lines of a text, each with its LF.

ghost use Rattle.std.specs.Prelude.{◌≡◌, ◌++◌, false, IfSome, IfNone};
ghost use Rattle.std.specs.List.{position};
ghost use Rattle.sci_text.specs.Lines.{is_lf, has_lf, with_lf};

fn line_end(bytes: &[u8]) -> Option<usize>
    ensures { result ≡ position is_lf bytes.now }
{
    bytes.iter().position(|byte| *byte == b'\n')
}

/// The first line, without its LF, and what stands behind it; none where there is no LF.
#[tactic(auto, using(crate::proofs::Ends::line_within, crate::proofs::Ends::line_clear, crate::proofs::Ends::line_split, crate::proofs::Ends::no_line))]
pub fn split_line(bytes: &[u8]) -> Option<(&[u8], &[u8])>
    ensures clear { IfSome result (λ x. has_lf x.0.now ≡ false) }
    ensures split { IfSome result (λ x. bytes.now ≡ with_lf x.0.now ++ x.1.now) }
    ensures none { IfNone result (has_lf bytes.now ≡ false) }
{
    let end = line_end(bytes)?;
    Some((&bytes[..end], &bytes[end + 1..]))
}
