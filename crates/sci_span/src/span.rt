// Places that follow one another.
ghost use Rattle.std.specs.Prelude.{◌≡◌, ◌+◌, ◌≤◌, ◌<◌, ◌^◌, ◌++◌, take, drop, length, All};
ghost use Rattle.sci_span.specs.Values.{read_at, gathered, spans_length};

/// So many values, from a place on.
#[derive(Clone, Copy, Drop)]
pub struct Span {
    /// The first place, counted from 0.
    pub start: usize,
    /// How many.
    pub len: usize,
}

/// Copies the values of a span, to a place on.
fn copy_span(values: &[i64], span: Span, ins: &mut [i64], at: usize)
    requires from { span.start + span.len ≤ length values.now }
    requires to { at + span.len ≤ length ins.old }
    ensures { ins.new ≡ take at ins.old ++ (read_at values.now span ++ drop (at + span.len) ins.old) }
{
    // most outputs have one element
    if span.len == 1 {
        ins[at] = values[span.start];
        return;
    }
    for e in 0..span.len {
        ins[at + e] = values[span.start + e];
    }
}

/// Copies the values of some spans, one behind the other. The answer is how many they are.
// not inlined: it is called only where some input has not one element
#[inline(never)]
pub(crate) fn copy_spans(values: &[i64], spans: &[Span], ins: &mut [i64]) -> usize
    requires from { All (λ s. s.start + s.len ≤ length values.now) spans.now }
    requires to { spans_length spans.now ≤ length ins.old }
    ensures count { result ≡ spans_length spans.now }
    ensures copied { take result ins.new ≡ gathered values.now spans.now }
{
    let mut count = 0;
    for span in spans {
        copy_span(values, *span, ins, count);
        count += span.len;
    }
    count
}

/// How many values some spans have.
pub fn spans_length(spans: &[Span]) -> usize
    requires { spans_length spans.now < 2 ^ 63 }
    ensures { result ≡ spans_length spans.now }
{
    let mut count = 0;
    for span in spans {
        count += span.len;
    }
    count
}
