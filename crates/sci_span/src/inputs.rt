// Where the values lie that go into a block.
ghost use Rattle.std.specs.Prelude.{◌≡◌, ◌≤◌, ◌<◌, ◌↔◌, length, take, map, All, Any, IfOk, IfSome, IsNone};
ghost use Rattle.sci_span.specs.Values.{gathered, spans_length, AreWithin};
ghost use Rattle.sci_base.specs.Lists.{at};
ghost use Rattle.sci_span.specs.Singles.{ArePlacesOf, single};

use crate::span::{Span, copy_spans};
use sci_base::NoMemory;
use std::alloc::Global;
use std::marker::Model;

/// Where the outputs lie that feed the inputs of a block, in the order of its inputs.
#[derive(Drop)]
pub struct InputSpans {
    spans: Vec<Span>,
    // their places, where each has one element, as most have
    singles: Option<Vec<usize>>,
}

impl Model for InputSpans {
    ghost use Rattle.std.specs.Prelude.{List};
    ghost use Rattle.sci_span.specs.declared.span.Span.{Span};
    ghost use Rattle.sci_span.specs.Singles.{ArePlacesOf};

    ghost Value = { List Span };

    ghost view = { λ i. i.spans.items };

    ghost invariant = { λ i. ArePlacesOf i.spans.items i.singles };
}

/// The places of spans that have one element each; none where one has not.
fn places_of(alloc: Global, spans: &[Span]) -> Result<Option<Vec<usize>>, NoMemory>
    ensures { IfOk result (λ places. ArePlacesOf spans.now places) }
{
    let mut places = Vec::with_capacity(alloc, spans.len())?;
    for span in spans {
        if span.len != 1 {
            return Ok(None);
        }
        places.push(span.start)?;
    }
    Ok(Some(places))
}

/// Copies the values at some places, one behind the other. The answer is how many they are.
fn copy_singles(values: &[i64], places: &[usize], ins: &mut [i64]) -> usize
    requires from { All (λ k. k < length values.now) places.now }
    requires to { length places.now ≤ length ins.old }
    ensures count { result ≡ length places.now }
    ensures copied { take result ins.new ≡ map (at values.now) places.now }
{
    for k in 0..places.len() {
        ins[k] = values[places[k]];
    }
    places.len()
}

impl InputSpans {
    /// Those at these spans.
    pub fn of(alloc: Global, spans: Vec<Span>) -> Result<InputSpans, NoMemory>
        ensures { IfOk result (λ i. i ≡ spans.items) }
    {
        let singles = places_of(alloc, &spans)?;
        Ok(InputSpans { spans, singles })
    }

    /// One span for each input.
    pub fn spans(&self) -> &[Span]
        ensures { result.now ≡ self.now }
    {
        &self.spans
    }

    /// Their places, where each has one element; none where one has not.
    #[inline(always)]
    pub fn singles(&self) -> Option<&[usize]>
        ensures some { IfSome result (λ places. self.now ≡ map single places.now) }
        ensures none { IsNone result ↔ Any (λ s. s.len ≡ 1 → ⊥) self.now }
    {
        match &self.singles {
            Some(places) => Some(places.as_slice()),
            None => None,
        }
    }

    /// Copies the values, one behind the other. The answer is how many they are.
    pub fn gather(&self, values: &[i64], ins: &mut [i64]) -> usize
        requires within { AreWithin values.now self.now }
        requires room { spans_length self.now ≤ length ins.old }
        ensures count { result ≡ spans_length self.now }
        ensures copied { take result ins.new ≡ gathered values.now self.now }
    {
        match &self.singles {
            Some(places) => copy_singles(values, places, ins),
            None => copy_spans(values, &self.spans, ins),
        }
    }
}
