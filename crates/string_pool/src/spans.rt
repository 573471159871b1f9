//! The spans of a style.

ghost use Rattle.std.specs.Prelude.{◌≡◌, ◌≤◌, length};
ghost use Rattle.string_pool.specs.Layout.{span_size};
ghost use Rattle.string_pool.specs.Style.{span_in, spans_in};

use crate::layout::span as layout;
use crate::span::Span;
use chunk_walk::u32_within;
use std::marker::Model;
use string_bytes::StringFault;

/// The spans of a style that are left, in the order of the file.
#[derive(Drop)]
pub struct Spans<'a> {
    count: usize,
    left: &'a [u8],
}

impl<'a> Model for Spans<'a> {
    ghost use Rattle.std.specs.Prelude.{List, ◌*◌, ◌≤◌, length};
    ghost use Rattle.string_pool.specs.declared.span.Span.{Span};
    ghost use Rattle.string_pool.specs.Layout.{span_size};
    ghost use Rattle.string_pool.specs.Spans.{listed_spans};

    ghost Value = { List Span };

    ghost view = { λ s. listed_spans s.count s.left.now };

    ghost invariant = { λ s. span_size * s.count ≤ length s.left.now };
}

impl<'a> Spans<'a> {
    /// The spans at the front of what is left, up to the name that ends them.
    #[tactic(auto, using(crate::proofs::SpanSteps::span_steps))]
    pub(crate) fn read(left: &'a [u8]) -> Result<Spans<'a>, StringFault>
        ensures { result ≡ spans_in left.now }
    {
        let mut count = 0;
        let mut behind = left;
        loop {
            if behind.len() < layout::NAME_SIZE {
                return Err(StringFault::Cut);
            }
            if u32_within(behind, layout::NAME) == layout::END {
                return Ok(Spans { count, left });
            }
            if behind.len() < layout::SIZE {
                return Err(StringFault::Cut);
            }
            let (_, others) = behind.split_at(layout::SIZE);
            behind = others;
            count += 1;
        }
    }
}

impl<'a> Iterator for Spans<'a> {
    ghost use Rattle.std.specs.Iterator.{YieldsFirst, item_count};

    type Item = Span;

    ghost next_gives = { YieldsFirst (λ s. s) };

    ghost remaining = { item_count (λ s. s) };

    #[tactic(auto, using(crate::proofs::SpanSteps::listed_steps))]
    fn next(&mut self) -> Option<Span> {
        if self.count == 0 {
            return None;
        }
        let span = first_span(self.left);
        let (_, behind) = self.left.split_at(layout::SIZE);
        self.left = behind;
        self.count -= 1;
        Some(span)
    }
}

// The span at the front of what is left.
fn first_span(left: &[u8]) -> Span
    requires { span_size ≤ length left.now }
    ensures { result ≡ span_in left.now }
{
    Span {
        name: u32_within(left, layout::NAME),
        first: u32_within(left, layout::FIRST),
        last: u32_within(left, layout::LAST),
    }
}
