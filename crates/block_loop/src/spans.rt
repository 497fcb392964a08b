//! Where blocks lie in a view.

ghost use Rattle.std.specs.Prelude.{◌≡◌, ◌<◌, length};
ghost use Rattle.std.specs.List.{position_from};
ghost use Rattle.block_loop.specs.Spans.{span_of, spans_share};

use block_codec::Block;

/// Where a block lies: its offset and its size, both in bytes.
#[derive(Debug, Clone, Copy, Default)]
pub(crate) struct Span {
    /// The offset of the block's first byte.
    pub(crate) at: u32,
    /// The block's size in bytes.
    pub(crate) size: u32,
}

/// Where this block lies.
pub(crate) fn span_in(block: &Block) -> Span
    ensures { result ≡ span_of block.now }
{
    Span {
        at: block.at(),
        size: block.size(),
    }
}

/// Whether the two share a byte.
fn share(one: Span, two: Span) -> bool
    ensures { result ≡ spans_share one two }
{
    u64::from(one.at) < u64::from(two.at) + u64::from(two.size)
        && u64::from(two.at) < u64::from(one.at) + u64::from(one.size)
}

/// The place of the first that shares a byte with this one.
pub(crate) fn first_shared(spans: &[Span], new: Span) -> Option<u32>
    requires { length spans.now < 33 }
    ensures { result ≡ position_from (λ s. spans_share s new) 0 spans.now }
{
    for (i, span) in spans.iter().enumerate() {
        if share(*span, new) {
            return Some(i as u32);
        }
    }
    None
}
