//! String pools.

ghost use Rattle.std.specs.Prelude.{◌≡◌, ◌+◌, ◌*◌, ◌≤◌, ◌==◌, length, IfOk};
ghost use Rattle.string_pool.specs.Layout.{offset_size};

use crate::fault::PoolFault;
use crate::layout::{OFFSET_SIZE, pool_header as header};
use crate::part::{before_styles, bytes_from, part_from};
use crate::pool_flags::PoolFlags;
use crate::spans::Spans;
use crate::text::Text;
use bitflags::Flags;
use chunk_walk::{Chunk, u32_within};
use string_bytes::{StringFault, utf8_bytes, utf16_bytes};

/// A string pool whose header was checked (AOSP: `ResStringPool`), lent from the bytes of its file.
/// A string or a style is checked when it is asked for.
#[derive(Clone, Copy)]
pub struct Pool<'a> {
    utf8: bool,
    string_count: u32,
    style_count: u32,
    /// Four bytes for each string, then four for each style.
    offsets: &'a [u8],
    strings: &'a [u8],
    styles: &'a [u8],
    ghost offsets_fit: { offset_size * (string_count + style_count) ≤ length offsets.now },
}

impl<'a> Pool<'a> {
    ghost use Rattle.chunk_walk.specs.Chunk.{chunk_of};
    ghost use Rattle.string_pool.specs.Lent.{IsRangeOf};
    ghost use Rattle.string_pool.specs.Pool.{pool_of, seen_pool, empty_pool, pool_in};
    ghost use Rattle.string_pool.specs.Text.{text_of, seen_text, text_in};
    ghost use Rattle.string_pool.specs.Style.{style_in};

    /// Opens the pool that a chunk is, whatever kind the chunk says.
    #[tactic(auto, using(crate::proofs::Ranges::lent_parts), unfolding(crate::specs::Pool::pool_in))]
    pub fn open(chunk: &Chunk<'a>) -> Result<Pool<'a>, PoolFault>
        ensures pool { seen_pool result ≡ pool_in (chunk_of chunk.now) }

        // The bytes of its strings are a range of those of the chunk.
        ensures lent { IfOk result (λ pool. IsRangeOf chunk.now.whole.now (pool_of pool).strings) }
    {
        if chunk.header.len() < header::LEAST_SIZE {
            return Err(PoolFault::HeaderSize);
        }
        let string_count = u32_within(chunk.header, header::STRING_COUNT);
        let style_count = u32_within(chunk.header, header::STYLE_COUNT);
        if chunk.body.len() < OFFSET_SIZE * (string_count as usize + style_count as usize) {
            return Err(PoolFault::Offsets);
        }
        let flags = PoolFlags::from_bits_retain(u32_within(chunk.header, header::FLAGS));
        let strings_start = u32_within(chunk.header, header::STRINGS_START);
        let styles_start = u32_within(chunk.header, header::STYLES_START);
        let styles = part_from(chunk.whole, style_count, styles_start)?;
        let before_styles = before_styles(chunk.whole, style_count, styles_start);
        let strings = part_from(before_styles, string_count, strings_start)?;
        Ok(Pool {
            utf8: flags.is_utf8(),
            string_count,
            style_count,
            offsets: chunk.body,
            strings,
            styles,
        })
    }

    /// A pool without strings.
    pub fn empty() -> Pool<'a>
        ensures { pool_of result ≡ empty_pool }
    {
        Pool {
            utf8: false,
            string_count: 0,
            style_count: 0,
            offsets: &[],
            strings: &[],
            styles: &[],
        }
    }

    /// How many strings the pool has.
    pub fn len(&self) -> usize
        ensures { result ≡ (pool_of self.now).string_count }
    {
        self.string_count as usize
    }

    /// Whether the pool has no strings.
    pub fn is_empty(&self) -> bool
        ensures { result ≡ ((pool_of self.now).string_count == 0) }
    {
        self.string_count == 0
    }

    /// Whether the strings are UTF-8, and not UTF-16: for a report on the pool. Who reads a string needs no
    /// such question, since its `Text` says which it is.
    ///
    /// ```text
    /// let encoding = if table.strings().is_utf8() { "UTF-8" } else { "UTF-16" };
    /// ```
    pub fn is_utf8(&self) -> bool
        ensures { result ≡ (pool_of self.now).utf8 }
    {
        self.utf8
    }

    /// The string of an index (AOSP: `ResStringPool::stringAt`, `string8At`).
    #[tactic(auto, unfolding(crate::specs::Text::text_in))]
    pub fn get(&self, index: usize) -> Result<Text<'a>, StringFault>
        ensures text { seen_text result ≡ text_in (pool_of self.now) index }

        // Its bytes are a range of those that the strings stand in.
        ensures lent { IfOk result (λ text. IsRangeOf (pool_of self.now).strings (text_of text).bytes) }
    {
        if index >= self.string_count as usize {
            return Err(StringFault::NoSuch);
        }
        let offset = u32_within(self.offsets, OFFSET_SIZE * index) as usize;
        let left = bytes_from(self.strings, offset);
        if self.utf8 {
            Ok(Text::Utf8(utf8_bytes(left)?))
        } else {
            Ok(Text::Utf16(utf16_bytes(left)?))
        }
    }

    /// The spans of a style (AOSP: `ResStringPool::styleAt`): for a string that is shown with its marks, such
    /// as `<b>`. The style of an index is that of the string of this index; a pool has them for the first of
    /// its strings, so `NoSuch` says that a string has none.
    ///
    /// ```text
    /// for span in pool.spans(index)? {
    ///     let mark = pool.get(span.name as usize)?;
    ///     mark.write_shown(&mut out)?; // "b", from span.first to span.last
    /// }
    /// ```
    #[tactic(auto, unfolding(crate::specs::Style::style_in))]
    pub fn spans(&self, index: usize) -> Result<Spans<'a>, StringFault>
        ensures { result ≡ style_in (pool_of self.now) index }
    {
        if index >= self.style_count as usize {
            return Err(StringFault::NoSuch);
        }
        let at = OFFSET_SIZE * (self.string_count as usize + index);
        let offset = u32_within(self.offsets, at) as usize;
        Spans::read(bytes_from(self.styles, offset))
    }
}
