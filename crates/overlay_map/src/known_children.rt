//! What is known of the chunks of a table, on the way through them.

ghost use Rattle.std.specs.Prelude.{◌≡◌, []};
ghost use Rattle.type_chunks.specs.string_pool.Pool.{pool_of};
ghost use Rattle.overlay_map.specs.KnownChildren.{KnowsChildren, or_empty};

use type_chunks::Pool;

/// What the chunks so far are.
#[derive(Clone, Copy)]
pub(crate) struct KnownChildren<'a> {
    pub packages: usize,
    /// The first pool.
    pub strings: Option<Pool<'a>>,
}

impl<'a> KnownChildren<'a> {
    pub fn none() -> Self
        ensures { KnowsChildren result [] }
    {
        KnownChildren {
            packages: 0,
            strings: None,
        }
    }

    /// The strings of the first pool; without a pool there are none.
    pub fn strings_or_none(&self) -> Pool<'a>
        ensures { pool_of result ≡ or_empty self.now.strings }
    {
        match self.strings {
            Some(pool) => pool,
            None => Pool::empty(),
        }
    }
}
