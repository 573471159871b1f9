//! What is read of bytes without memory.

use crate::marked::{begin, bytes_of, end, tell};
use bags_themes::Table;
use chunk_walk::{Chunks, chunk_at};
use std::test::Fail;
use string_pool::Pool;

/// The kinds of the chunks that make the bytes.
pub fn chunks(rt: &HostRuntime, word: &str) -> Result<(), Fail> {
    let bytes = bytes_of(rt.alloc(), word)?;
    begin(rt);
    for chunk in Chunks::new(&bytes, 0) {
        tell(rt, chunk?.kind);
    }
    end(rt);
    Ok(())
}

/// A name that is found in a table, and one that is not.
pub fn names(rt: &HostRuntime, word: &str) -> Result<(), Fail> {
    let bytes = bytes_of(rt.alloc(), word)?;
    let table = Table::open(rt.alloc(), &bytes)?;
    begin(rt);
    tell(rt, (table.find("s", "k"), table.find("s", "x")));
    end(rt);
    Ok(())
}

/// The spans of a style of a pool, by its index.
pub fn spans(rt: &HostRuntime, word: &str, index: &str) -> Result<(), Fail> {
    let index = index.parse::<usize>()?;
    let bytes = bytes_of(rt.alloc(), word)?;
    spans_in(rt, &bytes, index)
}

fn spans_in(rt: &HostRuntime, bytes: &[u8], index: usize) -> Result<(), Fail> {
    let pool = Pool::open(&chunk_at(bytes, 0, 8)?)?;
    begin(rt);
    match pool.spans(index) {
        Ok(spans) => {
            for span in spans {
                tell(rt, span);
            }
        }
        Err(fault) => tell(rt, fault),
    }
    end(rt);
    Ok(())
}
