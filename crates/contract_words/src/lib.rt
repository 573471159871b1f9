//! The words that the contracts of every crate share. There is no code here: `specs/` has the
//! words, `proofs/` the facts about them that the proofs of other crates cite.
//!
//! | word | says | file |
//! |---|---|---|
//! | `GivesOr` | a call returned exactly what is meant, or memory ran out | `specs/Exact.antt` |
//! | `FillsIn` | a call that takes no memory filled in what is meant, or has the fault that is meant | `specs/FillsIn.antt` |
//! | `checked_by` | the fault of the first condition that holds, else what comes then | `specs/Faults.antt` |
//! | `refuse`, `>>=` | the same as steps of a `do` | `specs/Faults.antt` |
//! | `with_front` | a list, and behind it what is read | `specs/Sequences.antt` |
//! | `joined` | the lists one after the other, or the first fault | `specs/Sequences.antt` |
//! | `joined_each` | what is read of each item, one after the other, or the first fault | `specs/Sequences.antt` |
//! | `joined_from` | the same for the numbers from one on and below another | `specs/Sequences.antt` |
//! | `with_before` | each item with the items that stand before it | `specs/Sequences.antt` |
//! | `Pushes` | a call pushed what is meant behind what was there | `specs/Sequences.antt` |
//! | `Writes` | a call wrote a text and nothing else, unless the writer failed | `specs/Writes.antt` |
//!
//! A contract of a crate above reads so:
//!
//! ```text
//! pub fn open(alloc: Global, bytes: &'a [u8]) -> Result<Table<'a>, TableFault>
//!     ensures { GivesOr OutOfMemory (λ table. table) result (table_in bytes.now) }
//! ```
#![tactic(auto)]
