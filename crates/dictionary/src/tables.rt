// The table of the dictionary in memory, for a call that reads many rows.
ghost use Rattle.std.specs.Prelude.{◌≡◌, ℕ, ◌^◌, ◌≤◌, ◌<◌};
ghost use Rattle.dictionary.specs.Rows.{dictionary_rows, row_at, row_count, find_row};
ghost use Rattle.dictionary.specs.Search.{tags_of, PartProbesCountedAndSufficient, halving_search_result_in_part};
ghost use Rattle.dictionary.specs.Packing.{attributes_of};
ghost use Rattle.dictionary.specs.Tables.{AreDictionaryTables};

use crate::rows::{CODES, TAGS};
use crate::{ROWS, RowAttributes, SearchResult};

// The tags and the numbers of all rows. An array that is read at a place known only when the code runs is built anew
// each time: a call that reads many rows makes this once and passes it down.
// Kept: two columns and no array of rows, as `dictionary_tags` and `packed_row_attributes` promise each by itself, and a
// search reads the tags alone.
#[derive(Clone, Copy)]
pub struct DictionaryTables {
    pub tags: [u32; ROWS],
    pub codes: [u32; ROWS],
    ghost rows: { AreDictionaryTables tags codes },
}

impl DictionaryTables {
    // The dictionary's tables.
    pub fn new() -> DictionaryTables {
        DictionaryTables {
            tags: TAGS,
            codes: CODES,
        }
    }

    // The row of a tag, and the probes of its search, as `find_row` has them.
    pub fn find_row(&self, tag: u32) -> SearchResult
        ensures found { result.found ≡ find_row dictionary_rows tag }
        ensures halving { result ≡ halving_search_result_in_part (tags_of dictionary_rows) tag }
        ensures few { (k : ℕ) → row_count < 2 ^ k → result.probes ≤ k }
        ensures counted { PartProbesCountedAndSufficient (tags_of dictionary_rows) tag result }
    {
        crate::find_row(&self.tags, tag)
    }

    // What a row states.
    pub fn attributes_of(&self, row: usize) -> RowAttributes
        requires { row < row_count }
        ensures { result ≡ attributes_of (row_at row) }
    {
        crate::unpack_row_attributes(self.codes[row])
    }
}
