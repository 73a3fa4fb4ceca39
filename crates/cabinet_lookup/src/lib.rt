// The value of a tag in a site's list of start objects, or else in the maker's list of defaults.
//
// `lookup_value` returns the value in place: a part of one of the two lists. `lookup_word` states which list has the
// tag and where that part lies, as one word, for a host in C. A list is read from its front up to the first bytes that
// are no whole primitive object.
#![tactic(auto)]

ghost use Rattle.std.specs.Prelude.{◌≡◌, ◌+◌, ◌++◌, ◌≤◌, ◌<◌, length};
ghost use Rattle.cabinet_lookup.specs.Value.{lookup_value};
ghost use Rattle.cabinet_lookup.specs.Place.{lookup_first, span_in_site_then_defaults, span_bytes};
ghost use Rattle.cabinet_lookup.specs.Address.{address_after, address_of_value};
ghost use Rattle.cabinet_lookup.specs.Word.{lookup_word_of_span, lookup_word};
ghost use Rattle.cabinet_lookup.specs.Named.{LookupWordDescribesPart};

// The most bytes that both lists together may have for a place to be a word.
pub const MOST: usize = 0xFFFFFFFF;

// The word of longer lists.
pub const TOO_LONG: u64 = 0xFFFFFFFFFFFFFFFF;

// The source in bits 16 and 17 of a word: neither list has the tag.
const NOWHERE: u64 = 0;

// The source in bits 16 and 17 of a word: the site's list has the tag.
const SITE: u64 = 1;

// The source in bits 16 and 17 of a word: the defaults have the tag, and the site's list does not.
const DEFAULTS: u64 = 2;

// Where a value lies: its first byte, counted from 0, and how many there are.
#[derive(Clone, Copy)]
pub struct LookupSpan {
    pub start: usize,
    pub len: usize,
}

impl LookupSpan {
    // The bytes that lie there.
    fn of(self, bytes: &[u8]) -> &[u8]
        requires { self.start + self.len ≤ length bytes.now }
        ensures value { result.now ≡ span_bytes bytes.now self }
        ensures in_place { result.ref_ptr ≡ address_after self.start bytes.entry.ref_ptr }
    {
        &bytes[self.start..self.start + self.len]
    }

    // The place as one word: the start in bits 32 to 63, the source in bits 16 and 17, the length in bits 0 to 15.
    fn word(self, source: u64) -> u64
        requires short { self.start + self.len < 0x100000000 }
        requires few { source ≤ 2 }
        ensures { result ≡ lookup_word_of_span source self }
    {
        self.start as u64 * 0x100000000 + source * 0x10000 + self.len as u64
    }
}

// The value of the tag: a part of the site's list where that has the tag, else a part of the defaults.
pub fn lookup_value<'a>(site: &'a [u8], defaults: &'a [u8], tag: u32) -> &'a [u8]
    ensures value { result.now ≡ lookup_value tag site.now defaults.now }
    ensures place { result.now ≡ span_bytes (site.now ++ defaults.now) (span_in_site_then_defaults tag site.now defaults.now) }
    ensures in_place { result.ref_ptr ≡ address_of_value tag site.entry defaults.entry }
    ensures named { LookupWordDescribesPart tag site.entry defaults.entry result }
{
    if let Some(p) = first(site, tag) {
        return p.of(site);
    }
    match first(defaults, tag) {
        Some(p) => p.of(defaults),
        None => &defaults[0..0],
    }
}

// Where that part lies, counted over the site's bytes and then the defaults': the start in bits 32 to 63, the source in
// bits 16 and 17, the length in bits 0 to 15.
pub fn lookup_word(site: &[u8], defaults: &[u8], tag: u32) -> u64
    ensures { result ≡ lookup_word tag site.now defaults.now }
{
    let count = site.len();
    if MOST < count.saturating_add(defaults.len()) {
        return TOO_LONG;
    }
    if let Some(p) = first(site, tag) {
        return p.word(SITE);
    }
    if let Some(p) = first(defaults, tag) {
        let start = count + p.start;
        return LookupSpan { start, ..p }.word(DEFAULTS);
    }
    LookupSpan {
        start: count,
        len: 0,
    }
    .word(NOWHERE)
}

// Where the value of the first object of the tag lies in one list.
fn first(bytes: &[u8], tag: u32) -> Option<LookupSpan>
    ensures { result ≡ lookup_first tag bytes.now }
{
    // Kept: a loop, since it returns where a value lies; `tlv::PrimitiveObjects` gives tags and values.
    let mut at = 0;
    loop {
        let h = tlv::primitive_at_front(&bytes[at..])?;
        let start = at + h.start;
        let len = h.len;
        if h.tag == tag {
            return Some(LookupSpan { start, len });
        }
        at = start + len;
    }
}
