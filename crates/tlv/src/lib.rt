// One data object at the front of some bytes: its tag, where its value starts and how long it is.
//
// `tag_at` reads a tag alone, as a DOL needs it; `object_header` reads a whole object's header; `next_in_template` is
// what is next within a template's contents, and `next_behind_padding` the same. `primitive_at_front`,
// `PrimitiveObjects` and `is_primitive_list` are for bytes that hold primitive objects alone. The tree of an encoding,
// its count and its laws are in specs/.
#![tactic(auto)]

ghost use Rattle.std.specs.Prelude.{◌≡◌, ◌==◌, length, take_while};
ghost use Rattle.tlv.specs.Tag.{tag_at, tag_first_byte, is_template, is_private};
ghost use Rattle.tlv.specs.Length.{length_at};
ghost use Rattle.tlv.specs.Object.{header_of};
ghost use Rattle.tlv.specs.Tree.{next_in_template};
ghost use Rattle.tlv.specs.Padding.{PaddingDoesNotChangeParse, LeadingPaddingEndsAt};
ghost use Rattle.tlv.specs.Primitives.{primitive_at_front, primitive_objects, are_primitive_objects_parsed, leading_primitive_objects, object_read};
ghost use Rattle.std.specs.Iterator.{YieldsFirstBy, item_count};

// A tag: its bytes read as one number, and how many they are.
#[derive(Clone, Copy)]
pub struct Tag {
    pub number: u32,
    pub size: usize,
}

// A length: its value, and how many bytes carry it.
#[derive(Clone, Copy)]
pub struct TlvLength {
    pub len: usize,
    pub size: usize,
}

// An object's header: the tag, where the value starts, how many bytes it has, and whether the tag is a template's
// and of the private class.
#[derive(Clone, Copy)]
pub struct TlvHeader {
    pub tag: u32,
    pub start: usize,
    pub len: usize,
    pub template: bool,
    pub private: bool,
}

// What is next within a template's contents: nothing more, an object, or no object. An enum of its own, since it has
// three cases.
#[derive(Clone, Copy)]
pub enum NextInTemplate {
    End,
    Inner(TlvHeader),
    Malformed,
}

// The tag at the front. Each match asks for one byte more, so that a shorter tag is read with no test of what is behind
// it.
#[tactic(auto, using(crate::proofs::Laws::tag_size_by, crate::proofs::Laws::tag_none, crate::proofs::Laws::tag_one, crate::proofs::Laws::tag_two, crate::proofs::Laws::tag_three, basics::proofs::Laws::if_yes, basics::proofs::Laws::if_no, std::proofs::lemmas::Bool::Decides::nat_tests))]
pub fn tag_at(s: &[u8]) -> Option<Tag>
    ensures { result ≡ tag_at s.now }
{
    match *s {
        [] | [0, ..] => None,
        [a, ..] if a % 32 != 31 => Some(Tag {
            number: u32::from(a),
            size: 1,
        }),
        _ => match *s {
            [a, b, ..] if b < 0x80 => Some(Tag {
                number: u32::from(a) * 256 + u32::from(b),
                size: 2,
            }),
            _ => match *s {
                [_, 0x80, ..] => None,
                [a, b, c, ..] if c < 0x80 => Some(Tag {
                    number: (u32::from(a) * 256 + u32::from(b)) * 256 + u32::from(c),
                    size: 3,
                }),
                _ => None,
            },
        },
    }
}

// The length at the front.
#[tactic(auto, using(crate::proofs::Laws::length_by, basics::proofs::Laws::if_yes, basics::proofs::Laws::if_no, std::proofs::lemmas::Bool::Decides::nat_tests))]
fn length_at(s: &[u8]) -> Option<TlvLength>
    ensures { result ≡ length_at s.now }
{
    match *s {
        [n, ..] if n < 0x80 => Some(TlvLength {
            len: usize::from(n),
            size: 1,
        }),
        [0x81, n, ..] => Some(TlvLength {
            len: usize::from(n),
            size: 2,
        }),
        [0x82, high, low, ..] => Some(TlvLength {
            len: usize::from(high) * 256 + usize::from(low),
            size: 3,
        }),
        _ => None,
    }
}

// The first byte of a tag that is given as a number.
#[tactic(auto, using(crate::proofs::Laws::first_one, crate::proofs::Laws::first_two, crate::proofs::Laws::first_three))]
fn first_byte(tag: u32) -> u32
    ensures { result ≡ tag_first_byte tag }
{
    match tag {
        0..=0xFF => tag,
        0x100..=0xFFFF => tag / 0x100,
        _ => tag / 0x10000,
    }
}

// Whether a tag marks a template.
#[tactic(auto, unfolding(crate::specs::Tag::is_template))]
pub fn is_template(tag: u32) -> bool
    ensures { result ≡ is_template tag }
{
    first_byte(tag) / 32 % 2 == 1
}

// Whether a tag is of the private class.
#[tactic(auto, unfolding(crate::specs::Tag::is_private))]
pub fn is_private(tag: u32) -> bool
    ensures { result ≡ is_private tag }
{
    first_byte(tag) / 64 == 3
}

// The object at the front. Put inline in each walk over objects, where a call for each object would cost as much as the
// object does.
#[inline(always)]
pub fn object_header(s: &[u8]) -> Option<TlvHeader>
    ensures { result ≡ header_of s.now }
{
    let t = tag_at(s)?;
    let e = length_at(&s[t.size..])?;
    let start = t.size + e.size;
    let end = start + e.len;
    if s.len() < end {
        return None;
    }
    let first = s[0];
    Some(TlvHeader {
        tag: t.number,
        start,
        len: e.len,
        template: first / 32 % 2 == 1,
        private: first / 64 == 3,
    })
}

// What is next within a template's contents, after any bytes of 00; the value's start counts them.
#[tactic(auto, using(crate::proofs::NextObject::padding_ends))]
pub fn next_in_template(s: &[u8]) -> NextInTemplate
    ensures next { result ≡ next_in_template s.now }
    ensures padding { PaddingDoesNotChangeParse s.now }
{
    let at = padding(s);
    object_behind(s, at)
}

// The same, without the promise on padding.
pub fn next_behind_padding(s: &[u8]) -> NextInTemplate
    ensures { result ≡ next_in_template s.now }
{
    next_in_template(s)
}

// How many bytes of 00 are at the front.
fn padding(s: &[u8]) -> usize
    ensures { result ≡ length (take_while (λ b. b == 0) s.now) }
{
    s.iter().take_while(|b| **b == 0).count()
}

// What follows the padding, whose bytes are counted: the value's start is counted from the front.
fn object_behind(s: &[u8], at: usize) -> NextInTemplate
    requires { LeadingPaddingEndsAt s.now at }
    ensures { result ≡ next_in_template s.now }
{
    if at == s.len() {
        return NextInTemplate::End;
    }
    match object_header(&s[at..]) {
        Some(h) => NextInTemplate::Inner(TlvHeader {
            start: at + h.start,
            ..h
        }),
        None => NextInTemplate::Malformed,
    }
}

// The primitive object at the front; a template is none. Put inline as `object_header` is.
#[inline(always)]
#[tactic(auto, using(basics::proofs::Laws::if_yes, basics::proofs::Laws::if_no), unfolding(crate::specs::Primitives::primitive_at_front))]
pub fn primitive_at_front(s: &[u8]) -> Option<TlvHeader>
    ensures { result ≡ primitive_at_front s.now }
{
    object_header(s).filter(|h| !h.template)
}

// A primitive object: its tag and its value.
#[derive(Clone, Copy)]
pub struct PrimitiveObject<'a> {
    pub tag: u32,
    pub value: &'a [u8],
}

// The primitive objects at the front of some bytes, one after the other, up to the first bytes that are no whole
// primitive object: the bytes that are left.
#[derive(Drop)]
pub struct PrimitiveObjects<'a>(pub &'a [u8]);

impl<'a> Iterator for PrimitiveObjects<'a> {
    type Item = PrimitiveObject<'a>;

    ghost next_gives = { YieldsFirstBy object_read (λ s. leading_primitive_objects s.0.now) };

    ghost remaining = { item_count (λ s. leading_primitive_objects s.0.now) };

    #[tactic(auto, using(crate::proofs::Primitives::read_inside))]
    fn next(&mut self) -> Option<PrimitiveObject<'a>> {
        let s = self.0;
        let h = primitive_at_front(s)?;
        let end = h.start + h.len;
        self.0 = &s[end..];
        Some(PrimitiveObject {
            tag: h.tag,
            value: &s[h.start..end],
        })
    }
}

// Whether the bytes are a run of whole primitive objects.
// Kept: a loop, since the bytes that are left are tested at its end; `PrimitiveObjects` says which objects it gives, not
// which bytes it leaves.
#[tactic(auto, using(crate::proofs::Primitives::read_inside))]
pub fn is_primitive_list(bytes: &[u8]) -> bool
    ensures { result ≡ are_primitive_objects_parsed (primitive_objects bytes.now) }
{
    let mut s = bytes;
    while let Some(h) = primitive_at_front(s) {
        s = &s[h.start + h.len..];
    }
    s.is_empty()
}
