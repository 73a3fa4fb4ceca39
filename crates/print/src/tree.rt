// The objects of a card's answer, without its status bytes, as an indented tree, and the position of the first that
// cannot be read (document 01, "Reading an answer").
//
// `print_tree_walk` goes through the bytes in order. What is next is `tlv::next_in_template`'s matter; the ends of the
// templates that are open are in an array. Within a template a 00 where a tag would start is skipped (document 02,
// Item 6).
use crate::{
    bits, part, print_bytes, print_indentation, print_object_line, print_tag_and_name, print_text,
};
use tlv::{NextInTemplate, TlvHeader};

// What is shown: the tree, and the bits of its objects in words.
#[derive(Clone, Copy)]
pub struct TreeView {
    pub tree: bool,
    pub bits: bool,
}

// How a walk ended: all objects were read, an object is broken, a template is on the fifth level, or bytes are behind
// the outer object.
#[derive(Clone, Copy)]
pub enum WalkEnd {
    Whole,
    Broken,
    Fifth,
    Behind,
}

// How many templates may be open, the outer one included.
const LEVELS: usize = 4;

// A walk: the place that is next, counted from 0, how many templates are open, where each ends, and how the walk
// ended, where it has.
#[derive(Clone, Copy)]
pub struct TreeWalk {
    pub at: usize,
    open: usize,
    ends: [usize; LEVELS],
    pub ended: Option<WalkEnd>,
}

// The whole walk. A proved loop has to end, so it has a number of iterations that no answer uses up.
pub fn print_tree_walk(rt: &impl Print, body: &[u8], view: TreeView) -> TreeWalk {
    let mut w = TreeWalk {
        at: 0,
        open: 0,
        ends: [0; LEVELS],
        ended: None,
    };
    for _ in 0..65536u32 {
        if w.ended.is_some() {
            return w;
        }
        w = step(rt, w, body, view);
    }
    w
}

// The next object, or the end of the template that is open.
fn step(rt: &impl Print, w: TreeWalk, body: &[u8], view: TreeView) -> TreeWalk {
    let rest = part(body, w.at, end_of(w, body.len()));
    if w.open == 0 {
        return outer(rt, w, rest, view);
    }
    if let Some(0) = rest.first() {
        return TreeWalk {
            at: w.at.saturating_add(1),
            ..w
        };
    }
    match tlv::next_in_template(rest) {
        // The contents are used up.
        NextInTemplate::End => TreeWalk {
            open: w.open.saturating_sub(1),
            ..w
        },
        NextInTemplate::Malformed => stopped(rt, w, WalkEnd::Broken, rest, view),
        NextInTemplate::Inner(h) => met(rt, w, h, rest, view),
    }
}

// The outer object, or what follows it: no byte may.
fn outer(rt: &impl Print, w: TreeWalk, rest: &[u8], view: TreeView) -> TreeWalk {
    if 0 < w.at {
        let how = if rest.is_empty() {
            WalkEnd::Whole
        } else {
            WalkEnd::Behind
        };
        return stopped(rt, w, how, rest, view);
    }
    match tlv::object_header(rest) {
        Some(h) => met(rt, w, h, rest, view),
        None => stopped(rt, w, WalkEnd::Broken, rest, view),
    }
}

// Where the innermost open template ends; the answer's end where none is open.
fn end_of(w: TreeWalk, all: usize) -> usize {
    w.ends[..w.open.min(LEVELS)].last().copied().unwrap_or(all)
}

// An object: a template is opened, unless it is on the fifth level; past a primitive object the walk goes on.
fn met(rt: &impl Print, w: TreeWalk, h: TlvHeader, rest: &[u8], view: TreeView) -> TreeWalk {
    let start = w.at.saturating_add(h.start);
    let end = start.saturating_add(h.len);
    if !h.template {
        if view.tree {
            let value = part(rest, h.start, h.start.saturating_add(h.len));
            primitive(rt, h.tag, value, w.open, view);
        }
        return TreeWalk { at: end, ..w };
    }
    if LEVELS <= w.open {
        return stopped(rt, w, WalkEnd::Fifth, rest, view);
    }
    if view.tree {
        template(rt, h.tag, w.open);
    }
    let mut ends = w.ends;
    ends[w.open] = end;
    TreeWalk {
        at: start,
        open: w.open + 1,
        ends,
        ..w
    }
}

// The walk stops; the bytes that it does not reach are shown.
fn stopped(rt: &impl Print, w: TreeWalk, how: WalkEnd, rest: &[u8], view: TreeView) -> TreeWalk {
    if view.tree && !rest.is_empty() {
        print_indentation(rt, w.open);
        print_text(rt, b"not read:");
        print_bytes(rt, rest);
        print_text(rt, b"\n");
    }
    TreeWalk {
        ended: Some(how),
        ..w
    }
}

// ---- lines

fn primitive(rt: &impl Print, tag: u32, value: &[u8], levels: usize, view: TreeView) {
    print_indentation(rt, levels);
    print_object_line(rt, tag, value);
    if view.bits {
        bits::print_bit_lines(rt, tag, value, levels.saturating_add(1));
    }
}

fn template(rt: &impl Print, tag: u32, levels: usize) {
    print_indentation(rt, levels);
    print_tag_and_name(rt, tag);
    print_text(rt, b"\n");
}
